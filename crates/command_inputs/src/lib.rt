//! The inputs of commands. Each is read from a shelf by one function, whole and within a limit that
//! the command gives, and is decoded; or it is told why it ends the command.
#![tactic(auto)]

pub mod fault;
pub mod file;
pub mod halt;
pub mod law;
pub mod program;
pub mod report_file;
pub mod requests;
pub mod role;
pub mod schedule;
pub mod state;
pub mod trace;
pub mod turns;

pub use fault::{InputError, InputFault, TraceFault};
pub use halt::Halt;
pub use program::read_program;
pub use report_file::read_report;
pub use requests::read_requests;
pub use role::Role;
pub use schedule::read_schedule;
pub use state::read_state;
pub use trace::read_trace;
pub use turns::read_turns;
