//! What a program does with a request, and what a schedule explains of a trace: the definitions, in
//! specs/, on which every promise of the project stands.
#![tactic(auto)]

pub mod responses;
pub mod run;
pub mod status;
pub mod store_names;
