ghost use Rattle.basis.specs.UnlessMemory.{UnlessMemory};
ghost use Rattle.state_file.specs.States.{HasStateFault};
ghost use Rattle.state_file.specs.Starts.{IsStart};

use crate::fault::StateFault;
use crate::given::given_of;
use crate::stored::stored;
use basis::OrMemory;
use json_texts::{NotJson, read_json};
use object_set::ObjectSet;
use script_check::program::Program;
use std::alloc::Global;

/// The objects that a program starts with, from the bytes of a state.
pub fn read_state(
    alloc: Global,
    program: &Program,
    bytes: &[u8],
) -> Result<ObjectSet, OrMemory<StateFault>>
    ensures { let fault = HasStateFault program.now bytes.now in
        UnlessMemory (IsStart program.now bytes.now) fault result }
{
    let json = match read_json(alloc, bytes) {
        Ok(json) => json,
        Err(OrMemory::Memory) => return Err(OrMemory::Memory),
        Err(OrMemory::Other(NotJson)) => return Err(OrMemory::Other(StateFault::NotJson)),
    };
    match given_of(alloc, json)? {
        Some(given) => stored(alloc, program, given),
        None => Err(OrMemory::Other(StateFault::OtherShape)),
    }
}
