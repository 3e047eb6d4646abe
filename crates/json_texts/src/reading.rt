ghost use Rattle.basis.specs.UnlessMemory.{UnlessMemory};
ghost use Rattle.serde_json.specs.View.{view};
ghost use Rattle.json_texts.specs.Reading.{IsJson, IsNoJson};

use basis::OrMemory;
use serde_json::Value as Json;
use std::alloc::Global;

/// The bytes aren't a JSON text as `serde_json` reads one.
#[derive(Clone, Copy, PartialEq, Eq)]
pub struct NotJson;

/// The tree of a JSON text.
pub fn read_json(alloc: Global, bytes: &[u8]) -> Result<Json, OrMemory<NotJson>>
    ensures { UnlessMemory (λ json. IsJson bytes.now (view json)) (λ _. IsNoJson bytes.now) result }
{
    match Json::from_slice(alloc, bytes) {
        Ok(json) => Ok(json),
        Err(error) => {
            if error.is_memory() {
                Err(OrMemory::Memory)
            } else {
                Err(OrMemory::Other(NotJson))
            }
        }
    }
}
