//! From bytes to a JSON value.
ghost use Rattle.std.specs.Prelude.{◌≡◌, IfOk, option_map};
ghost use Rattle.serde_json.specs.View.{view};
ghost use Rattle.json_look.specs.Json.{json_of};

use serde_json::Value;
use std::alloc::Global;
use tiger_base::NoMemory;

/// The JSON value that the bytes are; `None` exactly if they are no JSON text.
pub fn parse(alloc: Global, bytes: &[u8]) -> Result<Option<Value>, NoMemory>
    ensures { IfOk result (λ v. option_map view v ≡ json_of bytes.now) }
{
    match Value::from_slice(alloc, bytes) {
        Ok(value) => Ok(Some(value)),
        Err(e) => {
            if e.is_memory() {
                Err(NoMemory)
            } else {
                Ok(None)
            }
        }
    }
}
