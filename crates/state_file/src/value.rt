ghost use Rattle.std.specs.Prelude.{◌≡◌, IfOk};
ghost use Rattle.serde_json.specs.View.{view, items_view};
ghost use Rattle.state_file.specs.Values.{datum_of, values_of};

use json_texts::text::hex_text;
use script_tree::text::Text;
use script_tree::value::{Value, Values};
use serde_json::Value as Json;
use std::alloc::{AllocError, Global};

/// The value that a JSON tree stands for.
#[cycle(value)]
pub fn value_of(alloc: Global, json: Json) -> Result<Option<Value>, AllocError>
    ensures { IfOk result (λ o. o ≡ datum_of (view json)) }
{
    match json {
        Json::Null => Ok(Some(Value::null())),
        Json::Bool(b) => Ok(Some(Value::bool(b))),
        Json::Number(number) => Ok(number.as_i64().map(Value::number)),
        Json::String(text) => {
            let text = Text::from_vec(text.into_bytes());
            Ok(Some(Value::text(alloc, text)?))
        }
        Json::Object(members) => match hex_text(alloc, &members)? {
            Some(text) => Ok(Some(Value::text(alloc, text)?)),
            None => Ok(None),
        },
        Json::Array(items) => Ok(values_of(alloc, items)?.map(Value::list)),
    }
}

/// The values of a list or a row.
#[cycle(value)]
pub fn values_of(alloc: Global, items: Vec<Json>) -> Result<Option<Values>, AllocError>
    ensures { IfOk result (λ o. o ≡ values_of (items_view items.items)) }
{
    let mut values = Vec::with_capacity(alloc, items.len())?;
    for item in items {
        match value_of(alloc, item)? {
            Some(value) => values.push(value)?,
            None => return Ok(None),
        }
    }
    Ok(Some(Values::from_vec(values)?))
}
