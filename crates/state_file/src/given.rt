ghost use Rattle.std.specs.Prelude.{◌≡◌, true, pos, Some, IfOk, IfSome, option_map};
ghost use Rattle.serde_json.specs.View.{view, members_view};
ghost use Rattle.json_texts.specs.Shapes.{have_names, read_or, StandOnce};
ghost use Rattle.state_file.specs.Givens.{clock_of, member_names, whole};
ghost use Rattle.state_file.specs.Givens.{given_in, given_of};

use crate::value::{value_of, values_of};
use basis::Items;
use json_texts::shape::{Shape, array_of, array_or_empty, have_names, object_or_empty, pair_of};
use json_texts::text::text_of;
use script_tree::text::Text;
use script_tree::value::{Value, Values};
use serde_json::{Map, Value as Json};
use std::alloc::{AllocError, Global};

/// What a state gives: registers, stores by name, tables by name, and the clock's last reading.
#[derive(Drop)]
pub struct Given {
    pub registers: Items<(Text, Value)>,
    pub stores: Items<(Text, Items<(Text, Value)>)>,
    pub tables: Items<(Text, Items<Values>)>,
    pub clock: i64,
}

/// What a JSON tree gives where it has the shape of a state.
pub fn given_of(alloc: Global, json: Json) -> Result<Option<Given>, AllocError>
    ensures given { IfOk result (λ o. o ≡ given_of (view json)) }
    ensures once { IfOk result (λ o. IfSome o (λ given. StandOnce given.stores)) }
{
    match json {
        Json::Object(members) => given_in(alloc, members),
        Json::Null | Json::Bool(_) | Json::Number(_) | Json::String(_) | Json::Array(_) => Ok(None),
    }
}

fn given_in(alloc: Global, mut members: Map<String, Json>) -> Result<Option<Given>, AllocError>
    ensures given { IfOk result (λ o. o ≡ given_in (members_view members.entries)) }
    ensures once { IfOk result (λ o. IfSome o (λ given. StandOnce given.stores)) }
{
    if !have_names(&members, &["registers", "stores", "tables", "clock"]) {
        drop(members);
        return Ok(None);
    }
    let given = parts_in(alloc, &mut members);
    drop(members);
    given
}

/// The same where no member has another name; the members that are read are taken out.
fn parts_in(alloc: Global, members: &mut Map<String, Json>) -> Result<Option<Given>, AllocError>
    requires { have_names member_names (members_view members.old.entries) ≡ true }
    ensures given { IfOk result (λ o. o ≡ given_in (members_view members.old.entries)) }
    ensures once { IfOk result (λ o. IfSome o (λ given. StandOnce given.stores)) }
{
    let registers = members.remove("registers");
    let registers = array_or_empty::<EntryShape>(alloc, registers)?;
    let stores = members.remove("stores");
    let stores = object_or_empty::<EntriesShape>(alloc, stores)?;
    let tables = members.remove("tables");
    let tables = object_or_empty::<RowsShape>(alloc, tables)?;
    let clock = members.remove("clock");
    Ok(whole(registers, stores, tables, given_clock(clock)))
}

/// All parts together, where each is there.
fn whole(
    registers: Option<Items<(Text, Value)>>,
    stores: Option<Items<(Text, Items<(Text, Value)>)>>,
    tables: Option<Items<(Text, Items<Values>)>>,
    clock: Option<i64>,
) -> Option<Given>
    ensures whole { result ≡ whole registers stores tables clock }
    ensures stores { IfSome result (λ given. stores ≡ Some given.stores) }
{
    Some(Given {
        registers: registers?,
        stores: stores?,
        tables: tables?,
        clock: clock?,
    })
}

fn given_clock(json: Option<Json>) -> Option<i64>
    ensures { result ≡ read_or (pos 0) clock_of (option_map view json) }
{
    match json {
        Some(json) => json.as_i64(),
        None => Some(0),
    }
}

struct EntryShape;

impl Shape for EntryShape {
    ghost use Rattle.state_file.specs.Givens.{entry_of};

    type Given = (Text, Value);

    ghost given = { entry_of };

    fn read(alloc: Global, json: Json) -> Result<Option<(Text, Value)>, AllocError> {
        let Some((name, value)) = pair_of(json) else {
            return Ok(None);
        };
        let Some(name) = text_of(alloc, name)? else {
            return Ok(None);
        };
        match value_of(alloc, value)? {
            Some(value) => Ok(Some((name, value))),
            None => Ok(None),
        }
    }
}

struct EntriesShape;

impl Shape for EntriesShape {
    ghost use Rattle.state_file.specs.Givens.{entries_of};

    type Given = Items<(Text, Value)>;

    ghost given = { entries_of };

    fn read(alloc: Global, json: Json) -> Result<Option<Items<(Text, Value)>>, AllocError> {
        array_of::<EntryShape>(alloc, json)
    }
}

struct RowShape;

impl Shape for RowShape {
    ghost use Rattle.state_file.specs.Givens.{row_of};

    type Given = Values;

    ghost given = { row_of };

    fn read(alloc: Global, json: Json) -> Result<Option<Values>, AllocError> {
        match json {
            Json::Array(items) => values_of(alloc, items),
            Json::Null | Json::Bool(_) | Json::Number(_) | Json::String(_) | Json::Object(_) => Ok(
                None,
            ),
        }
    }
}

struct RowsShape;

impl Shape for RowsShape {
    ghost use Rattle.state_file.specs.Givens.{rows_of};

    type Given = Items<Values>;

    ghost given = { rows_of };

    fn read(alloc: Global, json: Json) -> Result<Option<Items<Values>>, AllocError> {
        array_of::<RowShape>(alloc, json)
    }
}
