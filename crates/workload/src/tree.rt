//! Owned trees of JSON values that borrow their text.

ghost use Rattle.std.specs.Prelude.{◌≡◌, Some, IfOk, IfSome};
ghost use Rattle.json.specs.Value as borrowed;
ghost use Rattle.serde_json.specs.Data.{no_members};
ghost use Rattle.serde_json.specs.Read.{of_json, of_items, of_members};
ghost use Rattle.serde_json.specs.View.{view, items_view, members_view};

use json::Value as Borrowed;
use serde_json::{Map, Value as Json};
use std::alloc::{AllocError, Global};

/// The tree of a value that borrows its text, or `None` where a number is in it: no job has one.
#[cycle(tree_of)]
pub(crate) fn tree_of(alloc: Global, value: &Borrowed<'_>) -> Result<Option<Json>, AllocError>
    ensures { IfOk result
        (λ o. IfSome o (λ tree. of_json (borrowed.value_view value.now) ≡ Some (view tree))) }
{
    match value {
        Borrowed::Null => Ok(Some(Json::Null)),
        Borrowed::Bool(b) => Ok(Some(Json::Bool(*b))),
        Borrowed::Number(_) => Ok(None),
        Borrowed::String(text) => Ok(Some(Json::String(String::from_str(alloc, text)?))),
        Borrowed::Array(items) => match items_of(alloc, items)? {
            Some(trees) => Ok(Some(Json::Array(trees))),
            None => Ok(None),
        },
        Borrowed::Object(members) => match members_of(alloc, members)? {
            Some(trees) => Ok(Some(Json::Object(trees))),
            None => Ok(None),
        },
    }
}

#[cycle(tree_of)]
fn items_of(alloc: Global, items: &Vec<Borrowed<'_>>) -> Result<Option<Vec<Json>>, AllocError>
    ensures { let js = borrowed.items_view items.now.items in
        IfOk result (λ o. IfSome o (λ trees. of_items js ≡ Some (items_view trees.items))) }
{
    let mut trees = Vec::with_capacity(alloc, items.len())?;
    for item in items {
        match tree_of(alloc, item)? {
            Some(tree) => trees.push(tree)?,
            None => return Ok(None),
        }
    }
    Ok(Some(trees))
}

/// Of a name that stands twice the last member counts.
#[cycle(tree_of)]
fn members_of(
    alloc: Global,
    members: &Vec<(&str, Borrowed<'_>)>,
) -> Result<Option<Map<String, Json>>, AllocError>
    ensures { let ms = borrowed.members_view members.now.items in
        IfOk result (λ o. IfSome o
        (λ trees. of_members ms no_members ≡ Some (members_view trees.entries))) }
{
    let mut trees = Map::new(alloc);
    for (name, member) in members {
        let name = String::from_str(alloc, name)?;
        match tree_of(alloc, member)? {
            Some(tree) => drop(trees.insert(name, tree)?),
            None => return Ok(None),
        }
    }
    Ok(Some(trees))
}
