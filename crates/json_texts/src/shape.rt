ghost use Rattle.std.specs.Prelude.{◌≡◌, ◌++◌, ◌∷◌, [], map, None, Option, IfOk, IfSome, IsSomeAnd, MatchBool, option_map, string_bytes};
ghost use Rattle.std.specs.List.{list_any};
ghost use Rattle.std.specs.Str.{bytes_eq};
ghost use Rattle.serde_json.specs.Data.{Data};
ghost use Rattle.serde_json.specs.View.{view, items_view, members_view};
ghost use Rattle.json_texts.specs.Shapes.{all_of, array_of, each_of, object_of, pair_in, pair_of};
ghost use Rattle.json_texts.specs.Shapes.{read_or, have_names, StandOnce};

use basis::Items;
use script_tree::text::Text;
use serde_json::{Map, Value as Json};
use std::alloc::{AllocError, Global};

/// A shape that a JSON tree may have, and what a tree of it gives.
pub trait Shape {
    type Given: Drop;

    ghost given: { Data → Option Self.Given };

    /// What the tree gives, or `None` where it has another shape.
    fn read(alloc: Global, json: Json) -> Result<Option<Self::Given>, AllocError>
        ensures { IfOk result (λ o. o ≡ given (view json)) };
}

/// What the items of an array give.
pub fn array_of<S: Shape>(alloc: Global, json: Json) -> Result<Option<Items<S::Given>>, AllocError>
    ensures { IfOk result (λ o. o ≡ array_of S.given (view json)) }
{
    match json {
        Json::Array(items) => all_of::<S>(alloc, items),
        Json::Null | Json::Bool(_) | Json::Number(_) | Json::String(_) | Json::Object(_) => Ok(
            None,
        ),
    }
}

/// The same, and an empty list where there is no tree.
pub fn array_or_empty<S: Shape>(
    alloc: Global,
    json: Option<Json>,
) -> Result<Option<Items<S::Given>>, AllocError>
    ensures { IfOk result (λ o. o ≡ read_or [] (array_of S.given) (option_map view json)) }
{
    match json {
        Some(json) => array_of::<S>(alloc, json),
        None => Ok(Some(Items::new(alloc))),
    }
}

/// What the members of an object give, with their names.
pub fn object_of<S: Shape>(
    alloc: Global,
    json: Json,
) -> Result<Option<Items<(Text, S::Given)>>, AllocError>
    ensures given { IfOk result (λ o. o ≡ object_of S.given (view json)) }
    ensures once { IfOk result (λ o. IfSome o StandOnce) }
{
    match json {
        Json::Object(members) => each_of::<S>(alloc, members),
        Json::Null | Json::Bool(_) | Json::Number(_) | Json::String(_) | Json::Array(_) => Ok(None),
    }
}

/// The same, and an empty list where there is no tree.
pub fn object_or_empty<S: Shape>(
    alloc: Global,
    json: Option<Json>,
) -> Result<Option<Items<(Text, S::Given)>>, AllocError>
    ensures given { IfOk result (λ o. o ≡ read_or [] (object_of S.given) (option_map view json)) }
    ensures once { IfOk result (λ o. IfSome o StandOnce) }
{
    match json {
        Some(json) => object_of::<S>(alloc, json),
        None => Ok(Some(Items::new(alloc))),
    }
}

/// The items of an array of two.
pub fn pair_of(json: Json) -> Option<(Json, Json)>
    ensures { option_map (λ pair. (view pair.0, view pair.1)) result ≡ pair_of (view json) }
{
    match json {
        Json::Array(mut items) => {
            let pair = pair_in(&mut items);
            drop(items);
            pair
        }
        Json::Null | Json::Bool(_) | Json::Number(_) | Json::String(_) | Json::Object(_) => None,
    }
}

/// The items, which are taken out, where there are two.
fn pair_in(items: &mut Vec<Json>) -> Option<(Json, Json)>
    ensures { let pair = pair_in (items_view items.old.items) in
        option_map (λ pair. (view pair.0, view pair.1)) result ≡ pair }
{
    if items.len() != 2 {
        return None;
    }
    let second = items.pop()?;
    let Some(first) = items.pop() else {
        drop(second);
        return None;
    };
    Some((first, second))
}

fn all_of<S: Shape>(alloc: Global, items: Vec<Json>) -> Result<Option<Items<S::Given>>, AllocError>
    ensures { IfOk result (λ o. o ≡ all_of S.given (items_view items.items)) }
{
    let Ok(mut given) = Vec::with_capacity(alloc, items.len()) else {
        drop(items);
        return Err(AllocError);
    };
    let mut left = items.into_iter();
    while let Some(item) = left.next() {
        match put_given::<S>(alloc, item, &mut given) {
            Ok(true) => {}
            Ok(false) => {
                drop(left);
                drop(given);
                return Ok(None);
            }
            Err(error) => {
                drop(left);
                drop(given);
                return Err(error);
            }
        }
    }
    drop(left);
    Ok(Some(Items::from_vec(given)))
}

/// Puts what a tree gives behind the others, and tells whether it has the shape.
fn put_given<S: Shape>(
    alloc: Global,
    json: Json,
    given: &mut Vec<S::Given>,
) -> Result<bool, AllocError>
    ensures { let read = S.given (view json) in IfOk result (λ has. MatchBool has
        (IsSomeAnd read (λ one. given.new.items ≡ given.old.items ++ one ∷ []))
        (read ≡ None)) }
{
    match S::read(alloc, json)? {
        Some(one) => given.push(one)?,
        None => return Ok(false),
    }
    Ok(true)
}

fn each_of<S: Shape>(
    alloc: Global,
    members: Map<String, Json>,
) -> Result<Option<Items<(Text, S::Given)>>, AllocError>
    ensures given { IfOk result (λ o. o ≡ each_of S.given (members_view members.entries)) }
    ensures once { IfOk result (λ o. IfSome o StandOnce) }
{
    let mut given = Vec::new(alloc);
    let mut left = members.into_iter();
    while let Some((name, json)) = left.next() {
        match put_named::<S>(alloc, name, json, &mut given) {
            Ok(true) => {}
            Ok(false) => {
                drop(left);
                drop(given);
                return Ok(None);
            }
            Err(error) => {
                drop(left);
                drop(given);
                return Err(error);
            }
        }
    }
    drop(left);
    Ok(Some(Items::from_vec(given)))
}

/// The same of what has a name.
fn put_named<S: Shape>(
    alloc: Global,
    name: String,
    json: Json,
    given: &mut Vec<(Text, S::Given)>,
) -> Result<bool, AllocError>
    ensures { let read = S.given (view json) in IfOk result (λ has. MatchBool has
        (IsSomeAnd read (λ one.
        given.new.items ≡ given.old.items ++ (string_bytes name, one) ∷ []))
        (read ≡ None)) }
{
    match S::read(alloc, json)? {
        Some(one) => given.push((Text::from_vec(name.into_bytes()), one))?,
        None => return Ok(false),
    }
    Ok(true)
}

/// Whether each member has one of these names.
pub fn have_names(members: &Map<String, Json>, names: &[&str]) -> bool
    ensures { let texts = map (λ name. name.now) names.now in
        result ≡ have_names texts (members_view members.now.entries) }
{
    for (name, _) in members {
        if !is_among(name.as_str(), names) {
            return false;
        }
    }
    true
}

fn is_among(name: &str, names: &[&str]) -> bool
    ensures { result ≡ list_any (λ other. bytes_eq name.now other.now) names.now }
{
    names.iter().any(|other| name == *other)
}
