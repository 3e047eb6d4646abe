ghost use Rattle.std.specs.Prelude.{◌≡◌, ℕ, [], length, IfOk, IfSome};
ghost use Rattle.multivalue.specs.Many.{member_value};
ghost use Rattle.multi_bodies.specs.BodiesOf.{
  AreGrown,
  AreReached,
  AreWithin,
  IsTextOf,
  body_at,
  bytes_of,
};
ghost use Rattle.multi_bodies.specs.Printing.{PrintsAll};

use multivalue::{Apart, Multi};
use script_tree::fault::ScriptFault;
use script_tree::limits::MOST_BODY_BYTES;
use script_tree::text::Text;
use script_tree::value::{Node, Value};
use std::alloc::{AllocError, Global};
use std::marker::Model;

/// The bodies of the members' responses: pieces, each of which is a text of every member. Contracts
/// see the pieces in order.
#[derive(Drop)]
pub struct Bodies {
    pieces: Vec<Multi>,
    /// How many bytes each member's body has of pieces that are one text for all.
    common: usize,
    /// How many bytes each member's body has beside those.
    own: Vec<usize>,
    /// The most of those.
    most: usize,
}

impl Model for Bodies {
    ghost use Rattle.std.specs.Prelude.{List};
    ghost use Rattle.std.specs.Coded.{coded_list};
    ghost use Rattle.multivalue.specs.Many.{Many, coded_many};
    ghost use Rattle.multi_bodies.specs.BodiesOf.{HaveLengths};

    ghost Value = { List Many };

    ghost coded = { coded_list coded_many };

    ghost view = { λ a. a.pieces.items };

    ghost invariant = { λ a. HaveLengths a.pieces.items a.common a.own.items a.most };
}

impl Bodies {
    /// Empty bodies of so many members.
    pub fn new(alloc: Global, members: usize) -> Result<Bodies, AllocError>
        ensures { IfOk result (λ bodies. bodies ≡ []) }
    {
        Ok(Bodies {
            pieces: Vec::new(alloc),
            common: 0,
            own: Vec::from_elem(alloc, 0, members)?,
            most: 0,
        })
    }

    /// Each of so many members prints its text after its body.
    pub fn print(&mut self, alloc: Global, texts: Multi, members: usize) -> Result<(), Apart>
        ensures { PrintsAll members texts self.old result self.new }
    {
        if self.own.len() != members {
            // No caller comes here.
            drop(texts);
            return Err(Apart::Memory);
        }
        let room = MOST_BODY_BYTES - self.common;
        if let Some(more) = shared_len(&texts) {
            if more <= room - self.most {
                self.pieces.push(texts)?;
                self.common += more;
                return Ok(());
            }
        }
        let Ok(own) = grown(alloc, &texts, self.own.as_slice()) else {
            drop(texts);
            return Err(Apart::Memory);
        };
        let Bounds { least, most } = bounds_of(own.as_slice());
        if room < least {
            drop(texts);
            return Err(Apart::Fault(ScriptFault::TooLarge));
        }
        if room < most {
            drop(texts);
            return Err(Apart::Differ);
        }
        self.pieces.push(texts)?;
        self.own = own;
        self.most = most;
        Ok(())
    }

    /// A member's body. No caller asks for another member.
    pub fn body_at(&self, alloc: Global, member: usize) -> Result<Text, AllocError>
        ensures { IfOk result (λ body. body ≡ body_at member self.now) }
    {
        if member >= self.own.len() {
            return Err(AllocError);
        }
        let mut bytes = Vec::with_capacity(alloc, self.common + self.own[member])?;
        for piece in &self.pieces {
            let Some(value) = piece.get(member) else {
                return Err(AllocError);
            };
            bytes.extend_from_slice(bytes_of(value))?;
        }
        Ok(Text::from_vec(bytes))
    }
}

/// The bytes of a text.
fn bytes_of(value: &Value) -> &[u8]
    ensures { result.now ≡ bytes_of value.now }
{
    match &value.node {
        Node::Text(text) => text.as_bytes(),
        Node::Null | Node::Bool(_) | Node::Number(_) | Node::List(_) => &[],
    }
}

/// The length of a text.
fn len_of(value: &Value) -> Option<usize>
    ensures { IfSome result (λ len. IsTextOf len value.now) }
{
    match &value.node {
        Node::Text(text) => Some(text.len()),
        Node::Null | Node::Bool(_) | Node::Number(_) | Node::List(_) => None,
    }
}

/// The length of the one text of all members.
fn shared_len(texts: &Multi) -> Option<usize>
    ensures { IfSome result (λ len. (i : ℕ) → IsTextOf len (member_value texts.now i)) }
{
    len_of(texts.one()?)
}

/// The lengths of members with their texts, as far as a number goes.
fn grown(alloc: Global, texts: &Multi, own: &[usize]) -> Result<Vec<usize>, AllocError>
    ensures { IfOk result (λ lens.
        AreGrown (length own.now) usize.MAX texts.now own.now lens.items) }
{
    let mut lens = Vec::with_capacity(alloc, own.len())?;
    for member in 0..own.len() {
        // No caller has another value than a text, or one too few.
        let Some(value) = texts.get(member) else {
            return Err(AllocError);
        };
        let Some(more) = len_of(value) else {
            return Err(AllocError);
        };
        lens.push(own[member].saturating_add(more))?;
    }
    Ok(lens)
}

/// The least of a list of numbers, and the most.
struct Bounds {
    least: usize,
    most: usize,
}

fn bounds_of(lens: &[usize]) -> Bounds
    ensures within { AreWithin result.least result.most lens.now }
    ensures reached { AreReached result.least result.most lens.now }
{
    let mut bounds = Bounds {
        least: lens.first().copied().unwrap_or(0),
        most: 0,
    };
    for len in lens {
        bounds.least = bounds.least.min(*len);
        bounds.most = bounds.most.max(*len);
    }
    bounds
}
