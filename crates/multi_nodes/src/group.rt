ghost use Rattle.std.specs.Prelude.{◌≡◌, ◌<◌, [], length, MatchOption};
ghost use Rattle.std.specs.List.{list_all};
ghost use Rattle.basis.specs.Lists.{each};
ghost use Rattle.script_meaning.specs.GroupCost.{same_parameter, same_request};
ghost use Rattle.multi_nodes.specs.Members.{alike_in};

use basis::Items;
use script_tree::request::{Parameter, Request};
use std::marker::Model;

/// The requests of a group's members, of whom there is one at least. Contracts see the list of them.
#[derive(Drop)]
pub struct Group {
    requests: Items<Request>,
    /// Whether all of them are equal.
    alike: bool,
}

impl Model for Group {
    ghost use Rattle.std.specs.Prelude.{List, ◌≡◌, ◌<◌, length};
    ghost use Rattle.script_tree.specs.Requests.{Request};
    ghost use Rattle.multi_nodes.specs.Members.{alike_in};

    ghost Value = { List Request };

    ghost view = { λ a. a.requests };

    ghost invariant = { λ a. (0 < length a.requests) × (a.alike ≡ alike_in a.requests) };
}

impl Group {
    /// The group of these requests; none where there are none.
    pub fn new(requests: Items<Request>) -> Option<Group>
        ensures { MatchOption result (requests ≡ []) (λ group. group ≡ requests) }
    {
        let first = requests.as_slice().first()?;
        let alike = are_alike(first, requests.as_slice());
        Some(Group { requests, alike })
    }

    pub fn requests(&self) -> &[Request]
        ensures requests { result.now ≡ self.now }
        ensures some { 0 < length self.now }
    {
        self.requests.as_slice()
    }

    /// Whether all requests are equal.
    pub fn is_alike(&self) -> bool
        ensures { result ≡ alike_in self.now }
    {
        self.alike
    }
}

/// Whether all of these are this request.
fn are_alike(first: &Request, requests: &[Request]) -> bool
    ensures { result ≡ list_all (same_request first.now) requests.now }
{
    requests.iter().all(|request| same_request(first, request))
}

fn same_request(a: &Request, b: &Request) -> bool
    ensures { result ≡ same_request a.now b.now }
{
    a.method().as_bytes() == b.method().as_bytes()
        && a.path().as_bytes() == b.path().as_bytes()
        && a.body().as_bytes() == b.body().as_bytes()
        && same_parameters(a.parameters().as_slice(), b.parameters().as_slice())
}

fn same_parameters(a: &[Parameter], b: &[Parameter]) -> bool
    ensures { result ≡ each same_parameter a.now b.now }
{
    if a.len() != b.len() {
        return false;
    }
    for place in 0..a.len() {
        if !same_parameter(&a[place], &b[place]) {
            return false;
        }
    }
    true
}

fn same_parameter(a: &Parameter, b: &Parameter) -> bool
    ensures { result ≡ same_parameter a.now b.now }
{
    a.name.as_bytes() == b.name.as_bytes() && a.value.as_bytes() == b.value.as_bytes()
}
