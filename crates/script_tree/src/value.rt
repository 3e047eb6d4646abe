ghost use Rattle.std.specs.Prelude.{◌≡◌, min, length, IfOk};
ghost use Rattle.script_tree.specs.Datum.{size, nesting, members_size, members_nesting, data_of, is_within_limits, number, null, bool, text as texted, list as listed};
ghost use Rattle.script_tree.specs.Order.{compare, compare_members, rank};

use crate::limits::{MOST_VALUE_NESTING, MOST_VALUE_SIZE};
use crate::text::Text;
use std::alloc::{AllocError, Global};
use std::cmp::Ordering;
use std::marker::Model;
use std::sync::Arc;

/// A value of the script language. Contracts see it as a `Datum`, without where it lies in memory.
/// A copy has the same text or members as its source, and takes no memory.
#[cycle(value)]
#[derive(Drop)]
pub struct Value {
    pub node: Node,
}

/// The kinds of values.
#[cycle(value)]
#[derive(Drop)]
pub enum Node {
    Null,
    Bool(bool),
    Number(i64),
    Text(Arc<Text>),
    List(Values),
}

impl Model for Value {
    ghost use Rattle.std.specs.Prelude.{◌*◌};
    ghost use Rattle.script_tree.specs.Datum.{Datum, size as in_all};
    ghost use Rattle.script_tree.specs.DatumCode.{coded_datum};

    ghost Value = { Datum };

    ghost coded = { coded_datum };

    ghost use Rattle.script_tree.specs.ValueView.{datum_of};

    ghost view = { λ a. datum_of a.node };

    ghost size = { λ d. 3 * in_all d };

    ghost use Rattle.script_tree.specs.ValueFalls.{value_falls};

    ghost size_decreases = { λ a h. value_falls a };
}

/// A list of values, shared by all of its copies.
#[cycle(value)]
#[derive(Drop)]
pub struct Values {
    members: Arc<Members>,
}

impl Model for Values {
    ghost use Rattle.std.specs.Prelude.{List, ◌+◌, ◌*◌};
    ghost use Rattle.script_tree.specs.Datum.{Datum, weight};
    ghost use Rattle.script_tree.specs.DatumCode.{coded_data};

    ghost Value = { List Datum };

    ghost coded = { coded_data };

    ghost view = { λ a. a.members.value };

    ghost size = { λ ds. 3 * weight ds + 2 };

    ghost use Rattle.std.proofs.Common.{arith};

    ghost size_decreases = { λ a h. Prim.omega arith };
}

/// The members of a list, with their sizes added up and the greatest of their nestings, each as far
/// as its type goes.
#[cycle(value)]
#[derive(Drop)]
struct Members {
    items: Vec<Value>,
    size: u64,
    nesting: u64,
}

impl Model for Members {
    ghost use Rattle.std.specs.Prelude.{List, ◌+◌, ◌*◌};
    ghost use Rattle.script_tree.specs.Datum.{Datum, weight};
    ghost use Rattle.script_tree.specs.DatumCode.{coded_data};

    ghost Value = { List Datum };

    ghost coded = { coded_data };

    ghost use Rattle.script_tree.specs.Measured.{IsMeasured};

    ghost view = { λ a. a.items.items };

    ghost invariant = { IsMeasured };

    ghost size = { λ ds. 3 * weight ds + 1 };

    ghost use Rattle.script_tree.specs.ValueFalls.{weight_falls};

    ghost size_decreases = { λ a h. weight_falls a };
}

impl Value {
    pub fn null() -> Value
        ensures { result ≡ null }
    {
        Value { node: Node::Null }
    }

    pub fn bool(b: bool) -> Value
        ensures { result ≡ bool b }
    {
        Value {
            node: Node::Bool(b),
        }
    }

    pub fn number(n: i64) -> Value
        ensures { result ≡ number n }
    {
        Value {
            node: Node::Number(n),
        }
    }

    pub fn text(alloc: Global, text: Text) -> Result<Value, AllocError>
        ensures { IfOk result (λ value. value ≡ texted text) }
    {
        Ok(Value::shared_text(Arc::new(alloc, text)?))
    }

    /// The value of a text that others have too.
    pub fn shared_text(text: Arc<Text>) -> Value
        ensures { result ≡ texted text.value }
    {
        Value {
            node: Node::Text(text),
        }
    }

    pub fn list(values: Values) -> Value
        ensures { result ≡ listed (data_of values) }
    {
        Value {
            node: Node::List(values),
        }
    }

    /// How large it is: texts count their bytes, and everything counts 1 more. A size that doesn't
    /// fit its type is given as the type's greatest number.
    pub fn size(&self) -> u64
        ensures { result ≡ min (size self.now) u64.MAX }
    {
        match &self.node {
            Node::Null | Node::Bool(_) | Node::Number(_) => 1,
            Node::Text(text) => (text.len() as u64).saturating_add(1),
            Node::List(values) => values.size().saturating_add(1),
        }
    }

    /// How deep its lists nest. A nesting that doesn't fit its type is given as the type's greatest
    /// number.
    pub fn nesting(&self) -> u64
        ensures { result ≡ min (nesting self.now) u64.MAX }
    {
        match &self.node {
            Node::Null | Node::Bool(_) | Node::Number(_) | Node::Text(_) => 0,
            Node::List(values) => values.nesting().saturating_add(1),
        }
    }

    /// Whether a script may hold it.
    pub fn is_within_limits(&self) -> bool
        ensures { result ≡ is_within_limits self.now }
    {
        self.size() <= MOST_VALUE_SIZE && self.nesting() <= MOST_VALUE_NESTING
    }

    /// The order of values: null, false, true, numbers, texts by bytes, lists member by member.
    #[cycle(value_compare)]
    pub fn compare(&self, other: &Value) -> Ordering
        ensures { result ≡ compare self.now other.now }
    {
        match (&self.node, &other.node) {
            (Node::Bool(a), Node::Bool(b)) => a.cmp(b),
            (Node::Number(a), Node::Number(b)) => a.cmp(b),
            (Node::Text(a), Node::Text(b)) => a.as_bytes().cmp(b.as_bytes()),
            (Node::List(a), Node::List(b)) => a.compare(b),
            _ => self.rank().cmp(&other.rank()),
        }
    }

    /// Where its kind stands in the order.
    fn rank(&self) -> u8
        ensures { result ≡ rank self.now }
    {
        match &self.node {
            Node::Null => 0,
            Node::Bool(_) => 1,
            Node::Number(_) => 2,
            Node::Text(_) => 3,
            Node::List(_) => 4,
        }
    }
}

impl Clone for Value {
    ghost is_clone = { λ value copy. copy ≡ value };

    fn clone(&self) -> Result<Value, AllocError> {
        let node = match &self.node {
            Node::Null => Node::Null,
            Node::Bool(b) => Node::Bool(*b),
            Node::Number(n) => Node::Number(*n),
            Node::Text(text) => Node::Text(text.clone()?),
            Node::List(values) => Node::List(values.clone()?),
        };
        Ok(Value { node })
    }
}

impl Ord for Value {
    ghost use Rattle.std.proofs.Common.{rules};
    ghost use Rattle.std.specs.Cmp.Rules.{comparing};
    ghost use Rattle.script_tree.specs.Order.{compare};
    ghost use Rattle.script_tree.specs.OrderLaws.{compare_total};

    ghost cmp = { compare };

    ghost total = { compare_total };

    ghost matches_partial_cmp = { Prim.search (comparing, rules) };

    ghost matches_eq = { Prim.search (comparing, rules) };

    fn cmp(&self, other: &Value) -> Ordering {
        self.compare(other)
    }
}

impl PartialOrd for Value {
    ghost use Rattle.std.proofs.Common.{refl};
    ghost use Rattle.std.specs.Cmp.{partial_order_from_agreeing_total};
    ghost use Rattle.std.specs.Ordering.{as_partial_cmp};
    ghost use Rattle.script_tree.specs.Order.{compare};
    ghost use Rattle.script_tree.specs.OrderLaws.{compare_total};

    ghost partial_cmp = { as_partial_cmp compare };

    ghost laws = { partial_order_from_agreeing_total compare compare_total (λ x y. refl) (λ x y. refl) };

    fn partial_cmp(&self, other: &Value) -> Option<Ordering> {
        Some(self.compare(other))
    }
}

impl PartialEq for Value {
    ghost use Rattle.std.specs.Cmp.{partial_equiv_from_equiv};
    ghost use Rattle.std.specs.Ordering.{eq_by_cmp};
    ghost use Rattle.std.proofs.lemmas.Cmp.{eq_by_cmp_equiv};
    ghost use Rattle.script_tree.specs.Order.{compare};
    ghost use Rattle.script_tree.specs.OrderLaws.{compare_total};

    ghost eq = { eq_by_cmp compare };

    ghost laws = { partial_equiv_from_equiv (eq_by_cmp_equiv compare_total) };

    fn eq(&self, other: &Value) -> bool {
        self.compare(other) == Ordering::Equal
    }
}

impl Eq for Value {
    ghost use Rattle.std.proofs.lemmas.Cmp.{eq_by_cmp_equiv};
    ghost use Rattle.script_tree.specs.OrderLaws.{compare_total};

    ghost laws = { eq_by_cmp_equiv compare_total };
}

impl Values {
    /// The list of these values; it takes memory for the count of its owners.
    pub fn from_vec(items: Vec<Value>) -> Result<Values, AllocError>
        ensures { IfOk result (λ values. values ≡ items.items) }
    {
        let alloc = *items.allocator();
        let size = size_of_all(items.as_slice());
        let nesting = nesting_of_all(items.as_slice());
        let members = Members {
            items,
            size,
            nesting,
        };
        Ok(Values {
            members: Arc::new(alloc, members)?,
        })
    }

    /// Gives the values back: these very ones where nobody else has the list, else copies.
    pub fn into_vec(self) -> Result<Vec<Value>, AllocError>
        ensures { IfOk result (λ values. values.items ≡ self) }
    {
        let Values { members } = self;
        match Arc::try_unwrap(members) {
            Ok(members) => Ok(members.into_items()),
            Err(shared) => copied(shared.as_vec()),
        }
    }

    pub fn as_slice(&self) -> &[Value]
        ensures { result.now ≡ self.now }
    {
        self.members.as_vec().as_slice()
    }

    fn size(&self) -> u64
        ensures { result ≡ min (members_size (data_of self.now)) u64.MAX }
    {
        self.members.size()
    }

    fn nesting(&self) -> u64
        ensures { result ≡ min (members_nesting (data_of self.now)) u64.MAX }
    {
        self.members.nesting()
    }

    #[cycle(value_compare)]
    fn compare(&self, other: &Values) -> Ordering
        ensures { result ≡ compare_members (data_of self.now) (data_of other.now) }
    {
        self.members.compare(&other.members)
    }
}

impl PartialEq for Values {
    ghost use Rattle.std.specs.Cmp.{partial_equiv_from_equiv};
    ghost use Rattle.std.specs.Cmp.Lexicographic.{pointwise, lists_per};
    ghost use Rattle.std.specs.Ordering.{eq_by_cmp};
    ghost use Rattle.std.proofs.lemmas.Cmp.{eq_by_cmp_equiv};
    ghost use Rattle.script_tree.specs.Order.{compare};
    ghost use Rattle.script_tree.specs.OrderLaws.{compare_total};

    ghost eq = { pointwise (eq_by_cmp compare) };

    ghost laws = { lists_per (partial_equiv_from_equiv (eq_by_cmp_equiv compare_total)) };

    fn eq(&self, other: &Values) -> bool {
        self.as_slice() == other.as_slice()
    }
}

impl Eq for Values {
    ghost use Rattle.std.specs.Cmp.Lexicographic.{lists_equiv};
    ghost use Rattle.std.proofs.lemmas.Cmp.{eq_by_cmp_equiv};
    ghost use Rattle.script_tree.specs.OrderLaws.{compare_total};

    ghost laws = { lists_equiv (eq_by_cmp_equiv compare_total) };
}

impl PartialOrd for Values {
    ghost use Rattle.std.proofs.Common.{refl};
    ghost use Rattle.std.specs.Cmp.{partial_order_from_agreeing_total};
    ghost use Rattle.std.specs.Cmp.Lexicographic.{slice_partial_cmp, lists_po};
    ghost use Rattle.std.specs.Ordering.{as_partial_cmp};
    ghost use Rattle.script_tree.specs.Order.{compare};
    ghost use Rattle.script_tree.specs.OrderLaws.{compare_total};

    ghost partial_cmp = { slice_partial_cmp (as_partial_cmp compare) };

    ghost laws = { lists_po (partial_order_from_agreeing_total compare compare_total (λ x y. refl) (λ x y. refl)) };

    fn partial_cmp(&self, other: &Values) -> Option<Ordering> {
        self.as_slice().partial_cmp(other.as_slice())
    }
}

impl Ord for Values {
    ghost use Rattle.std.proofs.Common.{refl};
    ghost use Rattle.std.specs.Cmp.Lexicographic.{slice_cmp, lists_total, lists_agrees, lists_ties};
    ghost use Rattle.script_tree.specs.Order.{compare};
    ghost use Rattle.script_tree.specs.OrderLaws.{compare_total};

    ghost cmp = { slice_cmp compare };

    ghost total = { lists_total compare_total };

    ghost matches_partial_cmp = { lists_agrees (λ x y. refl) };

    ghost matches_eq = { lists_ties compare (λ x y. refl) };

    fn cmp(&self, other: &Values) -> Ordering {
        self.as_slice().cmp(other.as_slice())
    }
}

impl Members {
    fn into_items(self) -> Vec<Value>
        ensures { result.items ≡ self }
    {
        let Members { items, .. } = self;
        items
    }

    fn as_vec(&self) -> &Vec<Value>
        ensures { result.now.items ≡ self.now }
    {
        &self.items
    }

    fn size(&self) -> u64
        ensures { result ≡ min (members_size (data_of self.now)) u64.MAX }
    {
        self.size
    }

    fn nesting(&self) -> u64
        ensures { result ≡ min (members_nesting (data_of self.now)) u64.MAX }
    {
        self.nesting
    }

    #[cycle(value_compare)]
    fn compare(&self, other: &Members) -> Ordering
        ensures { result ≡ compare_members (data_of self.now) (data_of other.now) }
    {
        let shorter = self.items.len().min(other.items.len());
        for i in 0..shorter {
            match self.items[i].compare(&other.items[i]) {
                Ordering::Equal => {}
                unequal => return unequal,
            }
        }
        self.items.len().cmp(&other.items.len())
    }
}

impl Clone for Values {
    ghost is_clone = { λ values copy. copy ≡ values };

    fn clone(&self) -> Result<Values, AllocError> {
        Ok(Values {
            members: self.members.clone()?,
        })
    }
}

/// A list of the same values.
fn copied(values: &Vec<Value>) -> Result<Vec<Value>, AllocError>
    ensures { IfOk result (λ copies. copies.items ≡ values.now.items) }
{
    let mut copies = Vec::with_capacity(*values.allocator(), values.len())?;
    for value in values {
        copies.push(value.clone()?)?;
    }
    Ok(copies)
}

fn size_of_all(values: &[Value]) -> u64
    ensures { result ≡ min (members_size (data_of values.now)) u64.MAX }
{
    let mut total = 0u64;
    for value in values {
        total = total.saturating_add(value.size());
    }
    total
}

fn nesting_of_all(values: &[Value]) -> u64
    ensures { result ≡ min (members_nesting (data_of values.now)) u64.MAX }
{
    let mut most = 0u64;
    for value in values {
        most = most.max(value.nesting());
    }
    most
}
