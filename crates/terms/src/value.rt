//! Values.
ghost use Rattle.std.specs.Prelude.{◌≡◌, false, if◌then◌else◌, IfOk, IfSome, IfNone, slice_get, slice_set};
ghost use lib.Pointwise.{pointwise};
ghost use Rattle.std.specs.Cmp.{partial_equiv_from_equiv};
ghost use Rattle.terms.specs.Datum.{Just, pack, items_of, scalar_of, is_number, is_truth};
ghost use Rattle.terms.specs.Same.{same, same_laws};
ghost use Rattle.terms.specs.Shapes.{with_item};

use crate::reading::{as_number, as_truth};
use crate::refusal::NoMemory;
use crate::scalar::Scalar;
use std::alloc::Global;
use std::marker::Model;
use std::mem;

/// A value of any type: a scalar, or the items of a sequence or an array, in order. Two values of one type are equal
/// where they have the same scalars in the same places.
#[cycle(value)]
#[derive(Drop)]
pub struct Value {
    node: Node,
}

#[cycle(value)]
#[derive(Drop)]
enum Node {
    Scalar(Scalar),
    Items(Vec<Value>),
}

impl Model for Value {
    ghost use Rattle.terms.specs.Datum.{Datum, links, datum_code};

    ghost Value = { Datum };

    ghost coded = { datum_code };

    ghost use Rattle.terms.specs.Nodes.{datum};

    ghost view = { λ v. datum v.node };

    ghost size = { links };

    ghost use Rattle.terms.specs.NodesFall.{size_falls};

    ghost size_decreases = { λ v h. size_falls v.node };
}

impl PartialEq for Value {
    ghost eq = { same };

    ghost laws = { partial_equiv_from_equiv same_laws };

    fn eq(&self, other: &Value) -> bool {
        is_same(self, other)
    }
}

impl Eq for Value {
    ghost laws = { same_laws };
}

#[tactic(auto, using(crate::specs::Datum::packs, crate::specs::Turns::items))]
impl Value {
    /// The value that is this scalar.
    pub fn of_scalar(scalar: Scalar) -> Value
        ensures { result ≡ Just scalar }
    {
        Value {
            node: Node::Scalar(scalar),
        }
    }

    /// The sequence or array of these items.
    pub fn of_items(items: Vec<Value>) -> Value
        ensures { result ≡ pack items.items }
    {
        Value {
            node: Node::Items(items),
        }
    }

    /// The scalar that it is; the whole number 0 where it is a sequence or an array.
    pub fn scalar(&self) -> Scalar
        ensures { result ≡ scalar_of self.now }
    {
        match &self.node {
            Node::Scalar(scalar) => *scalar,
            Node::Items(_) => Scalar::Int(0),
        }
    }

    /// The scalar that it is; `None` where it is a sequence or an array.
    pub fn as_scalar(&self) -> Option<Scalar>
        ensures some { IfSome result (λ scalar. self.now ≡ Just scalar) }
        ensures none { IfNone result (self.now ≡ pack (items_of self.now)) }
    {
        match &self.node {
            Node::Scalar(scalar) => Some(*scalar),
            Node::Items(_) => None,
        }
    }

    /// The whole number that it is; `None` where it is none.
    #[inline(always)]
    pub fn as_number(&self) -> Option<i64>
        ensures some { IfSome result (λ n. self.now ≡ Just (Scalar.Int n)) }
        ensures none { IfNone result (is_number self.now ≡ false) }
    {
        match &self.node {
            Node::Scalar(scalar) => as_number(*scalar),
            Node::Items(_) => None,
        }
    }

    /// The truth value that it is; `None` where it is none.
    #[inline(always)]
    pub fn as_truth(&self) -> Option<bool>
        ensures some { IfSome result (λ t. self.now ≡ Just (Scalar.Bool t)) }
        ensures none { IfNone result (is_truth self.now ≡ false) }
    {
        match &self.node {
            Node::Scalar(scalar) => as_truth(*scalar),
            Node::Items(_) => None,
        }
    }

    /// Makes it this scalar.
    pub fn put_scalar(&mut self, scalar: Scalar)
        ensures { self.new ≡ Just scalar }
    {
        match &mut self.node {
            Node::Scalar(old) => {
                *old = scalar;
                return;
            }
            Node::Items(_) => {}
        }
        self.node = Node::Scalar(scalar);
    }

    /// The items of a sequence or an array; none where it is a scalar.
    pub fn items(&self) -> &[Value]
        ensures { result.now ≡ items_of self.now }
    {
        match &self.node {
            Node::Scalar(_) => &[],
            Node::Items(items) => items.as_slice(),
        }
    }

    /// Whether it is a sequence or an array, and not a scalar.
    pub fn is_list(&self) -> bool
        ensures { self.now ≡ (if result then pack (items_of self.now) else Just
            (scalar_of self.now)) }
    {
        match &self.node {
            Node::Scalar(_) => false,
            Node::Items(_) => true,
        }
    }

    /// Puts an item in the place of the one at `at`, counted from 0; nothing changes where there is none.
    pub fn put_item(&mut self, at: usize, item: Value)
        ensures { self.new ≡ with_item at item self.old }
    {
        match &mut self.node {
            Node::Scalar(_) => return,
            Node::Items(items) => {
                put_at(items, at, item);
                return;
            }
        }
    }

    /// Puts an item in the place of the one at `at` and gives that one; nothing changes where there is none.
    pub fn replace_item(&mut self, at: usize, item: Value) -> Option<Value>
        ensures new { self.new ≡ with_item at item self.old }
        ensures old { result ≡ slice_get (items_of self.old) at }
    {
        match &mut self.node {
            Node::Scalar(_) => None,
            Node::Items(items) => replace_at(items, at, item),
        }
    }

    /// The items, without copying them; none where it is a scalar.
    pub fn into_items(self, alloc: Global) -> Vec<Value>
        ensures { result.items ≡ items_of self }
    {
        match self.node {
            Node::Scalar(_) => Vec::new(alloc),
            Node::Items(items) => items,
        }
    }
}

fn replace_at(items: &mut Vec<Value>, at: usize, item: Value) -> Option<Value>
    ensures new { items.new.items ≡ slice_set items.old.items at item }
    ensures old { result ≡ slice_get items.old.items at }
{
    if at < items.len() {
        return Some(mem::replace(&mut items[at], item));
    }
    None
}

fn put_at(items: &mut Vec<Value>, at: usize, item: Value)
    ensures { items.new.items ≡ slice_set items.old.items at item }
{
    if at < items.len() {
        items[at] = item;
    }
}

#[cycle(same)]
#[tactic(auto, using(crate::specs::Same::sames))]
fn is_same(a: &Value, b: &Value) -> bool
    ensures { result ≡ same a.now b.now }
{
    match (&a.node, &b.node) {
        (Node::Scalar(first), Node::Scalar(second)) => first == second,
        (Node::Items(first), Node::Items(second)) => are_same(first.as_slice(), second.as_slice()),
        (Node::Items(first), Node::Scalar(_)) => false,
        (Node::Scalar(_), Node::Items(_)) => false,
    }
}

#[cycle(same)]
fn are_same(a: &[Value], b: &[Value]) -> bool
    ensures { result ≡ pointwise same a.now b.now }
{
    let (mut xs, mut ys) = (a, b);
    while let (Some((x, others)), Some((y, rest))) = (xs.split_first(), ys.split_first()) {
        if !is_same(x, y) {
            return false;
        }
        xs = others;
        ys = rest;
    }
    xs.is_empty() && ys.is_empty()
}

/// A value of one's own that is the same.
#[cycle(copy)]
#[tactic(auto, using(crate::specs::Datum::packs))]
pub fn copy(alloc: Global, value: &Value) -> Result<Value, NoMemory>
    ensures { IfOk result (λ v. v ≡ value.now) }
{
    match &value.node {
        Node::Scalar(scalar) => Ok(Value::of_scalar(*scalar)),
        Node::Items(items) => Ok(Value::of_items(copy_all(alloc, items.as_slice())?)),
    }
}

/// Values of one's own that are the same, in order.
#[cycle(copy)]
pub fn copy_all(alloc: Global, values: &[Value]) -> Result<Vec<Value>, NoMemory>
    ensures { IfOk result (λ v. v.items ≡ values.now) }
{
    let mut copies = Vec::with_capacity(alloc, values.len())?;
    for value in values {
        copies.push(copy(alloc, value)?)?;
    }
    Ok(copies)
}
