//! What terms are evaluated in: a state, and the values of formals, parameters and loop variables.
ghost use Rattle.std.specs.Prelude.{◌≡◌, OnOk, OnErr, List, slice_get, slice_set, option_copied};
ghost use Rattle.terms.specs.Datum.{Datum, Just};
ghost use Rattle.terms.specs.Meaning.{slot};
ghost use Rattle.terms.specs.Shapes.{set_item};

use crate::refusal::NoMemory;
use crate::scalar::Scalar;
use crate::value::Value;

/// A state: a cell for each variable of an automaton, numbered from 0 in the order of their declaration.
pub trait Cells {
    /// The values of the cells, in order.
    ghost values: { Self → List Datum };

    /// The states to which it can go back, which no write changes.
    ghost marked: { Self → List (List Datum) };

    /// The value in a cell; `None` where there is no such cell.
    fn get(&self, cell: usize) -> Option<&Value>
        ensures { option_copied result ≡ slice_get (values self.now) cell };

    /// Puts a value into a cell; nothing changes where there is no such cell. A refused call changes nothing.
    fn set(&mut self, cell: usize, value: Value) -> Result<(), NoMemory>
        ensures ok { OnOk result (values self.new ≡ slice_set (values self.old) cell value) }
        ensures err { OnErr result (values self.new ≡ values self.old) }
        ensures marked { marked self.new ≡ marked self.old };

    /// Puts a scalar into a cell, as [`set`](Cells::set) puts a value.
    fn set_scalar(&mut self, cell: usize, scalar: Scalar) -> Result<(), NoMemory>
        ensures ok { OnOk result (values self.new
            ≡ slice_set (values self.old) cell (Just scalar)) }
        ensures err { OnErr result (values self.new ≡ values self.old) }
        ensures marked { marked self.new ≡ marked self.old };

    /// Puts a value in the place of one item of the array or sequence in a cell, its items counted from 0; nothing changes
    /// where there is no such item. A refused call changes nothing.
    fn set_at(&mut self, cell: usize, index: usize, value: Value) -> Result<(), NoMemory>
        ensures ok { OnOk result (values self.new ≡ set_item cell index value (values self.old)) }
        ensures err { OnErr result (values self.new ≡ values self.old) }
        ensures marked { marked self.new ≡ marked self.old };
}

/// The values of formals, parameters and loop variables, each list numbered from 0.
#[derive(Clone, Copy)]
pub struct Env<'a> {
    /// What the formals of the automaton are for this component.
    pub formals: &'a [Scalar],
    /// The parameters of the action of the transition.
    pub parameters: &'a [Scalar],
    /// The loop variables, the outermost first; `for` stands at most 3 deep.
    pub loops: [Scalar; 3],
}

/// The scalar in a slot, counted from 0; the whole number 0 where there is no such slot.
#[inline(always)]
pub fn slot_of(slots: &[Scalar], n: usize) -> Scalar
    ensures { result ≡ slot slots.now n }
{
    match slots.get(n) {
        Some(scalar) => *scalar,
        None => Scalar::Int(0),
    }
}
