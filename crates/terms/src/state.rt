//! A state as a plain list of values.
ghost use Rattle.std.specs.Prelude.{◌≡◌, [], IsOk, slice_set};
ghost use Rattle.terms.specs.Datum.{Just};
ghost use Rattle.terms.specs.Shapes.{set_item};

use crate::cells::Cells;
use crate::refusal::NoMemory;
use crate::scalar::Scalar;
use crate::value::Value;
use std::marker::Model;

/// A state as a plain list of values. Its `set`, `set_scalar` and `set_at` take no memory and are never refused.
#[derive(Drop)]
pub struct State {
    values: Vec<Value>,
}

impl Model for State {
    ghost use Rattle.std.specs.Prelude.{List};
    ghost use Rattle.std.specs.Coded.{coded_list};
    ghost use Rattle.terms.specs.Datum.{Datum, datum_code};

    ghost Value = { List Datum };

    ghost coded = { coded_list datum_code };

    ghost view = { λ s. s.values.items };
}

impl State {
    /// The state whose cells have these values, in order.
    pub fn new(values: Vec<Value>) -> State
        ensures { result ≡ values.items }
    {
        State { values }
    }

    /// Its values, in order.
    pub fn into_values(self) -> Vec<Value>
        ensures { result.items ≡ self }
    {
        self.values
    }
}

#[tactic(auto, using(crate::specs::Turns::items))]
impl Cells for State {
    ghost values = { λ s. s };

    ghost marked = { λ _. [] };

    fn get(&self, cell: usize) -> Option<&Value> {
        self.values.get(cell)
    }

    fn set(&mut self, cell: usize, value: Value) -> Result<(), NoMemory>
        ensures done { IsOk result }
        ensures value { self.new ≡ slice_set self.old cell value }
    {
        if cell < self.values.len() {
            self.values[cell] = value;
        }
        Ok(())
    }

    fn set_scalar(&mut self, cell: usize, scalar: Scalar) -> Result<(), NoMemory>
        ensures done { IsOk result }
        ensures value { self.new ≡ slice_set self.old cell (Just scalar) }
    {
        if cell < self.values.len() {
            self.values[cell].put_scalar(scalar);
        }
        Ok(())
    }

    fn set_at(&mut self, cell: usize, index: usize, value: Value) -> Result<(), NoMemory>
        ensures done { IsOk result }
        ensures value { self.new ≡ set_item cell index value self.old }
    {
        if cell < self.values.len() {
            self.values[cell].put_item(index, value);
        }
        Ok(())
    }
}
