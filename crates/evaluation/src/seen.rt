//! Values that are lent or owned, and what scalars are read as.
ghost use Rattle.std.specs.Prelude.{◌≡◌, IfOk, IfSome, get_or, drop, pos, length};
ghost use Rattle.terms.specs.Datum.{Just, pack, items_of, scalar_of};
ghost use Rattle.terms.specs.Shapes.{number_of, truth_of};
ghost use Rattle.terms.specs.Meaning.{number, truth};
ghost use Rattle.evaluation.specs.Seen.{seen};

use std::alloc::Global;
use terms::reading::{number_in, truth_in};
use terms::{NoMemory, Scalar, Value, value};

/// A value that stands in a state, or one of its own.
#[derive(Drop)]
pub(crate) enum Seen<'a> {
    Lent(&'a Value),
    Own(Value),
}

impl<'a> Seen<'a> {
    pub(crate) fn of_scalar(scalar: Scalar) -> Seen<'a>
        ensures { seen result ≡ Just scalar }
    {
        Seen::Own(Value::of_scalar(scalar))
    }

    pub(crate) fn of_items(items: Vec<Value>) -> Seen<'a>
        ensures { seen result ≡ pack items.items }
    {
        Seen::Own(Value::of_items(items))
    }

    pub(crate) fn value(&self) -> &Value
        ensures { result.now ≡ seen self.now }
    {
        match self {
            Seen::Lent(value) => value,
            Seen::Own(value) => value,
        }
    }

    pub(crate) fn truth(&self) -> bool
        ensures { result ≡ truth (seen self.now) }
    {
        truth_in(self.value().scalar())
    }

    /// The length, which is below 2^63, as each item takes memory.
    pub(crate) fn length(&self) -> i64
        ensures { result ≡ pos (length (items_of (seen self.now))) }
    {
        self.value().items().len() as i64
    }

    pub(crate) fn into_scalar(self) -> Scalar
        ensures { result ≡ scalar_of (seen self.entry) }
    {
        let scalar = self.value().scalar();
        drop(self);
        scalar
    }

    pub(crate) fn into_number(self) -> i64
        ensures { result ≡ number (seen self.entry) }
    {
        number_in(self.into_scalar())
    }

    pub(crate) fn into_value(self, alloc: Global) -> Result<Value, NoMemory>
        ensures { IfOk result (λ v. v ≡ seen self.entry) }
    {
        match self {
            Seen::Lent(value) => value::copy(alloc, value),
            Seen::Own(value) => Ok(value),
        }
    }
}
