//! Scalars, and the types of values.
ghost use Rattle.std.specs.Prelude.{◌≡◌};

/// A value of a scalar type. The members of all enumerations of a source are numbered from 0 in the order of their
/// declaration, so a member belongs to one enumeration alone and is compared by that order.
#[derive(Clone, Copy, PartialEq, Eq, PartialOrd, Ord)]
pub enum Scalar {
    /// A whole number of 64 bits with a sign.
    Int(i64),
    Bool(bool),
    /// The number of a member of an enumeration.
    Member(u16),
}

impl Default for Scalar {
    ghost use Rattle.std.specs.Prelude.{pos};
    ghost use Rattle.terms.specs.declared.scalar.Scalar.TheVariants.{Int};

    ghost is_default = { λ scalar. scalar ≡ Int (pos 0) };

    fn default() -> Scalar {
        Scalar::Int(0)
    }
}

/// A type whose members can be listed: `false` and `true`, `count` whole numbers from `low` upwards, or `count` members
/// of one enumeration from the member `first` on. A listed type has 1 to 65,535 members.
#[derive(Clone, Copy, PartialEq, Eq)]
pub enum Listed {
    Bool,
    Range { low: i64, count: u16 },
    Enumeration { first: u16, count: u16 },
}

/// A type, its names resolved.
#[derive(PartialEq, Eq, Drop)]
pub enum Shape {
    /// Whole numbers of 64 bits with a sign.
    Int,
    /// The whole numbers from the first to the second, where they are too many to be listed.
    Range(i64, i64),
    Listed(Listed),
    /// Sequences of so many items at most (1 to 65,535).
    Seq(Box<Shape>, u32),
    /// An item for each member of a type.
    Array(Listed, Box<Shape>),
}
