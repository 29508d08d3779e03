//! Whole numbers of 64 bits.
ghost use Rattle.std.specs.Prelude.{◌≡◌, ℤ, pos, ◌+ℤ◌, ◌-ℤ◌, ◌*ℤ◌, neg_ℤ};
ghost use Rattle.terms.specs.Shapes.{whole, rest, nearest};

#[tactic(auto, using(std::proofs::lemmas::Int::wraps))]
pub(crate) fn sum(a: i64, b: i64) -> i64
    ensures { result ≡ whole (a +ℤ b) }
{
    a.wrapping_add(b)
}

#[tactic(auto, using(std::proofs::lemmas::Int::wraps))]
pub(crate) fn difference(a: i64, b: i64) -> i64
    ensures { result ≡ whole (a -ℤ b) }
{
    a.wrapping_sub(b)
}

#[tactic(auto, using(std::proofs::lemmas::Int::wraps))]
pub(crate) fn product(a: i64, b: i64) -> i64
    ensures { result ≡ whole (a *ℤ b) }
{
    a.wrapping_mul(b)
}

#[tactic(auto, using(std::proofs::lemmas::Int::wraps))]
pub(crate) fn negative(a: i64) -> i64
    ensures { result ≡ whole (neg_ℤ a) }
{
    a.wrapping_neg()
}

/// What is left of a modulo k.
pub(crate) fn modulo(a: i64, k: i64) -> i64
    ensures { result ≡ rest a k }
{
    if k > 0 { a.rem_euclid(k) } else { 0 }
}

/// The nearest number from low to high.
pub(crate) fn clamped(a: i64, low: i64, high: i64) -> i64
    ensures { result ≡ nearest low high a }
{
    if a < low {
        low
    } else if high < a {
        high
    } else {
        a
    }
}
