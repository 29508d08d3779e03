//! Where to look for the receivers of an action.
ghost use Rattle.std.specs.Prelude.{◌≡◌, ℕ, Bool as Truth, IfOk, IfSome, List, Contains, length};
ghost use Rattle.std.specs.List.Sorted.{IsStrictlyIncreasing};
ghost use Rattle.patterns.specs.Patterns.{fixed_as, shown, masked, fixed_number, mixed, pattern_number, place_of, list_at, masks_in, IsListed, AreRising};

pub mod notes;

use std::alloc::Global;
use std::marker::Model;
use terms::{Action, NoMemory, Scalar};

/// What a pattern asks of an argument: nothing, or one value.
#[derive(Clone, Copy)]
pub enum Fixed {
    Free,
    Int(i64),
    Bool(bool),
    Member(u16),
}

/// For each name of an action the masks of its input entries (which parameters are formals), each once. And lists of numbers,
/// as many as a power of two: a component that has an input entry stands in the list at the place of its pattern, the entry's
/// name with the values of those of its parameters that are formals. Several patterns may have one place.
#[derive(Drop)]
pub struct Index {
    masks: Vec<Vec<Vec<bool>>>,
    numbers: Vec<Vec<u16>>,
}

impl Model for Index {
    ghost use Rattle.std.specs.Coded.{codes};
    ghost use Rattle.patterns.specs.Patterns.{Kept};

    ghost Value = { Kept };

    ghost coded = { Prim.hlevel codes };

    ghost view = { λ i. record { masks = i.masks.items; numbers = i.numbers.items } };
}

impl Index {
    /// The numbers that stand at the places of an action's patterns, in order and each once.
    pub fn candidates(&self, alloc: Global, action: &Action) -> Result<Vec<u16>, NoMemory>
        ensures rise { IfOk result (λ found. IsStrictlyIncreasing found.items) }
        ensures all { IfOk result (λ found. (mask : List Truth) (j : ℕ)
            → Contains (masks_in self.now.masks action.now.name) mask
            → IsListed self.now.numbers action.now.name (masked mask action.now.args) j
            → Contains found.items j) }
    {
        let mut found = self.listed(alloc, action)?;
        found.sort_unstable();
        found.dedup();
        Ok(found)
    }

    /// The same, lent, where the name has one mask.
    pub fn lent(&self, action: &Action) -> Option<&[u16]>
        ensures rise { IfSome result
            (λ found. AreRising self.now.numbers → IsStrictlyIncreasing found.now) }
        ensures all { IfSome result
            (λ found. (mask : List Truth) (j : ℕ) → Contains
            (masks_in self.now.masks action.now.name) mask
            → IsListed self.now.numbers action.now.name (masked mask action.now.args) j
            → Contains found.now j) }
    {
        match masks_at(self.masks.as_slice(), action.name) {
            [mask] => {
                let numbers = numbers_at(
                    self.numbers.as_slice(),
                    action.name,
                    mask.as_slice(),
                    action.args.as_slice(),
                );
                Some(numbers)
            }
            _ => None,
        }
    }

    fn listed(&self, alloc: Global, action: &Action) -> Result<Vec<u16>, NoMemory>
        ensures { IfOk result (λ found. (mask : List Truth) (j : ℕ)
            → Contains (masks_in self.now.masks action.now.name) mask
            → IsListed self.now.numbers action.now.name (masked mask action.now.args) j
            → Contains found.items j) }
    {
        let mut found = Vec::new(alloc);
        for mask in masks_at(self.masks.as_slice(), action.name) {
            let numbers = numbers_at(
                self.numbers.as_slice(),
                action.name,
                mask.as_slice(),
                action.args.as_slice(),
            );
            found.extend_from_slice(numbers)?;
        }
        Ok(found)
    }
}

fn masks_at(masks: &[Vec<Vec<bool>>], name: u16) -> &[Vec<bool>]
    ensures { result.now ≡ list_at masks.now name }
{
    match masks.get(name as usize) {
        Some(masks) => masks.as_slice(),
        None => &[],
    }
}

// What stands at the place of an action's pattern by a mask.
#[inline(always)]
fn numbers_at<'a>(numbers: &'a [Vec<u16>], name: u16, mask: &[bool], args: &[Scalar]) -> &'a [u16]
    ensures { result.now ≡ list_at numbers.now
        (place_of name (masked mask.now args.now) (length numbers.now)) }
{
    let place = number_of(name, mask, args) & numbers.len().saturating_sub(1);
    match numbers.get(place) {
        Some(numbers) => numbers.as_slice(),
        None => &[],
    }
}

#[inline(always)]
fn number_of(name: u16, mask: &[bool], args: &[Scalar]) -> usize
    ensures { result ≡ pattern_number name (masked mask.now args.now) }
{
    let mut number = name as usize;
    for k in 0..mask.len() {
        if k >= args.len() {
            return number;
        }
        number = mixed(number, shown(mask[k], args[k]));
    }
    number
}

// Multiplied by 2^64 over the golden ratio (Fibonacci hashing: Knuth, The Art of Computer Programming, volume 3, section 6.4),
// and the upper half added to the lower, so that values that differ by a power of two don't share a place.
#[inline(always)]
fn mixed(number: usize, value: Fixed) -> usize
    ensures { result ≡ mixed number value }
{
    let spread = number
        .wrapping_add(fixed_number(value))
        .wrapping_mul(11_400_714_819_323_198_485);
    spread.wrapping_add(spread / 4_294_967_296)
}

#[inline(always)]
fn fixed_number(value: Fixed) -> usize
    ensures { result ≡ fixed_number value }
{
    match value {
        Fixed::Free => 0,
        Fixed::Int(number) => number.unsigned_abs() as usize,
        Fixed::Bool(truth) => truth as usize,
        Fixed::Member(member) => member as usize,
    }
}

#[inline(always)]
fn shown(flag: bool, value: Scalar) -> Fixed
    ensures { result ≡ shown flag value }
{
    if flag { fixed_as(value) } else { Fixed::Free }
}

fn fixed_as(value: Scalar) -> Fixed
    ensures { result ≡ fixed_as value }
{
    match value {
        Scalar::Int(number) => Fixed::Int(number),
        Scalar::Bool(truth) => Fixed::Bool(truth),
        Scalar::Member(member) => Fixed::Member(member),
    }
}
