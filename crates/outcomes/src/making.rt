//! The action of a tuple, made once and where it stays.
ghost use Rattle.std.specs.Prelude.{◌≡◌, ◌<◌, ◌∷◌, [], IfOk, OnOk, OnErr, Some};
ghost use Rattle.io_automata.specs.Tuples.{many, tuple_at, picked};

use crate::choose::put;
use crate::tuples::{choices, put_tuple};
use evaluation::parts;
use io_automata::{Entry, Param};
use smallvec::SmallVec;
use std::alloc::Global;
use terms::cells::slot_of;
use terms::{Action, NoMemory, Scalar};

/// Puts there the action of the tuple at a place among the `count` ones of an entry. It stays a call, so that idle turns need no
/// room for what it makes.
#[inline(never)]
pub(crate) fn put_action_at(
    alloc: Global,
    entry: &Entry,
    formals: &[Scalar],
    count: usize,
    at: usize,
    found: &mut Option<Action>,
) -> Result<(), NoMemory>
    requires count { count ≡ many entry.now.params.items }
    requires below { at < count }
    ensures ok { OnOk result (found.new ≡ Some (record {
      name = entry.now.name;
      args = tuple_at formals.now entry.now.params.items at;
    })) }
    ensures err { OnErr result (found.new ≡ found.old) }
{
    let name = entry.name;
    let args = match entry.params.as_slice() {
        [only] => one_at(alloc, formals, only, at),
        [first, second] => two_at(alloc, formals, first, second, at),
        params => many_at(alloc, formals, params, count, at)?,
    };
    put(found, Some(Action { name, args }));
    Ok(())
}

#[inline(always)]
fn one_at(alloc: Global, formals: &[Scalar], only: &Param, at: usize) -> SmallVec<Scalar, 2>
    requires below { at < many (only.now ∷ []) }
    ensures { result.items ≡ tuple_at formals.now (only.now ∷ []) at }
{
    let mut args = SmallVec::new(alloc);
    args.push_reserved(picked(formals, only, at));
    args
}

#[inline(always)]
fn two_at(
    alloc: Global,
    formals: &[Scalar],
    first: &Param,
    second: &Param,
    at: usize,
) -> SmallVec<Scalar, 2>
    requires below { at < many (first.now ∷ second.now ∷ []) }
    ensures { result.items ≡ tuple_at formals.now (first.now ∷ second.now ∷ []) at }
{
    if let Param::Const(n) = first {
        return SmallVec::from_buf(alloc, [slot_of(formals, *n), picked(formals, second, at)]);
    }
    let rest = usize::from(choices(second));
    SmallVec::from_buf(
        alloc,
        [
            picked(formals, first, at / rest),
            picked(formals, second, at % rest),
        ],
    )
}

// The value of a parameter at a place.
#[inline(always)]
pub(crate) fn picked(formals: &[Scalar], param: &Param, at: usize) -> Scalar
    requires { at < many (param.now ∷ []) }
    ensures { result ≡ picked formals.now param.now at }
{
    match param {
        Param::Const(n) => slot_of(formals, *n),
        Param::Member(listed) => {
            let _many = parts::count_of(*listed);
            parts::member_at(*listed, at as u16)
        }
        Param::Between(_, _) => Scalar::Int(0),
        Param::Whole => Scalar::Int(0),
    }
}

// Any number of arguments.
#[cold]
#[inline(never)]
fn many_at(
    alloc: Global,
    formals: &[Scalar],
    params: &[Param],
    count: usize,
    at: usize,
) -> Result<SmallVec<Scalar, 2>, NoMemory>
    requires count { count ≡ many params.now }
    requires below { at < count }
    ensures { IfOk result (λ args. args.items ≡ tuple_at formals.now params.now at) }
{
    let mut args = vec![in alloc; Scalar::Int(0); params.len()]?;
    put_tuple(formals, params, count, at, args.as_mut_slice(), 0);
    Ok(SmallVec::from_vec(args))
}
