//! The tuples of arguments that the parameters of an entry stand for.
ghost use Rattle.std.specs.Prelude.{◌≡◌, ◌+◌, ◌<◌, ◌++◌, ◌*◌, IfOk, length, take};
ghost use Rattle.io_automata.specs.Tuples.{many, choices, tuple_at};

use evaluation::parts;
use io_automata::Param;
use terms::cells::slot_of;
use terms::{NoMemory, Scalar};

/// How many tuples there are; an accepted source has at most 4,096.
///
/// # Errors
///
/// `NoMemory` where a `usize` cannot hold their number.
pub(crate) fn count_all(params: &[Param]) -> Result<usize, NoMemory>
    ensures { IfOk result (λ count. count ≡ many params.now) }
{
    let mut count: usize = 1;
    for param in params {
        count = times(choices(param), count)?;
    }
    Ok(count)
}

// How many values a parameter ranges over; none where they aren't listed.
#[inline(always)]
pub(crate) fn choices(param: &Param) -> u16
    ensures { result ≡ choices param.now }
{
    match param {
        Param::Const(_) => 1,
        Param::Member(listed) => parts::count_of(*listed),
        Param::Between(_, _) => 0,
        Param::Whole => 0,
    }
}

fn times(count: u16, rest: usize) -> Result<usize, NoMemory>
    ensures { IfOk result (λ product. product ≡ count * rest) }
{
    match usize::from(count).checked_mul(rest) {
        Some(product) => Ok(product),
        None => Err(NoMemory),
    }
}

/// Puts the tuple at a place among `count` into `args`, from `first` on.
pub(crate) fn put_tuple(
    formals: &[Scalar],
    params: &[Param],
    count: usize,
    at: usize,
    args: &mut [Scalar],
    first: usize,
)
    requires count { count ≡ many params.now }
    requires below { at < count }
    requires room { first + length params.now ≡ length args.old }
    ensures { args.new ≡ take first args.old ++ tuple_at formals.now params.now at }
{
    if let Some((param, params)) = params.split_first() {
        match param {
            Param::Const(n) => {
                args[first] = slot_of(formals, *n);
                put_tuple(formals, params, count, at, args, first + 1);
            }
            Param::Member(listed) => {
                let rest = count / usize::from(parts::count_of(*listed));
                args[first] = parts::member_at(*listed, (at / rest) as u16);
                put_tuple(formals, params, rest, at % rest, args, first + 1);
            }
            Param::Between(_, _) => {}
            Param::Whole => {}
        }
    }
}
