//! Pools of the ring's two leases, with two passes and with one.
ghost use Rattle.std.specs.Prelude.{◌≡◌, ◌<◌, All, IfOk, Some, length, map};
ghost use Rattle.pools.specs.Passes.{IsOf, holding};
ghost use Rattle.pools.specs.Places.{AreAlike, AreOnce, times};
ghost use Rattle.exchange.specs.Start.{number_of, setup_of};

use crate::exchanges::steps::setup;
use exchange::laws::pooled_leases_law;
use exchange::{Exchange, Lease};
use fixtures::memory::{Held, Refused, exhaust, refuse, room, serve};
use pools::{Pass, Pool};
use std::alloc::{AllocGlobal, Global};
use std::process::Abort;
use std::sync::{Arc, Wait};
use task_seed::{Setup, TableTurns};
use terms::Refusal;

// The two leases of the ring.
fn two_leases(rt: &(impl Abort + AllocGlobal)) -> Vec<Lease<TableTurns>>
    ensures once { AreOnce (map number_of result.items) }
    ensures alike { AreAlike setup_of result.items }
{
    pooled_leases_law::<TableTurns>();
    let setup = Arc::new(rt.alloc(), setup(rt, 1000)).expect(rt, "memory for a setup");
    let (exchange, leases) = Exchange::new(rt.alloc(), setup).expect(rt, "an exchange");
    drop(exchange);
    leases
}

// Takes a lease that has to be there.
fn take<R: Wait + Abort>(
    rt: &R,
    pool: &Pool<Lease<TableTurns>, Setup<TableTurns>>,
    pass: &mut Pass<Lease<TableTurns>, Setup<TableTurns>>,
) -> Lease<TableTurns>
    requires { IsOf pool.now pass.old }
    ensures pass { IsOf pool.now pass.new }
    ensures held { 0 < times (number_of result) (holding pass.new).held }
    ensures kind { (holding pass.new).kind ≡ Some (setup_of result) }
{
    let Some(lease) = pool.take(rt, pass) else {
        panic!(rt; "no lease")
    };
    lease
}

// Both passes take a lease, there is no third, and both give theirs back.
fn take_both<R: Wait + Abort>(
    rt: &R,
    pool: &Pool<Lease<TableTurns>, Setup<TableTurns>>,
    one: &mut Pass<Lease<TableTurns>, Setup<TableTurns>>,
    two: &mut Pass<Lease<TableTurns>, Setup<TableTurns>>,
)
    requires { IsOf pool.now one.old × IsOf pool.now two.old }
    ensures { IsOf pool.now one.new × IsOf pool.now two.new }
{
    let first = take(rt, pool, one);
    let second = take(rt, pool, two);
    let numbers = (first.number(), second.number());
    assert!(rt; numbers == (0, 1) || numbers == (1, 0));
    let None = pool.take(rt, one) else {
        panic!(rt; "a third lease")
    };
    pool.give_back(rt, one, first);
    pool.give_back(rt, two, second);
}

// A pool of both with two passes, which isn't made where its memory is refused.
fn pool_of_two<R: Wait + Abort + AllocGlobal>(
    rt: &R,
    held: &mut Held,
) -> (
    Pool<Lease<TableTurns>, Setup<TableTurns>>,
    Vec<Pass<Lease<TableTurns>, Setup<TableTurns>>>,
)
    ensures count { length result.1.items ≡ 2 }
    ensures passes { All (λ pass. IsOf result.0 pass) result.1.items }
{
    let first = two_leases(rt);
    let how = refuse(rt.alloc(), held);
    let made = Pool::new(rt, rt.alloc(), first, 2);
    serve(rt.alloc(), held);
    match made {
        Ok(both) => {
            assert!(rt; how == Refused::One);
            both
        }
        Err(refused) => {
            assert!(rt; how != Refused::None && refused.number() == 1);
            let again = two_leases(rt);
            Pool::new(rt, rt.alloc(), again, 2).expect(rt, "memory for a pool")
        }
    }
}

#[test]
fn each_lease_is_in_one_place(rt: HostRuntime) {
    let mut held = room(rt.alloc()).expect(&rt, "room for blocks");
    let (pool, mut passes) = pool_of_two(&rt, &mut held);
    let (Some(mut one), Some(mut two)) = (passes.pop(), passes.pop()) else {
        panic!(rt; "two passes are wanted")
    };
    assert!(rt; exhaust(rt.alloc(), &mut held));
    take_both(&rt, &pool, &mut one, &mut two);
    take_both(&rt, &pool, &mut one, &mut two);
    drop(held);
    drop(passes);
    drop(one);
    drop(two);
    drop(pool);
}

// A pass takes a lease, which runs ahead, and gives it back.
fn run_one<R: Wait + Abort>(
    rt: &R,
    alloc: Global,
    pool: &Pool<Lease<TableTurns>, Setup<TableTurns>>,
    pass: &mut Pass<Lease<TableTurns>, Setup<TableTurns>>,
) -> (u16, u32)
    requires { IsOf pool.now pass.old }
    ensures { IsOf pool.now pass.new }
{
    let Some(mut lease) = pool.take(rt, pass) else {
        panic!(rt; "no lease")
    };
    let number = lease.number();
    let done = lease.run_ahead(alloc, 9).expect(rt, "memory for entries");
    pool.give_back(rt, pass, lease);
    (number, done)
}

#[test]
fn leases_wait_in_a_pool(rt: HostRuntime) {
    let made = Pool::new(&rt, rt.alloc(), two_leases(&rt), 1);
    let (pool, mut passes) = made.expect(&rt, "memory for a pool");
    let Some(mut pass) = passes.pop() else {
        panic!(rt; "a pass is wanted")
    };
    // The first lease, the second, and the first again, which has nothing left.
    let first = run_one(&rt, rt.alloc(), &pool, &mut pass);
    let second = run_one(&rt, rt.alloc(), &pool, &mut pass);
    let third = run_one(&rt, rt.alloc(), &pool, &mut pass);
    assert!(rt; first == (0, 2) && second == (1, 2) && third == (0, 0));
    drop(passes);
    drop(pass);
    drop(pool);
}
