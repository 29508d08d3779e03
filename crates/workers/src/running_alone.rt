//! A run that has all components in one group: one thread draws turns, another takes them, and the calling thread writes them.
ghost use Rattle.std.specs.Prelude.{◌≡◌, IfErr, IfOk};
ghost use Rattle.std.specs.Arc.{arc_value};
ghost use Rattle.schedules.specs.Schedules.{HasSchedulesBelow};
ghost use Rattle.task_seed.specs.Setups.{plan_of, system};
ghost use Rattle.workers.specs.Alone.{IsDrawerOf, IsTakerOf, IsTeamOf, IsWriterOf};
ghost use Rattle.workers.specs.Runs.{WroteAll, WroteSome};

use crate::alone::{Alone, Relay, Team, Writer, start_alone};
use crate::batches::write_batches;
use crate::drawing::draw_turns;
use crate::fault::{RunFault, WorkFault};
use crate::gate::Gate;
use crate::running::Means;
use crate::taking::take_turns;
use crate::writing::Page;
use core::mem::replace_with;
use std::io::Write;
use std::sync::{Arc, Wait};
use std::thread;
use std::thread::Threads;
use steering::Stats;
use task_seed::{Setup, Turns};
use trace::Counted;

// Runs all components in one group, by at most so many turns in a row.
pub(crate) fn run_alone<'x, T: Turns, W: Write + Drop, G: Gate<T>, R: Threads + Wait + Sync>(
    means: Means<'x, G, R>,
    setup: &Arc<Setup<T>>,
    budget: u32,
    page: Page,
    out: &mut Counted<W>,
) -> Result<Stats, RunFault>
    requires known { HasSchedulesBelow (plan_of (arc_value setup.now))
        (system T.turn_of (arc_value setup.now)) }
    ensures whole { IfOk result (λ stats. WroteAll T.turn_of W.contents (arc_value setup.now)
        page.lines out.old out.new stats.turns) }
    ensures unfinished { IfErr result (WroteSome T.turn_of W.contents (arc_value setup.now)
        page.lines out.old out.new page.before) }
{
    match start_alone(means.rt, means.alloc, setup, budget) {
        Ok(all) => run_all(means, setup, all, page, out),
        Err(_refused) => Err(RunFault::NoMemory),
    }
}

// Has the threads draw and take turns while the calling thread writes.
fn run_all<'x, T: Turns, W: Write + Drop, G: Gate<T>, R: Threads + Wait + Sync>(
    means: Means<'x, G, R>,
    own: &Setup<T>,
    all: Alone<T>,
    page: Page,
    out: &mut Counted<W>,
) -> Result<Stats, RunFault>
    requires team { IsTeamOf all.relay all.team }
    requires writer { IsWriterOf all.relay own.now all.writer }
    ensures whole { IfOk result
        (λ stats. WroteAll T.turn_of W.contents own.now page.lines out.old out.new stats.turns) }
    ensures unfinished { IfErr result
        (WroteSome T.turn_of W.contents own.now page.lines out.old out.new page.before) }
{
    let Alone {
        relay,
        team,
        writer,
    } = all;
    lend_out(means, &relay, own, (team, writer), page, out)
}

// Lends the writer to the scope by value, since a scope's closure tells nothing of what is behind a `&mut`.
fn lend_out<'x, 'y, T: Turns, W: Write + Drop, G: Gate<T>, R: Threads + Wait + Sync>(
    means: Means<'x, G, R>,
    relay: &'y Relay<T>,
    own: &'y Setup<T>,
    hands: (Team<T>, Writer<T>),
    page: Page,
    out: &mut Counted<W>,
) -> Result<Stats, RunFault>
    requires team { IsTeamOf relay.now hands.0 }
    requires writer { IsWriterOf relay.now own.now hands.1 }
    ensures whole { IfOk result
        (λ stats. WroteAll T.turn_of W.contents own.now page.lines out.old out.new stats.turns) }
    ensures unfinished { IfErr result
        (WroteSome T.turn_of W.contents own.now page.lines out.old out.new page.before) }
{
    let Means { rt, alloc, gate } = means;
    let Page { lines, before } = page;
    replace_with(
        out,
        hands,
        move |lent: Counted<W>, lent_hands: (Team<T>, Writer<T>)| -> (
            Counted<W>,
            Result<Stats, RunFault>,
        )
            requires { IsTeamOf relay.now lent_hands.0
                × IsWriterOf relay.now own.now lent_hands.1 }
            ensures whole { IfOk result.1
                (λ stats. WroteAll T.turn_of W.contents own.entry.now lines lent result.0
                stats.turns) }
            ensures unfinished { IfErr result.1
                (WroteSome T.turn_of W.contents own.entry.now lines lent result.0 before) }
        {
            all_in_scope(
                Means { rt, alloc, gate },
                relay,
                own,
                lent_hands,
                Page { lines, before },
                lent,
            )
        },
    )
}

// Two threads of a scope, while this thread writes.
fn all_in_scope<'x, 'y, T: Turns, W: Write + Drop, G: Gate<T>, R: Threads + Wait + Sync>(
    means: Means<'x, G, R>,
    relay: &'y Relay<T>,
    own: &'y Setup<T>,
    hands: (Team<T>, Writer<T>),
    page: Page,
    out: Counted<W>,
) -> (Counted<W>, Result<Stats, RunFault>)
    requires team { IsTeamOf relay.now hands.0 }
    requires writer { IsWriterOf relay.now own.now hands.1 }
    ensures whole { IfOk result.1
        (λ stats. WroteAll T.turn_of W.contents own.now page.lines out result.0 stats.turns) }
    ensures unfinished { IfErr result.1
        (WroteSome T.turn_of W.contents own.now page.lines out result.0 page.before) }
{
    let Means { rt, alloc, gate } = means;
    let (team, writer) = hands;
    let Team { drawer, taker } = team;
    thread::scope(
        thread::scope_env(),
        rt,
        move |scope| -> (Counted<W>, Result<Stats, RunFault>)
            requires { IsDrawerOf relay.now drawer × IsTakerOf relay.now taker
                × IsWriterOf relay.now own.now writer }
            ensures whole { IfOk result.1
                (λ stats. WroteAll T.turn_of W.contents own.entry.now page.lines out result.0
                stats.turns) }
            ensures unfinished { IfErr result.1
                (WroteSome T.turn_of W.contents own.entry.now page.lines out result.0 page.before) }
        {
            let drawing = scope.spawn(
                move ||
                    requires { IsDrawerOf relay.now drawer }
                { draw_turns(rt, alloc, relay, drawer) },
            );
            if drawing.is_err() || !gate.may_start(0) {
                relay.ends.note(rt, WorkFault::ThreadRefused);
            } else {
                let taking = scope.spawn(
                    move ||
                        requires { IsTakerOf relay.now taker }
                    { take_turns(rt, alloc, relay, gate, taker) },
                );
                if taking.is_err() {
                    relay.ends.note(rt, WorkFault::ThreadRefused);
                }
            }
            let mut writer = writer;
            let mut out = out;
            let result = write_batches(rt, alloc, relay, own, &mut writer, page, &mut out);
            if result.is_err() {
                relay.ends.end();
            }
            (out, result)
        },
    )
}
