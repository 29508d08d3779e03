//! What the thread does that draws turns for a group of all components.
ghost use Rattle.std.specs.Prelude.{◌≡◌, [], IfSome};
ghost use Rattle.task_seed.specs.Setups.{system};
ghost use Rattle.lone_group.specs.Drawn.{IsDrawn};
ghost use Rattle.workers.specs.Alone.{IsDrawerOf};

use crate::alone::{Drawer, Relay};
use crate::fault::WorkFault;
use lone_group::{Drawn, draw};
use reference::Due;
use std::alloc::Global;
use std::sync::Wait;
use std::sync::atomic::Ordering;
use task_seed::Turns;

// Draws turns until none is left, or a worker has ended.
pub(crate) fn draw_turns<T: Turns, R: Wait>(
    rt: &R,
    alloc: Global,
    relay: &Relay<T>,
    mut drawer: Drawer<T>,
)
    requires { IsDrawerOf relay.now drawer }
{
    let mut due = Vec::new(alloc);
    for _ in rt.forever() {
        let most = drawer.pace.next_page();
        let Ok(drawn) = draw(&mut drawer.agenda, due, most) else {
            relay.ends.note(rt, WorkFault::NoMemory);
            return;
        };
        let is_last = drawn.next.is_none();
        let Some(before) = pass_on(rt, alloc, relay, &mut drawer, drawn) else {
            return;
        };
        if is_last {
            return;
        }
        due = before;
    }
}

// Hands over what was drawn, once few lists of what was drawn before wait, and gets an empty list for the next. None, if a worker has ended, or memory
// was refused.
fn pass_on<T: Turns, R: Wait>(
    rt: &R,
    alloc: Global,
    relay: &Relay<T>,
    drawer: &mut Drawer<T>,
    drawn: Drawn,
) -> Option<Vec<Due>>
    requires drawer { IsDrawerOf relay.now drawer.old }
    requires drawn { IsDrawn (system T.turn_of drawer.old.agenda.setup) drawn }
    ensures drawer { IsDrawerOf relay.now drawer.new }
    ensures empty { IfSome result (λ due. due.items ≡ []) }
{
    for _ in rt.forever() {
        if relay.ends.has_ended() {
            return None;
        }
        if !drawer.pace.may_add(relay.drawn.load(Ordering::SeqCst)) {
            drawer.pace.wait(rt);
            continue;
        }
        if let Some(mut passed) = relay.board.take(rt, &mut drawer.pass) {
            let due = passed.inside.put_drawn(alloc, drawn);
            let many = passed.inside.drawn() as u64;
            relay.drawn.store(many, Ordering::SeqCst);
            relay.board.give_back(rt, &mut drawer.pass, passed);
            drawer.pace.go_on();
            if due.is_err() {
                relay.ends.note(rt, WorkFault::NoMemory);
            }
            return due.ok();
        }
        drawer.pace.wait(rt);
    }
    unreachable!()
}
