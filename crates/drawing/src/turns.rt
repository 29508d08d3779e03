//! The marks of turns, and the lines of components.
ghost use Rattle.std.specs.Prelude.{◌≡◌, ◌≤◌, ◌<◌, ◌^◌, ◌+◌, ◌-◌, ◌*◌, ◌++◌, OnOk, IfOk, codes, drop, flat_map, length, map, string_bytes, take};
ghost use Rattle.plans.specs.Plans.{composition};
ghost use Rattle.io_automata.specs.Signatures.{receivers_of};
ghost use Rattle.trace.specs.Lines.{action_text};
ghost use Rattle.drawing.specs.Elements.{label_text};
ghost use Rattle.drawing.specs.Turns.{AreWithin, arrow_to, arrows_text, bottom_of, components_text, diagram_of, last_tick, mark_text, remark_text, row_of, turn_text, x_of, y_of};

use crate::elements::{
    put_arrow, put_component, put_full_dot, put_head, put_hollow_dot, put_label, put_margin,
};
use crate::pieces::put;
use crate::window::MOST_TURNS;
use event_keys::{Key, Outcome, Turned};
use itoa::Buffer;
use plans::Plan;
use std::alloc::{AllocError, Global};
use terms::{Action, NoMemory};
use trace::{Counted, append_action};

/// The most components whose names are drawn.
pub(crate) const MOST_COMPONENTS: usize = 1_024;

// Where a component's line is, from the left.
fn x_of(component: u16) -> u64
    ensures is { result ≡ x_of component }
    ensures small { result < 2 ^ 32 }
{
    120 + 160 * u64::from(component)
}

// Where a tick is, from the top.
fn row_of(from: u64, tick: u64) -> u64
    requires { (from ≤ tick) × (tick - from ≤ 4294967296) }
    ensures is { result ≡ row_of from tick }
    ensures low { 60 ≤ result }
    ensures small { result < 2 ^ 62 }
{
    60 + 24 * (tick - from)
}

// Where a turn is.
fn y_of(from: u64, key: Key) -> u64
    requires { (from ≤ key.tick) × (key.tick - from ≤ 4294967296) }
    ensures is { result ≡ y_of from key }
    ensures low { 60 ≤ result }
    ensures small { result < 2 ^ 63 }
{
    row_of(from, key.tick) + 4 * u64::from(key.component % 6)
}

fn action_text(alloc: Global, plan: &Plan, action: &Action) -> Result<Vec<u8>, NoMemory>
    ensures { IfOk result (λ text. text.items ≡ action_text plan.now action.now) }
{
    let mut out = Counted::new(Vec::new(alloc));
    match append_action(plan, action, 0, &mut out) {
        Ok(_) => Ok(out.into_inner()),
        Err(_) => Err(NoMemory),
    }
}

// An arrow to a component.
fn put_arrow_to(text: &mut Vec<u8>, y: u64, from: u64, receiver: u16) -> Result<(), AllocError>
    ensures { OnOk result (text.new.items ≡ text.old.items ++ arrow_to y from receiver) }
{
    put_arrow(text, y, from, x_of(receiver))
}

// An arrow to each of these components.
fn put_arrows(text: &mut Vec<u8>, y: u64, from: u64, receivers: &[u16]) -> Result<(), AllocError>
    ensures { OnOk result (text.new.items ≡ text.old.items ++ arrows_text y from receivers.now) }
{
    let mut rest = receivers;
    while let Some((receiver, later)) = rest.split_first() {
        put_arrow_to(text, y, from, *receiver)?;
        rest = later;
    }
    Ok(())
}

// An arrow to each receiver of an action.
fn put_receivers(
    alloc: Global,
    text: &mut Vec<u8>,
    plan: &Plan,
    component: u16,
    x: u64,
    y: u64,
    action: &Action,
) -> Result<(), NoMemory>
    ensures { OnOk result (text.new.items ≡ text.old.items
        ++ arrows_text y x (receivers_of (composition plan.now) action.now component)) }
{
    let receivers = plan.receivers(alloc, action, component)?;
    put_arrows(text, y, x, receivers.as_slice())?;
    Ok(())
}

// The text of an action beside its dot.
fn put_action_label(
    alloc: Global,
    text: &mut Vec<u8>,
    plan: &Plan,
    x: u64,
    y: u64,
    action: &Action,
) -> Result<(), NoMemory>
    requires { x < 2 ^ 63 }
    ensures { OnOk result (text.new.items ≡ text.old.items
        ++ label_text x y (action_text plan.now action.now)) }
{
    let label = action_text(alloc, plan, action)?;
    put_label(text, x, y, label.as_slice())?;
    Ok(())
}

// The mark of a turn that took an action, and its arrows.
fn put_action(
    alloc: Global,
    text: &mut Vec<u8>,
    plan: &Plan,
    component: u16,
    x: u64,
    y: u64,
    action: &Action,
) -> Result<(), NoMemory>
    requires { (x < 2 ^ 63) × (5 ≤ y) }
    ensures { OnOk result (text.new.items ≡ text.old.items
        ++ mark_text plan.now component x y (Outcome.Did action.now)) }
{
    put_receivers(alloc, text, plan, component, x, y, action)?;
    put_full_dot(text, x, y)?;
    put_action_label(alloc, text, plan, x, y - 5, action)
}

// The mark of a turn.
fn put_mark(
    alloc: Global,
    text: &mut Vec<u8>,
    plan: &Plan,
    component: u16,
    x: u64,
    y: u64,
    outcome: &Outcome,
) -> Result<(), NoMemory>
    requires { (x < 2 ^ 63) × (5 ≤ y) }
    ensures { OnOk result (text.new.items ≡ text.old.items
        ++ mark_text plan.now component x y outcome.now) }
{
    match outcome {
        Outcome::Idle => {
            put_hollow_dot(text, x, y)?;
            Ok(())
        }
        Outcome::Did(action) => put_action(alloc, text, plan, component, x, y, action),
    }
}

// A turn's tick, and its mark.
#[tactic(auto, using(std::proofs::lemmas::List::append_assoc))]
fn put_turn(
    alloc: Global,
    text: &mut Vec<u8>,
    plan: &Plan,
    from: u64,
    turned: &Turned,
) -> Result<(), NoMemory>
    requires { (from ≤ turned.now.key.tick) × (turned.now.key.tick ≤ 4294967296) }
    ensures { OnOk result (text.new.items ≡ text.old.items ++ turn_text plan.now from turned.now) }
{
    let key = turned.key;
    let row = row_of(from, key.tick);
    put_margin(text, row + 4, Buffer::new().format(key.tick).as_bytes())?;
    let x = x_of(key.component);
    let y = y_of(from, key);
    put_mark(alloc, text, plan, key.component, x, y, &turned.outcome)
}

// The ticks and the marks of turns.
fn put_turns(
    alloc: Global,
    text: &mut Vec<u8>,
    plan: &Plan,
    from: u64,
    turns: &[Turned],
) -> Result<(), NoMemory>
    requires { AreWithin from turns.now }
    ensures { OnOk result (text.new.items ≡ text.old.items
        ++ flat_map (turn_text plan.now from) turns.now) }
{
    let mut rest = turns;
    while let Some((turned, later)) = rest.split_first() {
        put_turn(alloc, text, plan, from, turned)?;
        rest = later;
    }
    Ok(())
}

// The lines of components, one behind the other.
fn put_components(text: &mut Vec<u8>, bottom: u64, names: &[String]) -> Result<(), AllocError>
    requires { length names.now ≤ 1024 }
    ensures { OnOk result (text.new.items ≡ text.old.items
        ++ components_text bottom 0 (map string_bytes names.now)) }
{
    let mut rest = names;
    let mut component: u16 = 0;
    while let Some((name, later)) = rest.split_first() {
        put_component(text, x_of(component), bottom, name.as_str().as_bytes())?;
        component += 1;
        rest = later;
    }
    Ok(())
}

// The tick of the last turn, or the first one that is drawn.
fn last_tick(from: u64, turns: &[Turned]) -> u64
    requires { AreWithin from turns.now }
    ensures is { result ≡ last_tick from turns.now }
    ensures above { from ≤ result }
    ensures below { result - from ≤ 4294967296 }
{
    let mut tick = from;
    let mut rest = turns;
    while let Some((turned, later)) = rest.split_first() {
        tick = turned.key.tick;
        rest = later;
    }
    tick
}

// A remark where more turns are there than are drawn.
fn put_remark(text: &mut Vec<u8>, bottom: u64, many: usize) -> Result<(), AllocError>
    requires { bottom < 2 ^ 63 }
    ensures { OnOk result (text.new.items ≡ text.old.items ++ remark_text bottom many) }
{
    if many > MOST_TURNS {
        put_margin(text, bottom + 20, b"only the first 2000 turns are drawn")?;
    }
    Ok(())
}

// Where the lines of the components end.
fn bottom_of(from: u64, turns: &[Turned]) -> u64
    requires { AreWithin from turns.now }
    ensures is { result ≡ bottom_of from turns.now }
    ensures small { result < 2 ^ 63 }
{
    row_of(from, last_tick(from, turns)) + 40
}

// How wide a diagram is.
fn width_of(names: &[String]) -> u64
    requires { length names.now ≤ 1024 }
    ensures { result ≡ x_of (length (map string_bytes names.now)) }
{
    120 + 160 * names.len() as u64
}

// Adds the diagram of turns.
fn put_diagram(
    alloc: Global,
    text: &mut Vec<u8>,
    plan: &Plan,
    names: &[String],
    from: u64,
    many: usize,
    turns: &[Turned],
) -> Result<(), NoMemory>
    requires names { length names.now ≤ 1024 }
    requires turns { AreWithin from turns.now }
    ensures { OnOk result (text.new.items ≡ text.old.items
        ++ diagram_of plan.now (map string_bytes names.now) from many turns.now) }
{
    let bottom = bottom_of(from, turns);
    put_head(text, width_of(names), bottom + 40)?;
    put_components(text, bottom, names)?;
    put_turns(alloc, text, plan, from, turns)?;
    put_remark(text, bottom, many)?;
    put(text, b"</svg>\n")?;
    Ok(())
}

/// The diagram of turns, of which there are so many.
pub(crate) fn diagram(
    alloc: Global,
    plan: &Plan,
    names: &[String],
    from: u64,
    many: usize,
    turns: &[Turned],
) -> Result<Vec<u8>, NoMemory>
    requires names { length names.now ≤ 1024 }
    requires turns { AreWithin from turns.now }
    ensures { IfOk result (λ text. text.items
        ≡ diagram_of plan.now (map string_bytes names.now) from many turns.now) }
{
    let mut text = Vec::new(alloc);
    put_diagram(alloc, &mut text, plan, names, from, many, turns)?;
    Ok(text)
}
