//! Turns that are drawn and not taken yet.
ghost use Rattle.std.specs.Prelude.{◌≡◌, ◌≤◌, ◌⊎◌, [], IfOk, None, vec_len};
ghost use Rattle.task_seed.specs.Setups.{system};
ghost use Rattle.lone_group.specs.Drawn.{IsDrawn};

use event_keys::Key;
use reference::{Agenda, Due};
use task_seed::Turns;
use terms::NoMemory;

/// Turns in the order of their keys, from the one with the key `from` on, and the key of the one that comes behind them, if one is left.
#[derive(Drop)]
pub struct Drawn {
    pub due: Vec<Due>,
    pub from: Option<Key>,
    pub next: Option<Key>,
}

/// Draws turns, `most` of them or all that are left, into an empty list.
///
/// # Errors
///
/// `NoMemory`; then what was drawn is lost.
pub fn draw<T: Turns>(
    agenda: &mut Agenda<T>,
    empty: Vec<Due>,
    most: usize,
) -> Result<Drawn, NoMemory>
    requires empty { empty.items ≡ [] }
    ensures setup { agenda.new.setup ≡ agenda.old.setup }
    ensures drawn { IfOk result (IsDrawn (system T.turn_of agenda.old.setup)) }
    ensures from { IfOk result (λ drawn. drawn.from ≡ agenda.old.next) }
    ensures next { IfOk result (λ drawn. drawn.next ≡ agenda.new.next) }
    ensures most { IfOk result (λ drawn. vec_len drawn.due ≤ most) }
    ensures all { IfOk result (λ drawn. (vec_len drawn.due ≡ most) ⊎ (drawn.next ≡ None)) }
{
    let mut due = empty;
    let from = agenda.next();
    for _ in 0..most {
        due.reserve(1)?;
        let Some(turn) = agenda.draw()? else {
            break;
        };
        due.push_reserved(turn);
    }
    Ok(Drawn {
        due,
        from,
        next: agenda.next(),
    })
}
