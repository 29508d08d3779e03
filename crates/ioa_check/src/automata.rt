//! The checks of automata that aren't composed.
ghost use Rattle.std.specs.Prelude.{◌≡◌, ◌+◌, ◌<◌, ◌^◌, List, map, OnOk, IfOk};
ghost use Rattle.ioa_trees.specs.Trees.{Bytes};
ghost use Rattle.ioa_trees.specs.Views.{view_automaton};
ghost use Rattle.ioa_trees.specs.AutomatonRules.{locals, meaning_of};
ghost use Rattle.ioa_trees.specs.Sizes.{automaton_size};
ghost use Rattle.ioa_trees.specs.SourceRules as source;
ghost use Rattle.ioa_typing.specs.NameViews.{names_tree};
ghost use Rattle.ioa_typing.specs.Noted.{AreNoted};
ghost use Rattle.ioa_check.specs.Bodies as body;
ghost use Rattle.ioa_check.specs.Meant.{automaton_tree};
ghost use Rattle.ioa_check.specs.Sets.{Adds, AreNames};
ghost use Rattle.ioa_check.specs.AutomatonViews.{used_names};

use crate::body::check_inside;
use crate::locals::use_locals;
use crate::meant::MeantAutomaton;
use crate::used::Used;
use crate::variables::is_taken;
use ioa_trees::tree::Automaton;
use ioa_typing::{FaultKind, Meaning, Names, Progress};
use std::alloc::{AllocError, Global};

// Checks the automaton of this number.
fn check_automaton(
    alloc: Global,
    names: &mut Names,
    used: &mut Used,
    number: usize,
    automaton: &Automaton,
    progress: &mut Progress,
) -> Result<MeantAutomaton, AllocError>
    requires room { progress.old.at + automaton_size (view_automaton automaton.now) < 2 ^ 32 }
    ensures at { OnOk result (progress.new.at ≡ progress.old.at
        + automaton_size (view_automaton automaton.now)) }
    ensures names { OnOk result (names_tree names.new
        ≡ source.with_automaton (names_tree names.old) number (view_automaton automaton.now)) }
    ensures used { OnOk result (Adds (used_names used.new) (locals (view_automaton automaton.now))
        (used_names used.old)) }
    ensures faults { OnOk result (AreNoted progress.old progress.new
        (body.automaton_faults (names_tree names.old) (used_names used.old) number progress.old.at
        (view_automaton automaton.now))) }
    ensures meant { IfOk result (λ m. automaton_tree m
        ≡ meaning_of
        (source.with_automaton (names_tree names.old) number (view_automaton automaton.now))
        (view_automaton automaton.now)) }
{
    let taken = is_taken(names, used, automaton.name.as_str());
    progress.note_if(taken, progress.at + 1, FaultKind::DoubleName);
    names.declare(&automaton.name, Meaning::Automaton(number))?;
    let meant = check_inside(alloc, names, automaton, progress)?;
    use_locals(used, automaton)?;
    Ok(meant)
}

/// Checks automata whose names may not be among these: notes their faults, goes behind them, declares them, puts all names that they
/// declare inside among the names, and says what they mean.
pub fn check_automata(
    alloc: Global,
    names: &mut Names,
    used: &mut Used,
    automata: &[Automaton],
    progress: &mut Progress,
) -> Result<Vec<MeantAutomaton>, AllocError>
    requires room { progress.old.at + source.automata_size (map view_automaton automata.now)
        < 2 ^ 32 }
    ensures at { OnOk result (progress.new.at ≡ progress.old.at
        + source.automata_size (map view_automaton automata.now)) }
    ensures names { OnOk result (names_tree names.new
        ≡ source.with_automata (names_tree names.old) 0 (map view_automaton automata.now)) }
    ensures used { OnOk result (Adds (used_names used.new)
        (source.all_locals (map view_automaton automata.now)) (used_names used.old)) }
    ensures faults { OnOk result ((L : List Bytes) → AreNames (used_names used.old) L
        → AreNoted progress.old progress.new
        (source.automata_faults (names_tree names.old) L 0 progress.old.at
        (map view_automaton automata.now))) }
    ensures meant { IfOk result (λ ms. map automaton_tree ms.items
        ≡ source.meanings_of (names_tree names.old) 0 (map view_automaton automata.now)) }
{
    let mut meant = Vec::new(alloc);
    for automaton in automata {
        let number = meant.len();
        let one = check_automaton(alloc, names, used, number, automaton, progress)?;
        meant.push(one)?;
    }
    Ok(meant)
}
