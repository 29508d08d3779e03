//! One seed: what a source means with its turns, and whether the action comes.
ghost use Rattle.std.specs.Prelude.{◌≡◌, ◌++◌, [], ℕ, List, None, IfErr, IfNone, IfOk, IfSome, codes, decimal};
ghost use Rattle.compose.specs.Composed.{IsComposed};
ghost use Rattle.task_seed.specs.Drawn.{drawn_turn, seed_turn};
ghost use Rattle.task_seed.specs.Setups.{plan_of, system};
ghost use Rattle.hunt.specs.Faults.{IsBadGap, IsUnseen, NamesSome};
ghost use Rattle.hunt.specs.Known.{IsKnown};
ghost use Rattle.hunt.specs.Seeds.{HasGap, HasText, IsSown, Lacks, hunted, least_gap};
ghost use Rattle.hunt.specs.Sightings.{IsShown, NeverOccurs, seed_text};
ghost use Rattle.hunt.specs.Wanted.{IsWanted};

use crate::course::Course;
use crate::fault::HuntFault;
use crate::seeking::{known_law, seek};
use crate::wanted::{Wanted, read_wanted};
use compose::compose_source;
use event_keys::Turned;
use itoa::Buffer;
use plans::Plan;
use reference::Reference;
use std::alloc::{AllocError, Global};
use std::sync::Arc;
use task_seed::{SeedTurns, SeedTurnsError, Setup};
use trace::{Counted, Lines, append_turns};

// The turns of a seed.
fn draw(course: Course, seed: u64) -> Result<SeedTurns, SeedTurnsError>
    ensures ok { IfOk result (λ turns. seed_turn turns
        ≡ drawn_turn seed course.stream (least_gap course.from_zero) course.gap) }
    ensures within { IfOk result (λ turns. HasGap course) }
    ensures err { (source action : List ℕ) → NamesSome (hunted source action course)
        → IfErr result (IsBadGap (hunted source action course)) }
{
    if course.from_zero {
        SeedTurns::from_zero(seed, course.stream, course.gap)
    } else {
        SeedTurns::new(seed, course.stream, course.gap)
    }
}

// A plan with the turns of a seed.
fn sow(plan: Plan, course: Course, seed: u64) -> Result<Setup<SeedTurns>, HuntFault>
    ensures plan { IfOk result (λ setup. plan_of setup ≡ plan) }
    ensures sown { IfOk result (λ setup. IsSown course seed plan (system seed_turn setup)) }
    ensures err { (source action : List ℕ) → NamesSome (hunted source action course)
        → IfErr result (IsUnseen (hunted source action course)) }
{
    let turns = match draw(course, seed) {
        Ok(turns) => turns,
        Err(refused) => {
            drop(plan);
            return Err(HuntFault::Turns(refused));
        }
    };
    match Setup::new(plan, turns, course.ticks) {
        Ok(setup) => Ok(setup),
        Err(refused) => Err(HuntFault::Ticks(refused)),
    }
}

// The composition of a source.
fn composed(alloc: Global, source: &[u8]) -> Result<Plan, HuntFault>
    ensures ok { IfOk result (IsComposed source.now) }
    ensures err { (action : List ℕ) (course : Course) → IfErr result
        (IsUnseen (hunted source.now action course)) }
{
    match compose_source(alloc, source) {
        Ok(plan) => Ok(plan),
        Err(refused) => Err(HuntFault::Source(refused)),
    }
}

// The plan that is kept, or else the composition of the source.
fn plan_for(alloc: Global, source: &[u8], kept: &mut Option<Plan>) -> Result<Plan, HuntFault>
    requires { IfSome kept.old (IsComposed source.now) }
    ensures none { kept.new ≡ None }
    ensures ok { IfOk result (IsComposed source.now) }
    ensures err { (action : List ℕ) (course : Course) → IfErr result
        (IsUnseen (hunted source.now action course)) }
{
    match kept.take() {
        Some(plan) => Ok(plan),
        None => composed(alloc, source),
    }
}

// The plan of a simulator that takes no more turns.
fn plan_in(reference: Reference<SeedTurns>) -> Option<Plan>
    ensures { IfSome result (λ plan. plan ≡ plan_of reference.setup) }
{
    let setup = Arc::into_inner(reference.into_setup())?;
    Some(setup.into_plan())
}

// The actions that a text names.
fn named(alloc: Global, plan: &Plan, action: &str) -> Result<Wanted, HuntFault>
    ensures ok { IfOk result (IsWanted plan.now action.now) }
    ensures err { (source : List ℕ) (course : Course) → IsComposed source plan.now
        → IfErr result (IsUnseen (hunted source action.now course)) }
{
    match read_wanted(alloc, plan, action) {
        Ok(wanted) => Ok(wanted),
        Err(refused) => Err(HuntFault::Action(refused)),
    }
}

/// The line that a text and a number behind it make.
#[tactic(auto, using(std::proofs::lemmas::List::append_assoc))]
pub(crate) fn number_line(alloc: Global, head: &[u8], number: u64) -> Result<Vec<u8>, AllocError>
    ensures { IfOk result (λ text. text.items ≡ head.now ++ decimal number ++ codes "\n") }
{
    let mut text = Vec::new(alloc);
    text.extend_from_slice(head)?;
    text.extend_from_slice(Buffer::new().format(number).as_bytes())?;
    text.push(b'\n')?;
    Ok(text)
}

// The line of a seed.
fn seed_line(alloc: Global, seed: u64) -> Result<Vec<u8>, AllocError>
    ensures { IfOk result (λ text. text.items ≡ codes "seed " ++ decimal seed ++ codes "\n") }
{
    number_line(alloc, b"seed ", seed)
}

// The line of a seed, and those of turns.
fn text_of(alloc: Global, plan: &Plan, seed: u64, turns: &[Turned]) -> Result<Vec<u8>, AllocError>
    ensures { IfOk result (λ text. text.items ≡ seed_text seed plan.now turns.now) }
{
    let text = seed_line(alloc, seed)?;
    let mut out = Counted::new(text);
    match append_turns(plan, turns.iter(), Lines::All, 0, &mut out) {
        Ok(_) => Ok(out.into_inner()),
        Err(_) => Err(AllocError),
    }
}

// The text of a simulator's turns up to the first that does what is wanted, if one does. It has taken
// none.
fn show(
    alloc: Global,
    reference: &mut Reference<SeedTurns>,
    wanted: &Wanted,
    seed: u64,
) -> Result<Option<Vec<u8>>, HuntFault>
    requires known { IsKnown
        (plan_of reference.old.setup) (system seed_turn reference.old.setup) }
    requires start { reference.old.taken ≡ [] }
    ensures setup { reference.new.setup ≡ reference.old.setup }
    ensures shown { IfOk result (λ found. IfSome found (λ text. IsShown
        (plan_of reference.old.setup)
        (system seed_turn reference.old.setup) wanted.now seed text.items)) }
    ensures never { IfOk result (λ found. IfNone found (NeverOccurs
        (plan_of reference.old.setup) (system seed_turn reference.old.setup) wanted.now)) }
    ensures err { IfErr result (λ fault. fault ≡ HuntFault.NoMemory) }
{
    let found = seek(alloc, reference, wanted)?;
    match found {
        Some(turns) => {
            let plan = reference.setup().plan();
            let text = text_of(alloc, plan, seed, turns.as_slice())?;
            Ok(Some(text))
        }
        None => Ok(None),
    }
}

// The same of a setup, whose plan is kept.
fn watch(
    alloc: Global,
    setup: Setup<SeedTurns>,
    wanted: &Wanted,
    seed: u64,
    kept: &mut Option<Plan>,
) -> Result<Option<Vec<u8>>, HuntFault>
    requires none { kept.old ≡ None }
    ensures kept { IfSome kept.new (λ plan. plan ≡ plan_of setup) }
    ensures shown { IfOk result (λ found. IfSome found (λ text. IsShown
        (plan_of setup) (system seed_turn setup) wanted.now seed text.items)) }
    ensures never { IfOk result (λ found. IfNone found (NeverOccurs
        (plan_of setup) (system seed_turn setup) wanted.now)) }
    ensures err { IfErr result (λ fault. fault ≡ HuntFault.NoMemory) }
{
    known_law(&setup);
    let shared = Arc::new(alloc, setup)?;
    let mut reference = Reference::new(alloc, shared)?;
    let found = show(alloc, &mut reference, wanted, seed);
    *kept = plan_in(reference);
    found
}

/// The text of a seed's turns up to the first that did the action, if its schedule has it. The plan of the source is kept, so
/// that it is made once for many seeds.
pub(crate) fn look(
    alloc: Global,
    source: &[u8],
    action: &str,
    course: Course,
    seed: u64,
    kept: &mut Option<Plan>,
) -> Result<Option<Vec<u8>>, HuntFault>
    requires kept { IfSome kept.old (IsComposed source.now) }
    ensures kept { IfSome kept.new (IsComposed source.now) }
    ensures has { IfOk result (λ found. IfSome found (λ text.
        HasText (hunted source.now action.now course) seed text.items)) }
    ensures lacks { IfOk result (λ found. IfNone found
        (Lacks (hunted source.now action.now course) seed)) }
    ensures err { IfErr result (IsUnseen (hunted source.now action.now course)) }
{
    let plan = match plan_for(alloc, source, kept) {
        Ok(plan) => plan,
        Err(fault) => return Err(fault),
    };
    let wanted = match named(alloc, &plan, action) {
        Ok(wanted) => wanted,
        Err(fault) => {
            drop(plan);
            return Err(fault);
        }
    };
    let setup = match sow(plan, course, seed) {
        Ok(setup) => setup,
        Err(fault) => {
            drop(wanted);
            return Err(fault);
        }
    };
    let found = watch(alloc, setup, &wanted, seed, kept);
    drop(wanted);
    found
}
