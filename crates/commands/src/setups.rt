//! What a source means with the turns that are given: the first stages of the engines.
ghost use Rattle.std.specs.Prelude.{◌≡◌, ◌<◌, ◌≤◌, ◌↔◌, ◌⊎◌, ℕ, IfErr, IfOk, IsErrOf};
ghost use Rattle.compose.specs.Composed.{IsComposed};
ghost use Rattle.plans.specs.Plans.{composition};
ghost use Rattle.task_seed.specs.Any.{any_turn};
ghost use Rattle.task_seed.specs.Drawn.{drawn_turn, seed_turn};
ghost use Rattle.task_seed.specs.Setups.{plan_of, system};
ghost use Rattle.commands.specs.Compositions.{GivesNoPlan};
ghost use Rattle.commands.specs.Parts.{IsMemory, IsRefusal};
ghost use Rattle.commands.specs.Setups.{AreRefused, AreTurns, GivesNoSystem, IsBadGap, IsSetup, IsTabled, IsWithin, given_of, least_gap};
ghost use Rattle.commands.specs.Simulations.{Means, MeansNone};
ghost use Rattle.commands.specs.Tables.{IsRefused};

use crate::given::GivenTurns;
use crate::report::{Report, report_of};
use compose::compose_source;
use compose::source_laws::number_law;
use plans::Plan;
use std::alloc::Global;
use task_seed::{AnyTurns, SeedTurns, SeedTurnsError, Setup, TableTurns, read_table};

/// The setup that a source means with turns, or the report on why there is none. The source is judged first, then the turns, then the last
/// tick.
pub fn setup_of(
    alloc: Global,
    source: &[u8],
    given: GivenTurns,
    ticks: u64,
) -> Result<Setup<AnyTurns>, Report>
    ensures ok { IfOk result (λ setup.
        Means source.now (given_of given.entry) ticks (plan_of setup) (system any_turn setup)) }
    ensures err { IfErr result (MeansNone source.now (given_of given.entry) ticks) }
{
    match plan_of(alloc, source) {
        Ok(plan) => setup_with(alloc, plan, given, ticks),
        Err(report) => Err(report),
    }
}

/// The composition of a source, or the report on why there is none.
pub(crate) fn plan_of(alloc: Global, source: &[u8]) -> Result<Plan, Report>
    ensures ok { IfOk result (IsComposed source.now) }
    ensures err { IfErr result (GivesNoPlan source.now) }
{
    number_law();
    match compose_source(alloc, source) {
        Ok(plan) => Ok(plan),
        Err(refused) => Err(report_of(&refused)),
    }
}

/// The setup of a plan with turns, or the report on why there is none.
pub(crate) fn setup_with(
    alloc: Global,
    plan: Plan,
    given: GivenTurns,
    ticks: u64,
) -> Result<Setup<AnyTurns>, Report>
    ensures ok { IfOk result (IsSetup plan (given_of given.entry) ticks) }
    ensures err { IfErr result (GivesNoSystem (composition plan) (given_of given.entry) ticks) }
{
    let turns = match turns_of(alloc, &plan, given) {
        Ok(turns) => turns,
        Err(report) => return Err(report),
    };
    match Setup::new(plan, turns, ticks) {
        Ok(setup) => Ok(setup),
        Err(refused) => Err(report_of(&refused)),
    }
}

// The turns that are given.
fn turns_of(alloc: Global, plan: &Plan, given: GivenTurns) -> Result<AnyTurns, Report>
    ensures ok { IfOk result (λ turns.
        AreTurns (composition plan.now) (given_of given.entry) (any_turn turns)) }
    ensures err { IfErr result
        (IsRefusal (AreRefused (composition plan.now) (given_of given.entry)) IsMemory) }
{
    match given {
        GivenTurns::Seed {
            seed,
            stream,
            gap,
            from_zero,
        } => drawn(seed, stream, gap, from_zero),
        GivenTurns::Table(table) => tabled(alloc, plan, table),
    }
}

// The turns of a seed.
fn drawn(seed: u64, stream: u64, gap: u64, from_zero: bool) -> Result<AnyTurns, Report>
    ensures ok { IfOk result (λ turns. any_turn turns
        ≡ drawn_turn seed stream (least_gap from_zero) gap) }
    ensures within { IfOk result (λ turns. IsWithin gap) }
    ensures err { IfErr result (IsRefusal (IsBadGap gap) IsMemory) }
{
    match seeds(seed, stream, gap_of(gap), from_zero) {
        Ok(turns) => Ok(AnyTurns::Seed(turns)),
        Err(refused) => Err(report_of(&refused)),
    }
}

fn seeds(seed: u64, stream: u64, gap: u32, from_zero: bool) -> Result<SeedTurns, SeedTurnsError>
    ensures turns { IfOk result (λ t. (i n : ℕ) →
        seed_turn t i n ≡ drawn_turn seed stream (least_gap from_zero) gap i n) }
    ensures refused { IsErrOf result SeedTurnsError.GapOutOfRange ↔ ((gap < 1) ⊎ (65535 < gap)) }
    ensures memory { IsErrOf result SeedTurnsError.NoMemory → ⊥ }
{
    if from_zero {
        SeedTurns::from_zero(seed, stream, gap)
    } else {
        SeedTurns::new(seed, stream, gap)
    }
}

// A gap as the turns of a seed take it; what is too large for them stays so.
fn gap_of(gap: u64) -> u32
    ensures same { gap ≤ 65535 → result ≡ gap }
    ensures large { 65535 < gap → 65535 < result }
{
    u32::try_from(gap).unwrap_or(u32::MAX)
}

/// The turns of a table.
pub(crate) fn tabled(alloc: Global, plan: &Plan, table: &[u8]) -> Result<AnyTurns, Report>
    ensures ok { IfOk result (λ turns. IsTabled (composition plan.now) table.now (any_turn turns)) }
    ensures err { IfErr result (IsRefusal (IsRefused (composition plan.now) table.now) IsMemory) }
{
    let rows = match read_table(alloc, table) {
        Ok(rows) => rows,
        Err(refused) => return Err(report_of(&refused)),
    };
    match TableTurns::new(alloc, plan, rows.as_slice()) {
        Ok(turns) => Ok(AnyTurns::Table(turns)),
        Err(refused) => Err(report_of(&refused)),
    }
}
