//! What files mean: a source, and the turns that are asked for.
ghost use Rattle.std.specs.Prelude.{◌≤◌, ◌⊎◌, IfErr, IfOk, length};
ghost use Rattle.compose.specs.Composed.{IsComposed};
ghost use Rattle.plans.specs.Plans.{composition};
ghost use Rattle.task_seed.specs.Any.{any_turn};
ghost use Rattle.task_seed.specs.Setups.{plan_of, system};
ghost use Rattle.commands.specs.FileReports.{FilesMean, FilesMeanNone, HasNoPlan, HasNoSystem, HasTurns, table_of};
ghost use Rattle.commands.specs.Parts.{IsLacking};
ghost use Rattle.commands.specs.Reading.{IsReadOf};
ghost use Rattle.commands.specs.Setups.{GivesNoSystem, IsSetup, Table};
ghost use Rattle.commands.specs.Unread.{HasSmall, IsFileFault, IsSourceWith, IsUnread, most_bytes};

use crate::files::{FileFault, Files};
use crate::given::GivenTurns;
use crate::report::Report;
use crate::setups::{plan_of, setup_with};
use command_line::Options;
use compose::source_laws::front_law;
use plans::Plan;
use std::alloc::Global;
use task_seed::{AnyTurns, Setup};

/// The most bytes that a table, a file of actions or a file of steps may have.
pub const MOST_BYTES: u64 = 16_777_216;

/// One byte more than a source may have: a longer file is refused for its size.
pub const SOURCE_BYTES: u64 = ioa_front::MOST_BYTES as u64 + 1;

/// The setup of the source in a file with the turns that are asked for, or the report on why there is none. The source is judged before the
/// table is read.
pub fn setup_in<F: Files>(
    alloc: Global,
    name: &str,
    options: Options,
    files: &F,
) -> Result<Setup<AnyTurns>, Report>
    ensures ok { IfOk result (λ setup. FilesMean (F.has files.now) name.now options.entry
        (plan_of setup) (system any_turn setup)) }
    ensures err { IfErr result
        (FilesMeanNone (F.has files.now) (F.lacks files.now) name.now options.entry) }
{
    match plan_in(alloc, name, files) {
        Ok(plan) => setup_asked(alloc, plan, options, files),
        Err(report) => Err(report),
    }
}

/// The composition of the source in a file, or the report on why there is none.
pub fn plan_in<F: Files>(alloc: Global, name: &str, files: &F) -> Result<Plan, Report>
    ensures ok { IfOk result (λ plan.
        IsSourceWith (F.has files.now name.now) (λ source. IsComposed source plan)) }
    ensures err { IfErr result (HasNoPlan (F.has files.now name.now) (F.lacks files.now name.now)) }
{
    front_law();
    let source = match read_front(alloc, name, SOURCE_BYTES, files) {
        Ok(source) => source,
        Err(number) => return Err(Report::Fault(number)),
    };
    plan_of(alloc, source.as_slice())
}

/// The setup of a plan with the turns that are asked for.
pub(crate) fn setup_asked<F: Files>(
    alloc: Global,
    plan: Plan,
    options: Options,
    files: &F,
) -> Result<Setup<AnyTurns>, Report>
    ensures ok { IfOk result (λ setup. HasTurns (F.has files.now) options.entry
        (table_of options.entry) (λ given. IsSetup plan given options.entry.ticks setup)) }
    ensures err { IfErr result (HasNoSystem (F.has files.now) (F.lacks files.now)
        (composition plan) options.entry (table_of options.entry)) }
{
    match options.table {
        Some(table) => setup_tabled(alloc, plan, table, options.ticks, files),
        None => setup_with(
            alloc,
            plan,
            GivenTurns::Seed {
                seed: options.seed,
                stream: options.stream,
                gap: options.gap,
                from_zero: options.from_zero,
            },
            options.ticks,
        ),
    }
}

// The setup of a plan with the table in a file.
fn setup_tabled<F: Files>(
    alloc: Global,
    plan: Plan,
    name: &str,
    ticks: u64,
    files: &F,
) -> Result<Setup<AnyTurns>, Report>
    ensures ok { IfOk result (λ setup. HasSmall (F.has files.now name.now)
        (λ bytes. IsSetup plan (Table bytes) ticks setup)) }
    ensures err { IfErr result (λ report.
        IsLacking (IsFileFault (F.has files.now name.now) (F.lacks files.now name.now)) report
        ⊎ HasSmall (F.has files.now name.now)
        (λ bytes. GivesNoSystem (composition plan) (Table bytes) ticks report)) }
{
    let table = match read_whole(alloc, name, files) {
        Ok(table) => table,
        Err(number) => return Err(Report::Fault(number)),
    };
    setup_with(alloc, plan, GivenTurns::Table(table.as_slice()), ticks)
}

/// All of a table or of a file of actions or steps, or the number of the fault.
pub fn read_whole<F: Files>(alloc: Global, name: &str, files: &F) -> Result<Vec<u8>, u8>
    ensures ok { IfOk result (λ bytes. F.has files.now name.now bytes.items
        × (length bytes.items ≤ most_bytes)) }
    ensures err { IfErr result
        (λ number. IsFileFault (F.has files.now name.now) (F.lacks files.now name.now) number) }
{
    match read_front(alloc, name, MOST_BYTES + 1, files) {
        Ok(bytes) if bytes.len() as u64 <= MOST_BYTES => Ok(bytes),
        Ok(_) => Err(64),
        Err(number) => Err(number),
    }
}

/// The first bytes of a file, or the number of the fault.
pub fn read_front<F: Files>(alloc: Global, name: &str, most: u64, files: &F) -> Result<Vec<u8>, u8>
    ensures ok { IfOk result (λ bytes. IsReadOf (F.has files.now name.now) most bytes.items) }
    ensures err { IfErr result (λ number. IsUnread (F.lacks files.now name.now) number) }
{
    match files.read(alloc, name, most) {
        Ok(bytes) => Ok(bytes),
        Err(FileFault::NoMemory) => Err(1),
        Err(FileFault::Missing | FileFault::Folder | FileFault::Denied | FileFault::Failed) => {
            Err(63)
        }
    }
}
