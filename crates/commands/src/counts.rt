//! What is told of a run's workers.
ghost use Rattle.std.specs.Prelude.{◌≡◌, OnErr, OnOk, flat_map};
ghost use Rattle.trace.specs.Went.{IsWritten};
ghost use Rattle.commands.specs.Counts.{count_line, label_of, stats_text, value_of};
ghost use Rattle.commands.specs.Written.{IsCut};

use crate::writing::write_line;
use std::io::Write;
use steering::Stats;
use trace::{Counted, WriteFault};

// What is counted, in the order in which it is told.
#[derive(Clone, Copy)]
enum Count {
    Turns,
    Sure,
    Groups,
    Pairs,
    Cut,
    Processed,
    Kept,
    TakenBack,
    RollBacks,
    Stragglers,
    Inside,
    Across,
    Antimessages,
    Annihilated,
    Visits,
    Meetings,
    Commits,
    Chunks,
    Leash,
    Waited,
}

fn label_of(count: Count) -> &'static str
    ensures { result.now ≡ label_of count }
{
    match count {
        Count::Turns => "turns: ",
        Count::Sure => "sure turns: ",
        Count::Groups => "groups: ",
        Count::Pairs => "pairs of components: ",
        Count::Cut => "pairs cut: ",
        Count::Processed => "processed: ",
        Count::Kept => "kept: ",
        Count::TakenBack => "taken back: ",
        Count::RollBacks => "roll-backs: ",
        Count::Stragglers => "stragglers: ",
        Count::Inside => "messages inside: ",
        Count::Across => "messages across: ",
        Count::Antimessages => "antimessages: ",
        Count::Annihilated => "annihilated: ",
        Count::Visits => "visits: ",
        Count::Meetings => "meetings: ",
        Count::Commits => "commits: ",
        Count::Chunks => "chunks: ",
        Count::Leash => "longest leash: ",
        Count::Waited => "microseconds waited: ",
    }
}

fn value_of(stats: &Stats, count: Count) -> u64
    ensures { result ≡ value_of stats.now count }
{
    match count {
        Count::Turns => stats.turns,
        Count::Sure => stats.sure,
        Count::Groups => stats.groups,
        Count::Pairs => stats.pairs,
        Count::Cut => stats.cut,
        Count::Processed => stats.processed,
        Count::Kept => stats.kept,
        Count::TakenBack => stats.taken_back,
        Count::RollBacks => stats.roll_backs,
        Count::Stragglers => stats.stragglers,
        Count::Inside => stats.inside,
        Count::Across => stats.across,
        Count::Antimessages => stats.antimessages,
        Count::Annihilated => stats.annihilated,
        Count::Visits => stats.visits,
        Count::Meetings => stats.meetings,
        Count::Commits => stats.commits,
        Count::Chunks => stats.chunks,
        Count::Leash => stats.leash,
        Count::Waited => stats.waited,
    }
}

/// Writes a line for each count, up to the first write that fails.
pub(crate) fn write_stats<E: Write>(stats: &Stats, err: &mut Counted<E>) -> Result<(), WriteFault>
    ensures ok { OnOk result (IsWritten E.contents err.old err.new (stats_text stats.now)) }
    ensures err { OnErr result (IsCut E.contents err.old err.new (stats_text stats.now)) }
{
    write_counts(
        stats,
        &[
            Count::Turns,
            Count::Sure,
            Count::Groups,
            Count::Pairs,
            Count::Cut,
            Count::Processed,
            Count::Kept,
            Count::TakenBack,
            Count::RollBacks,
            Count::Stragglers,
            Count::Inside,
            Count::Across,
            Count::Antimessages,
            Count::Annihilated,
            Count::Visits,
            Count::Meetings,
            Count::Commits,
            Count::Chunks,
            Count::Leash,
            Count::Waited,
        ],
        err,
    )
}

// The lines of these counts.
fn write_counts<E: Write>(
    stats: &Stats,
    counts: &[Count],
    err: &mut Counted<E>,
) -> Result<(), WriteFault>
    ensures ok { OnOk result (IsWritten E.contents err.old err.new
        (flat_map (count_line stats.now) counts.now)) }
    ensures err { OnErr result
        (IsCut E.contents err.old err.new (flat_map (count_line stats.now) counts.now)) }
{
    let mut rest = counts;
    while let Some((count, later)) = rest.split_first() {
        write_count(stats, *count, err)?;
        rest = later;
    }
    Ok(())
}

// The line of a count.
fn write_count<E: Write>(
    stats: &Stats,
    count: Count,
    err: &mut Counted<E>,
) -> Result<(), WriteFault>
    ensures ok { OnOk result (IsWritten E.contents err.old err.new (count_line stats.now count)) }
    ensures err { OnErr result (IsCut E.contents err.old err.new (count_line stats.now count)) }
{
    let value = value_of(stats, count);
    write_line(label_of(count).as_bytes(), value, err)
}
