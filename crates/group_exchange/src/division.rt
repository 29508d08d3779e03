//! Partitions of a plan's components into groups between which few messages go.
ghost use Rattle.std.specs.Prelude.{◌≡◌, IfOk, length, max, min};
ghost use Rattle.plans.specs.Plans.{composition};
ghost use Rattle.partitions.specs.Groups.{group_count, groups_of};
ghost use Rattle.partitions.specs.Partitions.{AreEven, IsPartition};

use io_automata::{Entry, Kind, Param};
use partitions::{Cut, Partition};
use plans::Plan;
use std::alloc::Global;
use terms::{Listed, NoMemory, Scalar};

// Of which sort scalars are.
#[derive(Clone, Copy, PartialEq, Eq, PartialOrd, Ord)]
enum Sort {
    Number,
    Truth,
    Member,
}

// Scalars of one sort from the first to the last, in their order.
#[derive(Clone, Copy)]
struct Span {
    sort: Sort,
    first: i64,
    last: i64,
}

fn span_of_value(value: Scalar) -> Span {
    let (sort, place) = match value {
        Scalar::Int(number) => (Sort::Number, number),
        Scalar::Bool(truth) => (Sort::Truth, i64::from(truth)),
        Scalar::Member(member) => (Sort::Member, i64::from(member)),
    };
    Span {
        sort,
        first: place,
        last: place,
    }
}

fn span_of_listed(listed: Listed) -> Span {
    let (sort, first, count) = match listed {
        Listed::Bool => (Sort::Truth, 0, 2),
        Listed::Range { low, count } => (Sort::Number, low, count),
        Listed::Enumeration { first, count } => (Sort::Member, i64::from(first), count),
    };
    Span {
        sort,
        first,
        last: first.saturating_add(i64::from(count).saturating_sub(1)),
    }
}

// The scalars that a parameter can have in a component with these formals.
fn span_of(param: Param, formals: &[Scalar]) -> Span {
    match param {
        Param::Const(formal) => match formals.get(formal) {
            Some(value) => span_of_value(*value),
            None => span_of_value(Scalar::default()),
        },
        Param::Member(listed) => span_of_listed(listed),
        Param::Between(first, last) => Span {
            sort: Sort::Number,
            first,
            last,
        },
        Param::Whole => Span {
            sort: Sort::Number,
            first: i64::MIN,
            last: i64::MAX,
        },
    }
}

fn do_meet(one: Span, other: Span) -> bool {
    one.sort == other.sort && one.first <= other.last && other.first <= one.last
}

// Whether entries of components with these formals stand for an action that is the same.
fn share(one: &Entry, formals: &[Scalar], other: &Entry, others: &[Scalar]) -> bool {
    one.name == other.name
        && one.params.iter().zip(other.params.iter()).all(|(a, b)| do_meet(
            span_of(*a, formals),
            span_of(*b, others),
        ))
}

// What the first parameter of an entry can be. Without parameters all entries of a name are alike.
fn first_span(entry: &Entry, formals: &[Scalar]) -> Span {
    match entry.params.first() {
        Some(param) => span_of(*param, formals),
        None => span_of_value(Scalar::default()),
    }
}

// An input of a component: its name, what its first parameter can be, and its place among the component's entries.
#[derive(Clone, Copy, PartialEq, Eq, PartialOrd, Ord)]
struct Input {
    name: u16,
    sort: Sort,
    first: i64,
    last: i64,
    component: u16,
    entry: usize,
}

// All inputs in order, and with each the greatest of its name and sort that the first parameter of one up to it can be.
#[derive(Drop)]
struct Inputs {
    all: Vec<Input>,
    reaches: Vec<i64>,
}

fn inputs_of(alloc: Global, plan: &Plan) -> Result<Inputs, NoMemory> {
    let mut all = Vec::new(alloc);
    for component in 0..plan.components() {
        for (place, entry) in plan.entries(component).iter().enumerate() {
            if entry.kind == Kind::Input {
                all.push(input_at(entry, plan.formals(component), component, place))?;
            }
        }
    }
    all.sort_unstable();
    let reaches = reaches_of(alloc, all.as_slice())?;
    Ok(Inputs { all, reaches })
}

fn input_at(entry: &Entry, formals: &[Scalar], component: u16, place: usize) -> Input {
    let span = first_span(entry, formals);
    Input {
        name: entry.name,
        sort: span.sort,
        first: span.first,
        last: span.last,
        component,
        entry: place,
    }
}

fn is_like(one: &Input, other: &Input) -> bool {
    one.name == other.name && one.sort == other.sort
}

fn reaches_of(alloc: Global, all: &[Input]) -> Result<Vec<i64>, NoMemory> {
    let mut reaches = Vec::new(alloc);
    let mut before: Option<(Input, i64)> = None;
    for input in all {
        let reach = match before {
            Some((other, reach)) if is_like(&other, input) => reach.max(input.last),
            _ => input.last,
        };
        before = Some((*input, reach));
        reaches.push(reach)?;
    }
    Ok(reaches)
}

// Notes the components that have an input for which an output of component `i` stands.
fn put_receivers(
    plan: &Plan,
    i: u16,
    output: &Entry,
    inputs: &Inputs,
    to: &mut Vec<u16>,
) -> Result<(), NoMemory> {
    let span = first_span(output, plan.formals(i));
    let key = (output.name, span.sort, span.last);
    let end = inputs
        .all
        .partition_point(|input| (input.name, input.sort, input.first) <= key);
    for (input, reach) in inputs.all[..end].iter().zip(inputs.reaches.iter()).rev() {
        if input.name != output.name || input.sort != span.sort || *reach < span.first {
            break;
        }
        if input.component != i && takes(plan, i, output, input) {
            to.push(input.component)?;
        }
    }
    Ok(())
}

// Whether an output of component `i` stands for an action that this input takes.
fn takes(plan: &Plan, i: u16, output: &Entry, input: &Input) -> bool {
    match plan.entries(input.component).get(input.entry) {
        None => false,
        Some(entry) => share(
            output,
            plan.formals(i),
            entry,
            plan.formals(input.component),
        ),
    }
}

// Of each component those to which it can send.
fn sent(alloc: Global, plan: &Plan) -> Result<Vec<Vec<u16>>, NoMemory> {
    let inputs = inputs_of(alloc, plan)?;
    let mut all = Vec::new(alloc);
    for i in 0..plan.components() {
        let mut to = Vec::new(alloc);
        for entry in plan.entries(i) {
            if entry.kind == Kind::Output {
                put_receivers(plan, i, entry, &inputs, &mut to)?;
            }
        }
        to.sort_unstable();
        to.dedup();
        all.push(to)?;
    }
    Ok(all)
}

/// A partition of a plan's components into groups, and what it cuts: how many pairs there are of a component and one to which it can send,
/// and how many of these pairs are in two groups.
#[derive(Drop)]
pub struct Parted {
    pub partition: Partition,
    pub cut: Cut,
}

/// Puts the components of a plan into so many groups, but one at least and no more than components. Groups are even, and few components of one
/// can send to those of another, as far as is found in time that grows little faster than their number and that of the pairs that do so. For
/// one group no pairs are looked for, and the cut counts none.
pub fn partition_of(alloc: Global, plan: &Plan, groups: u16) -> Result<Parted, NoMemory>
    ensures partition { IfOk result (λ parted. IsPartition (length (composition plan.now))
        (group_count parted.partition) (groups_of parted.partition)) }
    ensures even { IfOk result
        (λ parted. AreEven (group_count parted.partition) (groups_of parted.partition)) }
    ensures count { IfOk result (λ parted. group_count parted.partition
        ≡ min (max groups 1) (length (composition plan.now))) }
{
    let edges = if groups <= 1 {
        Vec::new(alloc)
    } else {
        sent(alloc, plan)?
    };
    let partition = Partition::of(alloc, plan.components(), edges.as_slice(), groups)?;
    let cut = partition.cut(edges.as_slice());
    Ok(Parted { partition, cut })
}
