//! How an index is made.
ghost use Rattle.std.specs.Prelude.{◌≡◌, ◌<◌, ◌^◌, ◌++◌, ◌∷◌, [], ℕ, Bool as Truth, true, List, IfOk, OnOk, Contains, length, vec_len};
ghost use Rattle.std.specs.List.{list_any};
ghost use Rattle.std.specs.List.Sorted.{IsStrictlyIncreasing};
ghost use lib.Pointwise.{pointwise};
ghost use Rattle.io_automata.specs.Automata.{composed, instance_of, transition_of};
ghost use Rattle.io_automata.specs.Signatures.{same_kind};
ghost use Rattle.io_automata.specs.declared.automaton.Kind.TheVariants.{Input};
ghost use Rattle.patterns.specs.Patterns.{fixes, mask_of, asked, values_of, pattern_number, list_at, masks_in, IsListed, AreRising, Keeps, IsNoted, is_for, HasEntries, IsIndexed};

use crate::index::{Fixed, Index, fixed_as, masks_at, mixed};
use io_automata::{Automaton, Component, Entry, Kind, Param};
use std::alloc::Global;
use terms::cells::slot_of;
use terms::{NoMemory, Scalar};

// The most lists of numbers that are made.
const MOST: usize = 1 << 20;

// Makes a list for the name and each name below it.
fn make_room(alloc: Global, masks: &mut Vec<Vec<Vec<bool>>>, name: u16) -> Result<(), NoMemory>
    ensures same { OnOk result ((n : ℕ) → list_at masks.new.items n ≡ list_at masks.old.items n) }
    ensures room { OnOk result (name < length masks.new.items) }
{
    while masks.len() <= name as usize {
        masks.push(Vec::new(alloc))?;
    }
    Ok(())
}

// As many empty lists as a power of two, and about as many as are wanted.
fn lists(alloc: Global, wanted: usize) -> Result<Vec<Vec<u16>>, NoMemory>
    ensures some { IfOk result (λ lists. 0 < length lists.items) }
    ensures rising { IfOk result (λ lists. AreRising lists.items) }
{
    let count = wanted.min(MOST).next_power_of_two();
    let mut lists = Vec::with_capacity(alloc, count)?;
    lists.push(Vec::new(alloc))?;
    for _ in 1..count {
        lists.push(Vec::new(alloc))?;
    }
    Ok(lists)
}

/// Whether a list that rises still does with a number at its end.
#[inline(always)]
pub fn is_above(list: &[u16], j: u16) -> bool
    ensures { result ≡ true → IsStrictlyIncreasing list.now
        → IsStrictlyIncreasing (list.now ++ j ∷ []) }
{
    let count = list.len();
    if count == 0 {
        return true;
    }
    list[count - 1] < j
}

fn is_last(list: &[u16], j: u16) -> bool
    ensures { result ≡ true → Contains list.now j }
{
    let count = list.len();
    if count == 0 {
        return false;
    }
    list[count - 1] == j
}

// Puts a number into a list that rises, so that it still does.
fn put(list: &mut Vec<u16>, j: u16) -> Result<(), NoMemory>
    ensures rising { IsStrictlyIncreasing list.old.items → IsStrictlyIncreasing list.new.items }
    ensures kept { OnOk result ((i : ℕ) → Contains list.old.items i → Contains list.new.items i) }
    ensures noted { OnOk result (Contains list.new.items j) }
{
    if is_above(list.as_slice(), j) {
        list.push(j)?;
        return Ok(());
    }
    if is_last(list.as_slice(), j) {
        return Ok(());
    }
    put_below(list, j)
}

#[inline(never)]
fn put_below(list: &mut Vec<u16>, j: u16) -> Result<(), NoMemory>
    ensures rising { IsStrictlyIncreasing list.old.items → IsStrictlyIncreasing list.new.items }
    ensures kept { OnOk result ((i : ℕ) → Contains list.old.items i → Contains list.new.items i) }
    ensures noted { OnOk result (Contains list.new.items j) }
{
    list.push(j)?;
    list.sort_unstable();
    list.dedup();
    Ok(())
}

// Puts a number into one of the lists.
fn put_at(numbers: &mut Vec<Vec<u16>>, place: usize, j: u16) -> Result<(), NoMemory>
    requires within { place < length numbers.old.items }
    ensures many { length numbers.new.items ≡ length numbers.old.items }
    ensures rising { AreRising numbers.old.items → AreRising numbers.new.items }
    ensures kept { OnOk result ((n i : ℕ) → Contains (list_at numbers.old.items n) i
        → Contains (list_at numbers.new.items n) i) }
    ensures noted { OnOk result (Contains (list_at numbers.new.items place) j) }
{
    put(&mut numbers[place], j)
}

fn mask_of(alloc: Global, params: &[Param]) -> Result<Vec<bool>, NoMemory>
    ensures { IfOk result (λ mask. mask.items ≡ mask_of params.now) }
{
    let mut mask = Vec::with_capacity(alloc, params.len())?;
    for param in params {
        mask.push(fixes(*param))?;
    }
    Ok(mask)
}

fn fixes(param: Param) -> bool
    ensures { result ≡ fixes param }
{
    match param {
        Param::Const(_) => true,
        Param::Member(_) => false,
        Param::Between(_, _) => false,
        Param::Whole => false,
    }
}

fn asked(formals: &[Scalar], param: Param) -> Fixed
    ensures { result ≡ asked formals.now param }
{
    match param {
        Param::Const(n) => fixed_as(slot_of(formals, n)),
        Param::Member(_) => Fixed::Free,
        Param::Between(_, _) => Fixed::Free,
        Param::Whole => Fixed::Free,
    }
}

// The number of an entry's pattern.
fn number_of(name: u16, formals: &[Scalar], params: &[Param]) -> usize
    ensures { result ≡ pattern_number name (values_of formals.now params.now) }
{
    let mut number = name as usize;
    for param in params {
        number = mixed(number, asked(formals, *param));
    }
    number
}

fn has_mask(masks: &[Vec<bool>], mask: &[bool]) -> bool
    ensures { result ≡ list_any
        (λ other. pointwise ⟦<bool as PartialEq>⟧.eq other.items mask.now) masks.now }
{
    masks.iter().any(|other| other.as_slice() == mask)
}

fn note_mask(
    alloc: Global,
    masks: &mut Vec<Vec<Vec<bool>>>,
    name: u16,
    params: &[Param],
) -> Result<(), NoMemory>
    ensures kept { OnOk result ((n : ℕ) (mask : List Truth)
        → Contains (masks_in masks.old.items n) mask
        → Contains (masks_in masks.new.items n) mask) }
    ensures noted { OnOk result (Contains (masks_in masks.new.items name) (mask_of params.now)) }
{
    let mask = mask_of(alloc, params)?;
    if has_mask(masks_at(masks.as_slice(), name), mask.as_slice()) {
        return Ok(());
    }
    make_room(alloc, masks, name)?;
    masks[name as usize].push(mask)?;
    Ok(())
}

fn note_number(
    numbers: &mut Vec<Vec<u16>>,
    j: u16,
    formals: &[Scalar],
    entry: &Entry,
) -> Result<(), NoMemory>
    requires some { 0 < length numbers.old.items }
    ensures many { length numbers.new.items ≡ length numbers.old.items }
    ensures rising { AreRising numbers.old.items → AreRising numbers.new.items }
    ensures kept { OnOk result ((name i : ℕ) (values : List Fixed)
        → IsListed numbers.old.items name values i
        → IsListed numbers.new.items name values i) }
    ensures noted { OnOk result (IsListed numbers.new.items entry.now.name
        (values_of formals.now entry.now.params.items) j) }
{
    let number = number_of(entry.name, formals, entry.params.as_slice());
    let place = number & (numbers.len() - 1);
    put_at(numbers, place, j)
}

fn is_for(every: bool, kind: Kind) -> bool
    ensures { result ≡ is_for every kind }
{
    if every {
        return true;
    }
    match kind {
        Kind::Input => true,
        Kind::Output => false,
        Kind::Internal => false,
    }
}

// How many entries the components have.
fn entries_of(automata: &[Automaton], components: &[Component]) -> usize {
    let mut count = 0usize;
    for component in components {
        if let Some(automaton) = automata.get(component.automaton) {
            count = count.saturating_add(automaton.entries.len());
        }
    }
    count
}

impl Index {
    /// An index of all entries of all components if it is for `every` entry, else of the input entries.
    pub fn of(
        alloc: Global,
        automata: &[Automaton],
        components: &[Component],
        every: bool,
    ) -> Result<Index, NoMemory>
        requires few { length components.now < 2 ^ 16 }
        ensures { IfOk result (λ index. IsIndexed every index
            (composed automata.now components.now)) }
    {
        let numbers = lists(alloc, entries_of(automata, components))?;
        let mut index = Index {
            masks: Vec::new(alloc),
            numbers,
        };
        for j in 0..components.len() {
            index.note_component(alloc, j as u16, automata, &components[j], every)?;
        }
        Ok(index)
    }

    fn note_component(
        &mut self,
        alloc: Global,
        j: u16,
        automata: &[Automaton],
        component: &Component,
        every: bool,
    ) -> Result<(), NoMemory>
        requires some { 0 < length self.old.numbers }
        ensures many { length self.new.numbers ≡ length self.old.numbers }
        ensures rising { AreRising self.old.numbers → AreRising self.new.numbers }
        ensures kept { OnOk result (Keeps self.old self.new) }
        ensures noted { OnOk result (HasEntries every self.new j
            (instance_of automata.now component.now)) }
    {
        if let Some(automaton) = automata.get(component.automaton) {
            for entry in &automaton.entries {
                self.note_if(
                    alloc,
                    is_for(every, entry.kind),
                    j,
                    component.formals.as_slice(),
                    entry,
                )?;
            }
        }
        Ok(())
    }

    fn note_if(
        &mut self,
        alloc: Global,
        test: bool,
        j: u16,
        formals: &[Scalar],
        entry: &Entry,
    ) -> Result<(), NoMemory>
        requires some { 0 < length self.old.numbers }
        ensures many { length self.new.numbers ≡ length self.old.numbers }
        ensures rising { AreRising self.old.numbers → AreRising self.new.numbers }
        ensures kept { OnOk result (Keeps self.old self.new) }
        ensures noted { OnOk result (test ≡ true → IsNoted self.new formals.now j
            (transition_of entry.now)) }
    {
        if test {
            note_mask(alloc, &mut self.masks, entry.name, entry.params.as_slice())?;
            note_number(&mut self.numbers, j, formals, entry)?;
        }
        Ok(())
    }
}
