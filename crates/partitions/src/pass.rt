//! A pass that swaps components of two sides, so that fewer edges lead from one to the other (Kernighan and Lin, An efficient
//! heuristic procedure for partitioning graphs), by gains that are kept up to date (Fiduccia and Mattheyses, A linear-time heuristic
//! for improving network partitions).
ghost use Rattle.std.specs.Prelude.{OnOk, IsPermutation};

use crate::order::neighbours;
use crate::swap::{swap_groups, undo};
use std::alloc::Global;
use std::collections::BinaryHeap;
use terms::NoMemory;

// A pass ends after so many swaps in a row by which the cut gets no smaller than it was.
const PATIENCE: usize = 64;

/// The groups of two sides: from `low` on, from `middle` on, and below `high`.
#[derive(Clone, Copy)]
pub(crate) struct Sides {
    pub low: u16,
    pub middle: u16,
    pub high: u16,
}

#[derive(Clone, Copy, PartialEq, Eq)]
enum Side {
    Left,
    Right,
    Outside,
}

/// By how many edges the cut falls where a component changes sides. Components are ordered by that.
#[derive(Clone, Copy, PartialEq, Eq, PartialOrd, Ord)]
struct Wish {
    gain: i32,
    component: u16,
}

/// A pass: by how many edges the cut falls where a component changes sides, which have changed, and on each side the wishes of its
/// components, the greatest first. A wish whose gain is no longer the component's counts for nothing.
#[derive(Drop)]
pub(crate) struct Pass {
    gains: Vec<i32>,
    settled: Vec<bool>,
    left: BinaryHeap<Wish>,
    right: BinaryHeap<Wish>,
}

impl Sides {
    fn side(self, group: u16) -> Side {
        if group < self.low || self.high <= group {
            Side::Outside
        } else if group < self.middle {
            Side::Left
        } else {
            Side::Right
        }
    }

    fn side_of(self, group_of: &[u16], i: u16) -> Side {
        match group_of.get(usize::from(i)) {
            Some(group) => self.side(*group),
            None => Side::Outside,
        }
    }
}

impl Pass {
    /// Room for a pass over so many components.
    pub fn new(alloc: Global, components: usize) -> Result<Pass, NoMemory> {
        let gains = vec![in alloc; 0i32; components]?;
        let settled = vec![in alloc; false; components]?;
        Ok(Pass {
            gains,
            settled,
            left: BinaryHeap::new(alloc),
            right: BinaryHeap::new(alloc),
        })
    }

    /// Swaps members of two sides, and leaves those swaps by which the cut is smallest. The answer is whether it is smaller than
    /// before.
    pub fn improve(
        &mut self,
        alloc: Global,
        beside: &[Vec<u16>],
        sides: Sides,
        members: &[u16],
        group_of: &mut Vec<u16>,
    ) -> Result<bool, NoMemory>
        ensures { OnOk result (IsPermutation group_of.old.items group_of.new.items) }
    {
        self.begin(beside, sides, members, group_of.as_slice())?;
        let mut swaps: Vec<(u16, u16)> = Vec::new(alloc);
        let mut saved = 0i32;
        let mut most = 0i32;
        let mut kept = 0usize;
        for _ in 0..members.len() {
            if swaps.len().saturating_sub(kept) > PATIENCE {
                break;
            }
            let Some((a, b)) = self.pair() else {
                break;
            };
            saved = saved.saturating_add(self.gain_of_both(beside, a, b));
            self.leave(beside, sides, a, group_of.as_slice())?;
            self.leave(beside, sides, b, group_of.as_slice())?;
            swap_groups(group_of, usize::from(a), usize::from(b));
            swaps.push((a, b))?;
            if saved > most {
                most = saved;
                kept = swaps.len();
            }
        }
        undo(group_of, swaps.as_slice(), kept);
        Ok(most > 0)
    }

    fn begin(
        &mut self,
        beside: &[Vec<u16>],
        sides: Sides,
        members: &[u16],
        group_of: &[u16],
    ) -> Result<(), NoMemory> {
        self.left.clear();
        self.right.clear();
        for i in members {
            let side = sides.side_of(group_of, *i);
            let mut gain = 0i32;
            for j in neighbours(beside, *i) {
                gain = gain.saturating_add(drawn(side, sides.side_of(group_of, *j)));
            }
            self.set(*i, gain);
            self.wish(side, *i, gain)?;
        }
        Ok(())
    }

    fn set(&mut self, i: u16, gain: i32) {
        let place = usize::from(i);
        if place < self.gains.len() {
            self.gains[place] = gain;
        }
        if place < self.settled.len() {
            self.settled[place] = false;
        }
    }

    fn wish(&mut self, side: Side, component: u16, gain: i32) -> Result<(), NoMemory> {
        let wish = Wish { gain, component };
        match side {
            Side::Left => self.left.push(wish)?,
            Side::Right => self.right.push(wish)?,
            Side::Outside => {}
        }
        Ok(())
    }

    // The two that gain most by changing sides. They are settled then.
    fn pair(&mut self) -> Option<(u16, u16)> {
        let a = greatest(&mut self.left, self.gains.as_slice(), &mut self.settled)?;
        let b = greatest(&mut self.right, self.gains.as_slice(), &mut self.settled)?;
        Some((a, b))
    }

    fn gain(&self, i: u16) -> i32 {
        match self.gains.get(usize::from(i)) {
            Some(gain) => *gain,
            None => 0,
        }
    }

    // An edge between the two is cut before and after.
    fn gain_of_both(&self, beside: &[Vec<u16>], a: u16, b: u16) -> i32 {
        let mut gain = self.gain(a).saturating_add(self.gain(b));
        for j in neighbours(beside, a) {
            if *j == b {
                gain = gain.saturating_sub(2);
            }
        }
        gain
    }

    // A component leaves its side, so its neighbours there gain by following it.
    fn leave(
        &mut self,
        beside: &[Vec<u16>],
        sides: Sides,
        i: u16,
        group_of: &[u16],
    ) -> Result<(), NoMemory> {
        let left = sides.side_of(group_of, i);
        for j in neighbours(beside, i) {
            let side = sides.side_of(group_of, *j);
            let change = drawn(left, side).saturating_mul(-2);
            self.change(side, *j, change)?;
        }
        Ok(())
    }

    fn change(&mut self, side: Side, j: u16, change: i32) -> Result<(), NoMemory> {
        let place = usize::from(j);
        if place < self.gains.len() && place < self.settled.len() && !self.settled[place] {
            let gain = self.gains[place].saturating_add(change);
            self.gains[place] = gain;
            self.wish(side, j, gain)?;
        }
        Ok(())
    }
}

// What a neighbour on a side adds to the gain of a component.
fn drawn(side: Side, other: Side) -> i32 {
    if other == Side::Outside {
        0
    } else if side == other {
        -1
    } else {
        1
    }
}

// The component whose wish is greatest.
fn greatest(wishes: &mut BinaryHeap<Wish>, gains: &[i32], settled: &mut Vec<bool>) -> Option<u16> {
    for _ in 0..wishes.len() {
        let wish = wishes.pop()?;
        let place = usize::from(wish.component);
        if place < gains.len()
            && place < settled.len()
            && gains[place] == wish.gain
            && !settled[place]
        {
            settled[place] = true;
            return Some(wish.component);
        }
    }
    None
}
