//! What the service answers, beside what a case wants.

use crate::given::Given;
use crate::narrow::Narrow;
use cases::{CREWS, Case, with_crew};
use commands::Looks;
use service::serve::{serve, serve_person};
use std::alloc::{AllocError, Global};
use std::sync::Wait;
use std::sync::atomic::{AtomicU64, Ordering};
use std::thread::Threads;
use std::time::Clock;
use trace::Counted;

// How many seeds were looked at.
#[derive(Drop)]
struct Tally {
    looked: AtomicU64,
}

impl Looks for Tally {
    fn looked(&self) {
        self.looked.fetch_add(1, Ordering::SeqCst);
    }
}

/// What the service answered: its status, what it wrote and said, whether the output was flushed at last, and how many seeds were looked at.
#[derive(Drop)]
pub struct Answer {
    pub status: u8,
    pub out: Vec<u8>,
    pub err: Vec<u8>,
    is_flushed: bool,
    looked: u64,
}

/// Where the service answers.
#[derive(Clone, Copy)]
pub struct Place {
    /// How many bytes the output takes.
    pub room: usize,
    /// Whether the output fails to flush.
    pub is_stuck: bool,
    /// Whether a person reads what is said.
    pub is_person: bool,
}

/// Asks the service with these words.
pub fn ask<R: Threads + Wait + Sync + Clock>(
    rt: &R,
    alloc: Global,
    words: &[String],
    given: Given,
    place: Place,
) -> Answer {
    let tally = Tally {
        looked: AtomicU64::new(0),
    };
    let mut out = Counted::new(Narrow::new(Vec::new(alloc), place.room, place.is_stuck));
    let mut err = Counted::new(Vec::new(alloc));
    let status = if place.is_person {
        serve_person(rt, alloc, words, &given, &tally, &mut out, &mut err)
    } else {
        serve(rt, alloc, words, &given, &tally, &mut out, &mut err)
    };
    let narrow = out.into_inner();
    Answer {
        status,
        is_flushed: narrow.is_flushed,
        out: narrow.held,
        err: err.into_inner(),
        looked: tally.looked.load(Ordering::SeqCst),
    }
}

impl Answer {
    // Whether all is done by this status: of what is refused only `explain` writes anything. Then what was written is flushed, and only then.
    fn is_done(&self) -> bool {
        self.status == 0 || self.status == 4 || (self.status == 1 && !self.out.is_empty())
    }

    // Whether this is what the case wants; any number of seeds will do where it says none.
    fn is_right(&self, alloc: Global, case: &Case) -> Result<bool, AllocError> {
        let has_looked = match case.number("looked") {
            None => true,
            Some(wanted) => self.looked == wanted,
        };
        let is_right = case.number("status") == Some(u64::from(self.status))
            && self.is_flushed == self.is_done()
            && has_looked;
        let out_is_right = case.has_text(alloc, "stdout", self.out.as_slice())?;
        let err_is_right = case.has_text(alloc, "stderr", self.err.as_slice())?;
        Ok(is_right && out_is_right && err_is_right)
    }
}

/// Whether a case comes out as it should. Where workers are asked for it may wait.
pub fn comes_out<R: Threads + Wait + Sync + Clock>(
    rt: &R,
    alloc: Global,
    case: &Case,
) -> Result<bool, AllocError> {
    match case.is_judged(alloc)? {
        Some(is_right) => Ok(is_right),
        None => is_served(rt, alloc, case),
    }
}

// Whether the service answers with the wanted status and texts: to the words of the case, and to a run for each crew with every other one.
fn is_served<R: Threads + Wait + Sync + Clock>(
    rt: &R,
    alloc: Global,
    case: &Case,
) -> Result<bool, AllocError> {
    let words = case.words(alloc)?;
    if !is_answered(rt, alloc, case, words.as_slice())? {
        return Ok(false);
    }
    if !case.is_for_each_crew(words.as_slice()) {
        return Ok(true);
    }
    for (groups, budget) in CREWS {
        let crewed = with_crew(alloc, words.as_slice(), groups, budget)?;
        if !is_answered(rt, alloc, case, crewed.as_slice())? {
            return Ok(false);
        }
    }
    Ok(true)
}

fn is_answered<R: Threads + Wait + Sync + Clock>(
    rt: &R,
    alloc: Global,
    case: &Case,
    words: &[String],
) -> Result<bool, AllocError> {
    if !case.has("files") {
        return Ok(false);
    }
    let place = Place {
        room: case.number("room").unwrap_or(u64::MAX) as usize,
        is_stuck: case.has("stuck"),
        is_person: case.has("person"),
    };
    let answer = ask(rt, alloc, words, Given::Case(case), place);
    let is_right = answer.is_right(alloc, case);
    drop(answer);
    is_right
}
