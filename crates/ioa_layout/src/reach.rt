//! How far something reaches, if it stands in one line.

use crate::item::{Below, Item};
use crate::joint::{Joint, joint_at};
use ioa_tokens::Word;

/// What stands from a place up to the next joint of a kind.
#[derive(Clone, Copy)]
pub(crate) struct Reach {
    /// Its columns in one line.
    pub width: usize,
    /// Those up to the first place at which the writer broke it and it may be broken.
    pub front: usize,
    /// The writer had it in several lines.
    pub broken: bool,
}

// How deep in pairs a place stands, from where the reach begins.
#[derive(Clone, Copy, PartialEq, Eq)]
enum Depth {
    Outside,
    Level,
    Inside(usize),
}

fn opens(word: Word) -> bool {
    match word {
        Word::If | Word::For | Word::Open | Word::OpenBracket | Word::OpenBrace => true,
        _ => false,
    }
}

fn closes(word: Word) -> bool {
    match word {
        Word::Fi | Word::Od | Word::Close | Word::CloseBracket | Word::CloseBrace => true,
        _ => false,
    }
}

impl Depth {
    fn after(self, word: Option<Word>) -> Depth {
        match word {
            Some(word) if opens(word) => self.deeper(),
            Some(word) if closes(word) => self.higher(),
            _ => self,
        }
    }

    fn deeper(self) -> Depth {
        match self {
            Depth::Outside => Depth::Outside,
            Depth::Level => Depth::Inside(1),
            Depth::Inside(depth) => Depth::Inside(depth.saturating_add(1)),
        }
    }

    fn higher(self) -> Depth {
        match self {
            Depth::Outside => Depth::Outside,
            Depth::Level => Depth::Outside,
            Depth::Inside(depth) if depth > 1 => Depth::Inside(depth.saturating_sub(1)),
            Depth::Inside(_) => Depth::Level,
        }
    }

    // The reach ends before a joint.
    fn ends_at(self, here: Joint, last: Joint) -> bool {
        if last == Joint::Space {
            return here <= Joint::Space;
        }
        match self {
            Depth::Outside => here <= Joint::Bound,
            Depth::Level => here <= last,
            Depth::Inside(_) => here == Joint::Section,
        }
    }
}

/// The reach from a place up to the next joint that holds no tighter than `last`, in the same pair. A pair is not left
/// but by what touches its end. With `Joint::Space`, up to the next place where a line may be broken.
pub(crate) fn reach_from(items: &[Item<'_>], from: usize, last: Joint) -> Reach {
    let mut reach = Reach {
        width: 0,
        front: 0,
        broken: false,
    };
    let mut depth = Depth::Level;
    let mut in_front = true;
    for at in from..items.len() {
        let item = items[at];
        if at > from {
            let here = joint_at(items, at);
            if depth.ends_at(here, last) {
                break;
            }
            let kept = here == Joint::Comment || item.below != Below::SameLine;
            reach.broken = reach.broken || kept;
            in_front = in_front && !(kept && here <= Joint::Part);
            reach.width = reach.width.saturating_add(blanks(here));
        }
        reach.width = reach.width.saturating_add(item.text.len());
        if in_front {
            reach.front = reach.width;
        }
        depth = depth.after(item.word());
    }
    reach
}

// How many blanks stand at a joint within a line.
fn blanks(joint: Joint) -> usize {
    match joint {
        Joint::Touch => 0,
        _ => 1,
    }
}
