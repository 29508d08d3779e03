//! Where lines begin, and how far they are indented.
ghost use Rattle.std.specs.Prelude.{◌≡◌, ◌-◌, IfOk, length};
ghost use Rattle.ioa_layout.specs.Ink.{part_of, parts_of, piece_of};
ghost use Rattle.ioa_layout.specs.Lines.{Stand, StandAll};
ghost use Rattle.ioa_layout.specs.Gaps.{AreAllGaps, AreGaps};

use crate::gap::{Gap, Line, MOST_COLUMNS, MOST_INDENT};
use crate::item::{Below, Item, word_at};
use crate::joint::{Joint, begins_line, ends_branch, joint_at, level};
use crate::reach::{Reach, reach_from};
use crate::settling::settled;
use ioa_tokens::Word;
use std::alloc::Global;
use terms::NoMemory;

// The blanks of a level.
const LEVEL: usize = 2;

// A section, a declaration or a clause of a transition.
#[derive(Clone, Copy)]
struct Section {
    // The indent of what follows its word.
    body: usize,
    // How much further what continues a line of it is indented.
    further: usize,
    // A comma stands between two of its items.
    commas: bool,
}

// An `if` or a `for` that is open.
#[derive(Clone, Copy)]
struct Block {
    // It stands in several lines.
    broken: bool,
    // The word before its statements has come.
    entered: bool,
    // What follows its last word begins a line.
    below: bool,
    // Each of the statements that follow it begins a line.
    each: bool,
}

// What is known of a place from what stands before it.
#[derive(Drop)]
struct Outline {
    section: Section,
    blocks: Vec<Block>,
    parentheses: usize,
    // Each statement of the section, outside of blocks, begins a line.
    each: bool,
    // The last reserved word or sign, if no other token follows it.
    last: Option<Word>,
    // What stands directly before is no comment.
    follows_token: bool,
    // A block of several lines has ended, and nothing but `;` has come since.
    ended: bool,
}

fn section_of(word: Word) -> Section {
    let (body, further) = match word {
        Word::Type => (2, 0),
        Word::Input | Word::Output | Word::Internal => (8, 0),
        Word::Pre => (10, 0),
        Word::Eff => (10, 4),
        Word::States | Word::Components => (4, 4),
        _ => (4, 0),
    };
    Section {
        body,
        further,
        commas: word == Word::States,
    }
}

impl Outline {
    fn new(alloc: Global) -> Outline {
        Outline {
            section: section_of(Word::Type),
            blocks: Vec::new(alloc),
            parentheses: 0,
            each: false,
            last: None,
            follows_token: false,
            ended: false,
        }
    }

    // How many blocks there are around this place, without one whose condition goes on.
    fn depth(&self) -> usize {
        let open = self.blocks.len();
        match self.blocks.last() {
            Some(block) if !block.entered => open.saturating_sub(1),
            _ => open,
        }
    }

    // The indent of statements at this place.
    fn level(&self) -> usize {
        let deeper = self.depth().saturating_mul(LEVEL);
        self.section.body.saturating_add(deeper).min(MOST_INDENT)
    }

    // A statement, a variable or a component begins here.
    fn begins_item(&self) -> bool {
        if self.parentheses > 0 {
            return false;
        }
        match self.last {
            Some(Word::Comma) => self.section.commas,
            Some(Word::Semicolon | Word::Then | Word::Else | Word::Do) => true,
            Some(Word::States | Word::Components | Word::Eff) => true,
            _ => false,
        }
    }

    // The indent of a line that begins with such a word, or with another token.
    fn indent_of(&self, word: Option<Word>) -> usize {
        match word {
            Some(word) if begins_line(word) => level(word).saturating_mul(LEVEL),
            Some(word) if ends_branch(word) => self.level().saturating_sub(LEVEL),
            Some(Word::OpenBrace) => self.section.body,
            _ if self.begins_item() => self.level(),
            _ => self
                .level()
                .saturating_add(self.section.further)
                .min(MOST_INDENT),
        }
    }

    fn each_item(&self) -> bool {
        match self.blocks.last() {
            Some(block) => block.each,
            None => self.each,
        }
    }

    // The statements of a block begin in a line of their own.
    fn begins_below(&self) -> bool {
        match self.blocks.last() {
            Some(block) => block.below,
            None => false,
        }
    }

    // The ends of the innermost block's branches begin lines.
    fn is_broken(&self) -> bool {
        match self.blocks.last() {
            Some(block) => block.broken,
            None => false,
        }
    }

    // The next item, before which so many columns are left, begins a line.
    fn breaks(&self, items: &[Item<'_>], at: usize, joint: Joint, room: usize) -> bool {
        let fits = reach_from(items, at, joint).front < room;
        let kept = match items.get(at) {
            Some(item) => item.below != Below::SameLine,
            None => false,
        };
        match (joint, self.last) {
            (Joint::Section | Joint::Comment, _) => true,
            (Joint::Branch, _) => kept || self.is_broken(),
            (Joint::Statement, Some(Word::Then | Word::Else | Word::Do)) => {
                kept || self.begins_below()
            }
            (Joint::Statement, Some(Word::States | Word::Components)) => true,
            (Joint::Statement, _) => kept || self.each_item() || self.ended || !fits,
            (Joint::Alternative | Joint::Part, _) => kept || self.begins_item() || !fits,
            (Joint::Space, _) => !fits,
            (Joint::Bound | Joint::Touch, _) => false,
        }
    }

    // The line that begins with the item at a place, or with comments before it.
    fn line_before(&self, items: &[Item<'_>], at: usize, below: Below) -> Line {
        let word = word_at(items, at);
        let begins = word.is_some_and(begins_line) || self.begins_item() || at >= items.len();
        let ends = word.is_some_and(ends_branch);
        Line {
            apart: below == Below::Further && begins && !ends,
            indent: if at < items.len() {
                self.indent_of(word)
            } else {
                0
            },
        }
    }

    fn line_at(&self, items: &[Item<'_>], at: usize, below: Below) -> Line {
        let mut line = self.line_before(items, at, below);
        if word_at(items, at) == Some(Word::Automaton) && self.follows_token {
            line.apart = true;
        }
        line
    }

    // What stands before the item at a place, before which so many columns are left.
    fn gap(&self, items: &[Item<'_>], at: usize, item: &Item<'_>, room: usize) -> Gap {
        if item.is_comment() {
            if item.below == Below::SameLine {
                return Gap::Margin;
            }
            return Gap::Line(self.line_before(items, next_token(items, at), item.below));
        }
        let joint = joint_at(items, at);
        if self.breaks(items, at, joint, room) {
            return Gap::Line(self.line_at(items, at, item.below));
        }
        match joint {
            Joint::Touch => Gap::Nothing,
            _ => Gap::Space,
        }
    }

    // Goes past the item at a place, from which so many columns are left.
    fn pass(
        &mut self,
        items: &[Item<'_>],
        at: usize,
        item: &Item<'_>,
        room: usize,
    ) -> Result<(), NoMemory> {
        self.follows_token = !item.is_comment();
        if item.is_comment() {
            return Ok(());
        }
        self.ended = match item.word() {
            Some(Word::Fi | Word::Od) => self.is_broken(),
            Some(Word::Semicolon) => self.ended,
            _ => false,
        };
        if let Some(word) = item.word() {
            self.pass_word(items, at, word, room)?;
        }
        self.last = item.word();
        Ok(())
    }

    fn pass_word(
        &mut self,
        items: &[Item<'_>],
        at: usize,
        word: Word,
        room: usize,
    ) -> Result<(), NoMemory> {
        match word {
            Word::Open | Word::OpenBracket => {
                self.parentheses = self.parentheses.saturating_add(1);
            }
            Word::Close | Word::CloseBracket => {
                self.parentheses = self.parentheses.saturating_sub(1);
            }
            Word::If | Word::For => self.open(reach_from(items, at, Joint::Part), room)?,
            Word::Then | Word::Else => {
                let list = reach_from(items, at.saturating_add(1), Joint::Branch);
                self.enter(list, list.broken || list.width.saturating_add(4) >= room);
            }
            Word::Do => {
                let list = reach_from(items, at.saturating_add(1), Joint::Branch);
                self.enter(list, self.is_broken());
            }
            Word::Elseif => self.leave_branch(),
            Word::Fi | Word::Od => {
                let _ = self.blocks.pop();
            }
            _ if begins_line(word) => self.begin(items, at, word),
            _ => {}
        }
        Ok(())
    }

    // Opens a block, from which so many columns are left.
    fn open(&mut self, all: Reach, room: usize) -> Result<(), NoMemory> {
        let block = Block {
            broken: all.broken || all.width > room,
            entered: false,
            below: false,
            each: false,
        };
        Ok(self.blocks.push(block)?)
    }

    // Begins a section.
    fn begin(&mut self, items: &[Item<'_>], at: usize, word: Word) {
        self.section = section_of(word);
        self.blocks.clear();
        self.parentheses = 0;
        let list = reach_from(items, at.saturating_add(1), Joint::Branch);
        self.each = is_too_long(list, MOST_COLUMNS.saturating_sub(self.section.body));
    }

    // Goes from a branch to the condition of the next.
    fn leave_branch(&mut self) {
        if let Some(block) = self.blocks.last_mut() {
            block.entered = false;
        }
    }

    // Enters the statements of a block.
    fn enter(&mut self, list: Reach, below: bool) {
        let room = MOST_COLUMNS.saturating_sub(self.level().saturating_add(LEVEL));
        if let Some(block) = self.blocks.last_mut() {
            block.entered = true;
            block.below = below;
            block.each = is_too_long(list, room);
        }
    }
}

// What the writer had in one line doesn't fit in one.
fn is_too_long(list: Reach, room: usize) -> bool {
    !list.broken && list.width > room
}

// The place of the next token from a place on.
fn next_token(items: &[Item<'_>], from: usize) -> usize {
    for at in from..items.len() {
        if !items[at].is_comment() {
            return at;
        }
    }
    items.len()
}

/// What stands before each item but the first.
pub(crate) fn gaps(alloc: Global, items: &[Item<'_>]) -> Result<Vec<Gap>, NoMemory>
    ensures gaps { IfOk result (λ gaps. AreAllGaps (parts_of items.now) gaps.items) }
    ensures lines { IfOk result (λ gaps. StandAll items.now gaps.items) }
{
    let Some((first, others)) = items.split_first() else {
        return Ok(Vec::new(alloc));
    };
    let mut outline = Outline::new(alloc);
    outline.pass(items, 0, first, MOST_COLUMNS)?;
    set_others(alloc, items, first, others, outline)
}

// What stands before each of the items that follow the first.
fn set_others(
    alloc: Global,
    items: &[Item<'_>],
    first: &Item<'_>,
    others: &[Item<'_>],
    mut outline: Outline,
) -> Result<Vec<Gap>, NoMemory>
    ensures gaps { IfOk result (λ gaps. AreGaps (100 - length first.now.text.now)
        (part_of first.now) (parts_of others.now) gaps.items) }
    ensures lines { IfOk result (λ gaps. Stand (piece_of first.now.ink) others.now gaps.items) }
{
    let mut gaps = Vec::new(alloc);
    let mut before = *first;
    let mut room = MOST_COLUMNS.saturating_sub(first.text.len());
    let mut at: usize = 0;
    for item in others {
        at = at.saturating_add(1);
        let wanted = outline.gap(items, at, item, room);
        let gap = settled(wanted, outline.indent_of(item.word()), &before, item, room);
        gaps.push(gap)?;
        let left = gap.room_after(room);
        outline.pass(items, at, item, left)?;
        room = left.saturating_sub(item.text.len());
        before = *item;
    }
    Ok(gaps)
}
