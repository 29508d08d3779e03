//! Sources that are drawn by a grammar.

use anyhow::Result;
use rand_core::Rng;
use rand_pcg::Lcg64Xsh32;
use std::alloc::Global;

// So deep do ways stand in one another at most, and from so many levels above that on a capital letter takes its first way.
const DEEPEST: u32 = 13;

const LAST_LEVELS: u32 = 6;

// So many entries have numbers, and each has so many.
const ENTRIES: usize = 6;

const NUMBERS: usize = 8;

/// A sign and the ways that it has.
#[derive(Drop)]
struct Rule<'a> {
    sign: char,
    ways: Vec<&'a str>,
}

/// A grammar, by which sources are drawn at random. `crates/vectors/data/solved.grammar` says at its head what its lines mean.
#[derive(Drop)]
pub struct Grammar<'a> {
    rules: Vec<Rule<'a>>,
}

// What the next sign of a way is.
#[derive(Clone, Copy)]
enum Next {
    Text,
    Drawn,
    Number,
    ByNumber(usize),
    Entry,
}

// What is drawn.
#[derive(Drop)]
struct Drawing {
    random: Lcg64Xsh32,
    numbers: Vec<u32>,
    entry: char,
    source: String,
}

impl<'a> Grammar<'a> {
    /// The grammar of a text.
    pub fn read(alloc: Global, text: &'a str) -> Result<Grammar<'a>> {
        let mut rules = Vec::new(alloc);
        for line in text.lines() {
            if let Some((sign, ways)) = line.split_once(' ') {
                rules.push(read_rule(alloc, sign, ways)?)?;
            }
        }
        Ok(Grammar { rules })
    }

    /// The source of this number.
    pub fn source(&self, alloc: Global, number: u64) -> Result<String> {
        let mut numbers = Vec::new(alloc);
        let mut random = Lcg64Xsh32::new(number, 1);
        for _ in 0..ENTRIES * NUMBERS {
            numbers.push(random.next_u32())?;
        }
        let mut drawing = Drawing {
            random: Lcg64Xsh32::new(number, 2),
            numbers,
            entry: '0',
            source: String::new(alloc),
        };
        put(self, "@S", DEEPEST, &mut drawing)?;
        Ok(drawing.source)
    }

    // The way at a place, modulo their number, of a sign.
    fn way(&self, sign: char, place: usize) -> &str {
        match self.rules.iter().find(|rule| rule.sign == sign) {
            Some(rule) => nth(rule.ways.as_slice(), place),
            None => "",
        }
    }
}

fn read_rule<'a>(alloc: Global, sign: &str, ways: &'a str) -> Result<Rule<'a>> {
    let mut rule = Rule {
        sign: sign.chars().next().unwrap_or(' '),
        ways: Vec::new(alloc),
    };
    for way in ways.split('|') {
        rule.ways.push(way)?;
    }
    Ok(rule)
}

fn nth<'a>(ways: &[&'a str], place: usize) -> &'a str {
    match ways.get(place % ways.len().max(1)) {
        Some(way) => way,
        None => "",
    }
}

fn digit(sign: char) -> usize {
    sign.to_digit(10).unwrap_or(0) as usize
}

// Puts what a way stands for at the end of the source.
fn put(grammar: &Grammar, way: &str, levels: u32, drawing: &mut Drawing) -> Result<()> {
    let mut next = Next::Text;
    for sign in way.chars() {
        let place = match next {
            Next::Text => {
                next = drawing.put_sign(sign)?;
                continue;
            }
            Next::Number => {
                next = Next::ByNumber(digit(sign));
                continue;
            }
            Next::Entry => {
                drawing.entry = sign;
                next = Next::Text;
                continue;
            }
            Next::Drawn => drawing.place(sign, levels),
            Next::ByNumber(number) => drawing.number(number),
        };
        next = Next::Text;
        if levels > 0 {
            put(grammar, grammar.way(sign, place), levels - 1, drawing)?;
        }
    }
    Ok(())
}

impl Drawing {
    // Puts a sign of a text, or says what the one after it is.
    fn put_sign(&mut self, sign: char) -> Result<Next> {
        match sign {
            '@' => return Ok(Next::Drawn),
            '#' => return Ok(Next::Number),
            '$' => return Ok(Next::Entry),
            '~' => self.source.push(self.entry)?,
            other => self.source.push(other)?,
        }
        Ok(Next::Text)
    }

    // Which way of a sign is taken.
    fn place(&mut self, sign: char, levels: u32) -> usize {
        if levels <= LAST_LEVELS && sign.is_ascii_uppercase() {
            return 0;
        }
        self.random.next_u32() as usize
    }

    // A number of the entry.
    fn number(&self, number: usize) -> usize {
        let first = digit(self.entry).saturating_mul(NUMBERS);
        match self.numbers.get(first.saturating_add(number)) {
            Some(number) => *number as usize,
            None => 0,
        }
    }
}
