//! A scope of names.
ghost use Rattle.std.specs.Prelude.{◌≡◌, [], IfOk, OnOk, OnErr, string_bytes, length, not, option_map, take};
ghost use Rattle.std.specs.Option.{is_some};
ghost use Rattle.ioa_trees.specs.Scopes.{named, declare};
ghost use Rattle.ioa_typing.specs.NameViews.{meaning_tree, names_tree};

use crate::meaning::Meaning;
use indexmap::IndexMap;
use std::alloc::{AllocError, Global};

/// Names in the order of their declarations, each with what it means. No name stands twice.
#[derive(Drop)]
pub struct Names {
    table: IndexMap<String, Meaning>,
}

impl Names {
    /// No names.
    pub fn new(alloc: Global) -> Names
        ensures { names_tree result ≡ [] }
    {
        Names {
            table: IndexMap::new(alloc),
        }
    }

    /// How many names there are.
    pub fn len(&self) -> usize
        ensures { result ≡ length (names_tree self.now) }
    {
        self.table.len()
    }

    /// What this name means.
    #[tactic(auto, using(crate::proofs::Scopes::scopes))]
    pub fn get(&self, name: &str) -> Option<&Meaning>
        ensures { option_map (λ m. meaning_tree m.now) result
            ≡ named name.now (names_tree self.now) }
    {
        self.table.get(name)
    }

    /// Declares a name, unless it has a meaning; says whether it had none. A refusal changes nothing.
    #[tactic(auto, using(crate::proofs::Scopes::scopes))]
    pub fn declare(&mut self, name: &String, meaning: Meaning) -> Result<bool, AllocError>
        ensures names { OnOk result (names_tree self.new
            ≡ declare (string_bytes name.now) (meaning_tree meaning) (names_tree self.old)) }
        ensures fresh { IfOk result (λ b. b
            ≡ not (is_some (named (string_bytes name.now) (names_tree self.old)))) }
        ensures err { OnErr result (names_tree self.new ≡ names_tree self.old) }
    {
        if self.get(name.as_str()).is_some() {
            drop(meaning);
            return Ok(false);
        }
        let name = match name.clone() {
            Ok(name) => name,
            Err(refused) => {
                drop(meaning);
                return Err(refused);
            }
        };
        let former = self.table.insert(name, meaning)?;
        drop(former);
        Ok(true)
    }

    /// Forgets all names but the first ones.
    pub fn truncate(&mut self, len: usize)
        ensures { names_tree self.new ≡ take len (names_tree self.old) }
    {
        self.table.truncate(len);
    }
}
