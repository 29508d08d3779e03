//! A set of names.
ghost use Rattle.std.specs.Prelude.{◌≡◌, ◌||◌, [], not, bytes_eq, string_bytes, IfOk, OnOk, OnErr};
ghost use Rattle.std.specs.List.{list_any};
ghost use Rattle.ioa_trees.specs.Trees.{Bytes};
ghost use Rattle.ioa_check.specs.AutomatonViews.{used_names};

use indexmap::IndexSet;
use std::alloc::{AllocError, Global};

/// A set of names.
#[derive(Drop)]
pub struct Used {
    names: IndexSet<String>,
}

impl Used {
    /// No names.
    pub fn new(alloc: Global) -> Used
        ensures { used_names result ≡ [] }
    {
        Used {
            names: IndexSet::new(alloc),
        }
    }

    /// Whether this name is among them.
    #[tactic(auto, using(crate::proofs::Sets::found_in))]
    pub fn contains(&self, name: &str) -> bool
        ensures { result ≡ list_any (bytes_eq name.now) (used_names self.now) }
    {
        self.names.contains(name)
    }

    /// Puts a name among them; says whether it wasn't there. A refusal changes nothing.
    #[tactic(auto, using(crate::proofs::Sets::inserted_in))]
    pub fn insert(&mut self, name: &String) -> Result<bool, AllocError>
        ensures names { OnOk result ((q : Bytes)
            → list_any (bytes_eq q) (used_names self.new)
            ≡ (bytes_eq q (string_bytes name.now) || list_any (bytes_eq q) (used_names self.old))) }
        ensures fresh { IfOk result (λ b. b
            ≡ not (list_any (bytes_eq (string_bytes name.now)) (used_names self.old))) }
        ensures err { OnErr result (used_names self.new ≡ used_names self.old) }
    {
        if self.contains(name.as_str()) {
            return Ok(false);
        }
        self.names.insert(name.clone()?)?;
        Ok(true)
    }
}
