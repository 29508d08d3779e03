//! A source that was read.
ghost use Rattle.std.specs.Prelude.{◌≡◌, ◌≤◌, ◌<◌, length, IfOk};
ghost use Rattle.ioa_tokens.specs.Layout.{layout};
ghost use Rattle.ioa_trees.specs.Spelling.{spell};
ghost use Rattle.ioa_trees.specs.Views.{view_source};
ghost use Rattle.ioa_front.specs.Reading.{IsReadable, most_bytes};

use ioa_trees::tree::SourceTree;
use std::alloc::Global;
use std::marker::Model;
use terms::NoMemory;

/// A source that was read: a tree of the grammar within the limit, whose names are names and whose numbers have 63 bits, of at most
/// 65,536 tokens. Only `read` makes one.
#[derive(Drop)]
pub struct Source {
    pub(crate) tree: SourceTree,
}

impl Model for Source {
    ghost use Rattle.std.specs.Prelude.{◌≤◌, length};
    ghost use Rattle.ioa_trees.specs.declared.tree.SourceTree.{SourceTree};
    ghost use Rattle.ioa_trees.specs.Spelling.{spell};
    ghost use Rattle.ioa_trees.specs.Views.{view_source};
    ghost use Rattle.ioa_front.specs.Reading.{IsReadable, most_bytes};
    ghost use Rattle.std.specs.Coded.{codes};
    ghost use Rattle.ioa_trees.specs.contracts.tree.TypeTree as type;
    ghost use Rattle.ioa_trees.specs.contracts.tree.Term as term;
    ghost use Rattle.ioa_trees.specs.contracts.tree.Init as init;
    ghost use Rattle.ioa_trees.specs.contracts.tree.Statement as statement;

    ghost Value = { SourceTree };

    ghost coded = { Prim.hlevel (
      codes,
      type.the_row.coded,
      term.the_row.coded,
      init.the_row.coded,
      statement.the_row.coded,
    ) };

    ghost view = { λ s. s.tree };

    ghost invariant = { λ s. IsReadable (view_source s.tree)
        × (length (spell (view_source s.tree)) ≤ most_bytes) };
}

impl Source {
    /// The tree, whose tokens are readable and few; it has an automaton beside the composed one.
    pub fn tree(&self) -> &SourceTree
        ensures same { result.now ≡ self.now }
        ensures readable { IsReadable (view_source self.now) }
        ensures few { length (spell (view_source self.now)) ≤ most_bytes }
        ensures some { 0 < length (view_source self.now).automata }
    {
        &self.tree
    }

    /// The tree alone.
    pub fn into_tree(self) -> SourceTree
        ensures same { result ≡ self }
        ensures readable { IsReadable (view_source self) }
        ensures few { length (spell (view_source self)) ≤ most_bytes }
    {
        self.tree
    }
}

/// The text of a source: its tokens in their order, laid out. `NoMemory` where memory was refused.
pub fn print(alloc: Global, source: &Source) -> Result<Vec<u8>, NoMemory>
    ensures { IfOk result (λ bytes. bytes.items ≡ layout (spell (view_source source.now))) }
{
    ioa_printer::print(alloc, &source.tree)
}
