//! The printer: the tokens of a tree, put on a page in their order.
#![tactic(auto)]

ghost use Rattle.std.specs.Prelude.{◌≡◌, IfOk};
ghost use Rattle.ioa_tokens.specs.Layout.{layout};
ghost use Rattle.ioa_trees.specs.Spelling.{spell};
ghost use Rattle.ioa_trees.specs.Views.{view_source};

mod actions;
mod automata;
mod names;
mod source;
mod statements;
mod term;
mod types;

use crate::source::put_source;
use ioa_tokens::Page;
use ioa_trees::tree::SourceTree;
use std::alloc::Global;
use terms::NoMemory;

/// The text of a source: its tokens in their order, laid out. `NoMemory` where memory was refused.
pub fn print(alloc: Global, source: &SourceTree) -> Result<Vec<u8>, NoMemory>
    ensures { IfOk result (λ bytes. bytes.items ≡ layout (spell (view_source source.now))) }
{
    let mut page = Page::new(alloc);
    put_source(&mut page, source)?;
    page.into_bytes()
}
