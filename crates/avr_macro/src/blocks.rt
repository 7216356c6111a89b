//! The blocks of each kind.

ghost use Rattle.std.specs.Prelude.{IfOk};
ghost use Rattle.std.specs.Option.{option_copied};
ghost use Rattle.avr_macro.specs.AtSigns.{filled};
ghost use Rattle.avr_macro.specs.Kinds.{AreBlocks};

use crate::arguments::Substitution;
use crate::directives::Word;
use crate::ends::{Block, blocks_of};
use crate::kept_lines::Lines;
use std::alloc::{AllocError, Global};

/// Blocks that are closed, each kind by its first lines.
#[derive(Drop)]
pub(crate) struct Blocks {
    pub macros: Vec<Block>,
    pub repeats: Vec<Block>,
    pub conditions: Vec<Block>,
}

impl Blocks {
    /// Those of lines, in a call or as they are. No line is made.
    pub fn new(
        alloc: Global,
        lines: &Lines,
        substitution: Option<&Substitution>,
    ) -> Result<Blocks, AllocError>
        ensures { IfOk result (λ blocks. AreBlocks (filled (option_copied substitution.entry) lines.now) blocks) }
    {
        let macros = blocks_of(alloc, lines, substitution, Word::Macro, Word::EndMacro)?;
        let repeats = blocks_of(alloc, lines, substitution, Word::Repeat, Word::EndRepeat)?;
        let conditions = blocks_of(alloc, lines, substitution, Word::If, Word::EndIf)?;
        Ok(Blocks {
            macros,
            repeats,
            conditions,
        })
    }
}
