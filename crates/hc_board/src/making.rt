//! How a board is made.
ghost use Rattle.std.specs.Prelude.{◌≡◌, ◌<◌, [], IfOk, replicate};
ghost use Rattle.hc_board.specs.States.{TableId, words_of};

use crate::rule::Words;
use crate::writing::Writer;
use std::alloc::{AllocError, Global};
use std::marker::Model;
use std::sync::Arc;

/// There was no memory.
#[derive(Clone, Copy, PartialEq, Eq, Debug, Drop)]
pub struct Memory;

impl From<AllocError> for Memory {
    fn from(_: AllocError) -> Memory {
        Memory
    }
}

/// The words themselves. Contracts see which board it is, and so how many words it has.
#[derive(Drop)]
pub struct Board {
    table: Arc<Words, Global>,
    words: u32,
}

impl Model for Board {
    ghost use Rattle.std.specs.Prelude.{◌≡◌};
    ghost use Rattle.std.specs.Arc.{arc_value};
    ghost use Rattle.hc_board.specs.States.{TableId};

    ghost Value = { TableId };

    ghost view = { λ b. (arc_value b.table).shared.table_id };

    ghost invariant = { λ b. b.words ≡ (arc_value b.table).shared.table_id.words };
}

impl Board {
    /// A board of so many words, each 0, and its one writer.
    pub fn make(alloc: Global, words: u32) -> Result<(Board, Writer), Memory>
        requires some { 0 < words }
        ensures width { IfOk result (λ r. r.0.words ≡ words) }
        ensures zeros { IfOk result (λ r. words_of r.1 ≡ replicate words 0) }
        ensures writer { IfOk result (λ r. r.1 ≡ record { board = r.0; trail = []; loads = 0; met = [] }) }
    {
        let zeros = Vec::from_elem(alloc, 0u64, words as usize)?;
        let (table, seat) = Words::of_words(alloc, zeros.as_slice(), &(words as u64))?;
        let Ok(table) = Arc::new(alloc, table) else {
            return Err(Memory);
        };
        let writer = Writer::seated(Arc::try_clone(&table)?, seat, words);
        Ok((Board { table, words }, writer))
    }

    pub fn words(&self) -> u32
        ensures count { result ≡ self.now.words }
    {
        self.words
    }
}
