//! The marks of a session, one for each command.
ghost use Rattle.std.specs.Prelude.{◌≡◌, [], ◌∷◌, ◌++◌, length, slice_get, option_copied, OnOk, OnErr};

use hc_value::Memory;
use std::alloc::Global;
use std::marker::Model;

/// What stood when a command began: how many writes there were, how many entries the list of met readers had, how
/// many lines the log had, and how many slots were handed out.
#[derive(Clone, Copy)]
pub struct Mark {
    pub at: u64,
    pub met: u64,
    pub lines: u64,
    pub slots: u32,
}

/// The marks so far.
#[derive(Drop)]
pub struct Marks {
    items: Vec<Mark>,
}

impl Model for Marks {
    ghost use Rattle.std.specs.Prelude.{List};
    ghost use Rattle.hc_report.specs.declared.marks.Mark.{Mark};

    ghost Value = { List Mark };

    ghost view = { λ marks. marks.items.items };
}

impl Marks {
    pub fn new(alloc: Global) -> Marks
        ensures { result ≡ [] }
    {
        Marks {
            items: Vec::new(alloc),
        }
    }

    pub fn len(&self) -> u64
        ensures { result ≡ length self.now }
    {
        self.items.len() as u64
    }

    /// The mark at a place; `None` exactly past the end.
    pub fn at(&self, i: u64) -> Option<&Mark>
        ensures { option_copied result ≡ slice_get self.now i }
    {
        self.items.get(i as usize)
    }

    /// Puts a mark last.
    pub fn push(&mut self, mark: Mark) -> Result<(), Memory>
        ensures ok { OnOk result (self.new ≡ self.old ++ mark ∷ []) }
        ensures err { OnErr result (self.new ≡ self.old) }
    {
        self.items.push(mark)?;
        Ok(())
    }
}
