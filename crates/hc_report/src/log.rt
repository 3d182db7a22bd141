//! The log of a session.
ghost use Rattle.std.specs.Prelude.{◌≡◌, ◌+◌, ◌<◌, ◌≤◌, [], ◌∷◌, ◌++◌, length, slice_get, option_copied, IsOk, OnOk, OnErr};

use crate::line::Line;
use hc_value::Memory;
use std::alloc::Global;
use std::marker::Model;

/// The lines so far, each with how many writes there were when it was put, and room for more.
#[derive(Drop)]
pub struct Log {
    items: Vec<(u64, Line)>,
}

impl Model for Log {
    ghost use Rattle.std.specs.Prelude.{◌-◌, vec_len, vec_capacity};
    ghost use Rattle.hc_report.specs.Logs.{Logged};

    ghost Value = { Logged };

    ghost view = { λ log. record { lines = log.items.items; room = vec_capacity log.items - vec_len log.items } };
}

impl Log {
    /// No line, and no room.
    pub fn new(alloc: Global) -> Log
        ensures { result.lines ≡ [] }
    {
        Log {
            items: Vec::new(alloc),
        }
    }

    pub fn len(&self) -> u64
        ensures { result ≡ length self.now.lines }
    {
        self.items.len() as u64
    }

    /// The line at a place, with its number of writes; `None` exactly past the end.
    pub fn at(&self, i: u64) -> Option<&(u64, Line)>
        ensures { option_copied result ≡ slice_get self.now.lines i }
    {
        self.items.get(i as usize)
    }

    /// Takes the memory for so many more lines. The room grows with the log, so that lines are seldom moved.
    pub fn reserve(&mut self, n: u64) -> Result<(), Memory>
        ensures ok { OnOk result (n ≤ self.new.room) }
        ensures lines { self.new.lines ≡ self.old.lines }
        ensures room { self.old.room ≤ self.new.room }
        ensures enough { n ≤ self.old.room → IsOk result }
        ensures err { OnErr result (self.new ≡ self.old) }
    {
        self.items.reserve(n as usize)?;
        Ok(())
    }

    /// Puts a line last.
    pub fn push(&mut self, at: u64, line: Line)
        requires room { 0 < self.old.room }
        ensures lines { self.new.lines ≡ self.old.lines ++ (at, line) ∷ [] }
        ensures room { self.new.room + 1 ≡ self.old.room }
    {
        self.items.push_reserved((at, line));
    }
}
