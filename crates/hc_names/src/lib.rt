//! Names: each text is stored once, and has the number of its place in the order of first interning.
#![tactic(auto)]

ghost use Rattle.std.specs.Prelude.{◌≡◌, ◌<◌, ◌≤◌, ◌↔◌, [], ◌∷◌, ◌++◌, false, if◌then◌else◌, length, slice_get, option_copied, IsTrue, IsOk, IfSome, IfOk, OnOk, OnErr, IsErrOf};
ghost use Rattle.hc_names.specs.Names.{has_text, number_of, with_text, HasNoRepeats, KeepsNumbers};

pub mod laws;

use indexmap::IndexSet;
use std::alloc::Global;
use std::marker::Model;
use thiserror::Error;

/// How many different texts can be interned.
pub const MAX_NAMES: u32 = 1_048_576;

/// Why a text was not interned.
#[derive(Clone, Copy, Debug, PartialEq, Eq, Error)]
pub enum NameFault {
    #[error("out of memory")]
    Memory,
    #[error("there are {MAX_NAMES} names already")]
    Full,
}

/// The names, numbered from 0 in the order in which they came.
#[derive(Drop)]
pub struct Names {
    texts: IndexSet<String>,
}

impl Model for Names {
    ghost use Rattle.std.specs.Prelude.{ℕ, ◌≤◌, List, length, map};
    ghost use Rattle.std.specs.String.{string_bytes};
    ghost use Rattle.hc_names.specs.declared.TheConstants.{MAX_NAMES};
    ghost use Rattle.hc_names.specs.Names.{HasNoRepeats};

    ghost Value = { List (List ℕ) };

    ghost view = { λ s. map string_bytes s.texts.keys };

    ghost invariant = { λ s. (length s.texts.keys ≤ MAX_NAMES) × HasNoRepeats (map string_bytes s.texts.keys) };
}

impl Names {
    /// No names. It takes no memory before the first text.
    pub fn new(alloc: Global) -> Self
        ensures { result ≡ [] }
    {
        Names {
            texts: IndexSet::new(alloc),
        }
    }

    /// How many names there are.
    pub fn len(&self) -> u32
        ensures len { result ≡ length self.now }
        ensures within { length self.now ≤ MAX_NAMES }
        ensures distinct { HasNoRepeats self.now }
    {
        self.texts.len() as u32
    }

    /// Whether there are no names.
    pub fn is_empty(&self) -> bool
        ensures { IsTrue result ↔ (self.now ≡ []) }
    {
        self.texts.is_empty()
    }

    /// Whether a new text would be refused.
    pub fn is_full(&self) -> bool
        ensures full { IsTrue result ↔ (length self.now ≡ MAX_NAMES) }
        ensures within { length self.now ≤ MAX_NAMES }
    {
        self.len() == MAX_NAMES
    }

    /// The text that the number names.
    pub fn text(&self, n: u32) -> Option<&str>
        ensures { option_copied result ≡ slice_get self.now n }
    {
        Some(self.texts.get_index(n as usize)?.as_str())
    }

    // The number of a text that is there.
    fn find(&self, text: &str) -> Option<u32>
        ensures number { result ≡ (if has_text self.now text.now then Some (number_of self.now text.now) else None) }
        ensures named { IfSome result (λ n. slice_get self.now n ≡ Some text.now) }
        ensures below { IfSome result (λ n. n < MAX_NAMES) }
        ensures distinct { HasNoRepeats self.now }
        ensures within { length self.now ≤ MAX_NAMES }
    {
        Some(self.texts.get_index_of(text)? as u32)
    }

    /// The number of the text, which is stored if it is new. A text that is there takes no memory.
    pub fn intern(&mut self, text: &str) -> Result<u32, NameFault>
        ensures number { IfOk result (λ n. n ≡ number_of self.old text.now) }
        ensures names { OnOk result (self.new ≡ with_text self.old text.now) }
        ensures named { IfOk result (λ n. slice_get self.new n ≡ Some text.now) }
        ensures below { IfOk result (λ n. n < MAX_NAMES) }

        // A text that is there is always answered, and a new one is refused as `Full` exactly where no more fit.
        ensures present { IsTrue (has_text self.old text.now) → IsOk result }
        ensures full { IsErrOf result NameFault.Full ↔ ((has_text self.old text.now ≡ false) × (length self.old ≡ MAX_NAMES)) }
        ensures err { OnErr result (self.new ≡ self.old) }

        // A number names one text for good.
        ensures kept { KeepsNumbers self.old self.new }
        ensures distinct { HasNoRepeats self.new }
        ensures within { length self.new ≤ MAX_NAMES }
    {
        if let Some(n) = self.find(text) {
            return Ok(n);
        }
        if self.is_full() {
            return Err(NameFault::Full);
        }
        self.add(text)
    }

    // Stores a new text.
    fn add(&mut self, text: &str) -> Result<u32, NameFault>
        requires new { has_text self.old text.now ≡ false }
        requires room { length self.old < MAX_NAMES }
        ensures number { IfOk result (λ n. n ≡ number_of self.old text.now) }
        ensures names { OnOk result (self.new ≡ self.old ++ text.now ∷ []) }
        ensures named { IfOk result (λ n. slice_get self.new n ≡ Some text.now) }
        ensures kept { KeepsNumbers self.old self.new }
        ensures distinct { HasNoRepeats self.new }
        ensures memory { OnErr result (result ≡ Err NameFault.Memory) }
        ensures err { OnErr result (self.new ≡ self.old) }
    {
        let n = self.texts.len() as u32;
        let alloc = *self.texts.allocator();
        let Ok(owned) = String::from_str(alloc, text) else {
            return Err(NameFault::Memory);
        };
        let Ok(_added) = self.texts.insert(owned) else {
            return Err(NameFault::Memory);
        };
        Ok(n)
    }
}
