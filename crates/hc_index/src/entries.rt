//! The index of entries, from a map and a name to the name's place among the entries of the map.
ghost use Rattle.std.specs.Prelude.{◌≡◌, ◌⊎◌, ◌<◌, ℕ, None, Some, Option as OptionOf, IfOk};
ghost use Rattle.hc_index.specs.Entries.{place_known, row_of};

use std::alloc::{AllocError, Global};
use std::marker::Model;

// How many answers there is room for.
const ROWS: usize = 16384;

// The place that a name has in a map, or that it has none there.
#[derive(Clone, Copy, Drop)]
struct Answer {
    map: u32,
    name: u32,
    place: Option<u32>,
}

/// Answers that were given, in a table of fixed size. A new answer takes the row of the one that stood there.
#[derive(Drop)]
pub struct EntryIndex {
    rows: Vec<Option<Answer>>,
}

impl Model for EntryIndex {
    ghost use Rattle.std.specs.Prelude.{◌≡◌, List, Option, length};
    ghost use Rattle.hc_index.specs.declared.entries.Answer.{Answer};

    ghost Value = { List (Option Answer) };

    ghost view = { λ i. i.rows.items };

    ghost invariant = { λ i. length i.rows.items ≡ 16384 };
}

impl EntryIndex {
    /// No answers.
    pub fn new(alloc: Global) -> Result<Self, AllocError>
        ensures none { IfOk result (λ i. (m n : ℕ) → place_known i m n ≡ None) }
    {
        let mut rows = Vec::with_capacity(alloc, ROWS)?;
        for _row in 0..ROWS {
            rows.push(None)?;
        }
        Ok(EntryIndex { rows })
    }

    /// The place of a name in a map, as it was noted, where the answer still stands.
    pub fn find(&self, map: u32, name: u32) -> Option<Option<u32>>
        ensures { result ≡ place_known self.now map name }
    {
        let answer = self.rows[row(map, name)]?;
        if answer.map == map && answer.name == name {
            Some(answer.place)
        } else {
            None
        }
    }

    /// Notes the place of a name in a map, or that it has none there.
    pub fn note(&mut self, map: u32, name: u32, place: Option<u32>)
        ensures noted { place_known self.new map name ≡ Some place }
        ensures others { (m n : ℕ) (p : OptionOf ℕ) → place_known self.new m n ≡ Some p → (place_known self.old m n ≡ Some p) ⊎ ((m ≡ map) × (n ≡ name)) }
    {
        self.rows[row(map, name)] = Some(Answer { map, name, place });
    }
}

// The row in which the answer for a map and a name stands.
fn row(map: u32, name: u32) -> usize
    ensures row { result ≡ row_of map name }
    ensures within { result < 16384 }
{
    (map as usize * 67 + name as usize) % ROWS
}
