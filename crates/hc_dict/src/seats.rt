//! Seats in which properties stand in order, some of them empty.
ghost use Rattle.std.specs.Prelude.{◌≡◌, ℕ, ◌↔◌, ◌+◌, ◌*◌, ◌<◌, ◌≤◌, None, Some, [], ◌∷◌, ◌++◌, length, map, slice_index_or, slice_set, IsSome, IsTrue, IfErr, OnOk, OnErr};
ghost use Rattle.hc_dict.specs.Dict.{seated, before, prop_seated, FullCounts};

use hc_value::Prop;
use std::alloc::{AllocFailed, Global};
use std::marker::Model;

// How many seats are counted together.
const BLOCK: usize = 64;

/// Seats in order. How many properties stand in each block of 64 seats is counted, so that a place among the properties is
/// found by the blocks before it.
#[derive(Drop)]
pub(crate) struct Seats {
    row: Vec<Option<Prop>>,
    counts: Vec<u8>,
    gaps: usize,
}

impl Model for Seats {
    ghost use Rattle.std.specs.Prelude.{List, Option};
    ghost use Rattle.hc_value.specs.declared.prop.Prop.{Prop};
    ghost use Rattle.hc_dict.specs.Dict.{AreCounted};

    ghost Value = { List (Option Prop) };

    ghost view = { λ s. s.row.items };

    ghost invariant = { λ s. AreCounted s.row.items s.counts.items s.gaps };
}

impl Seats {
    pub(crate) fn new(alloc: Global) -> Self
        ensures { result ≡ [] }
    {
        Seats {
            row: Vec::new(alloc),
            counts: Vec::new(alloc),
            gaps: 0,
        }
    }

    // How many seats there are.
    pub(crate) fn len(&self) -> usize
        ensures { result ≡ length self.now }
    {
        self.row.len()
    }

    // How many properties there are.
    pub(crate) fn count(&self) -> usize
        ensures { result ≡ length (seated self.now) }
    {
        self.row.len() - self.gaps
    }

    // Whether a seat is empty.
    pub(crate) fn has_gaps(&self) -> bool
        ensures { IsTrue result ↔ (length (seated self.now) < length self.now) }
    {
        self.gaps > 0
    }

    // Whether there are more empty seats than others, so that closing the gaps costs each of them two moves at most.
    pub(crate) fn is_sparse(&self) -> bool {
        self.gaps > self.count() + 8
    }

    // The property in a seat.
    pub(crate) fn prop(&self, seat: usize) -> Option<Prop>
        requires { seat < length self.now }
        ensures { result ≡ prop_seated self.now seat }
    {
        self.row[seat]
    }

    // How many properties stand before a block.
    fn before_block(&self, block: usize) -> usize
        requires { 64 * block ≤ length self.now }
        ensures { result ≡ before self.now (64 * block) }
    {
        let mut sum = 0;
        for b in 0..block {
            sum += self.counts[b] as usize;
        }
        sum
    }

    // How many properties stand before a seat.
    pub(crate) fn before(&self, seat: usize) -> usize
        requires { seat ≤ length self.now }
        ensures { result ≡ before self.now seat }
    {
        if self.gaps == 0 {
            return seat;
        }
        let block = seat / BLOCK;
        let mut sum = self.before_block(block);
        for s in BLOCK * block..seat {
            if self.row[s].is_some() {
                sum += 1;
            }
        }
        sum
    }

    // A seat near the property at a place, and how many stand between.
    fn near(&self, place: usize) -> (usize, usize)
        requires { place < length (seated self.now) }
        ensures within { result.0 < length self.now }
        ensures place { before self.now result.0 + result.1 ≡ place }
    {
        if self.gaps == 0 {
            return (place, 0);
        }
        let mut rest = place;
        let mut block = 0;
        while rest >= self.counts[block] as usize {
            rest -= self.counts[block] as usize;
            block += 1;
        }
        (BLOCK * block, rest)
    }

    // The seat of the property at a place, and the property.
    pub(crate) fn find(&self, place: usize) -> (usize, Prop)
        requires { place < length (seated self.now) }
        ensures place { before self.now result.0 ≡ place }
        ensures prop { prop_seated self.now result.0 ≡ Some result.1 }
        ensures within { result.0 < length self.now }
    {
        let (start, mut rest) = self.near(place);
        for seat in start..self.row.len() {
            if let Some(prop) = self.row[seat] {
                if rest == 0 {
                    return (seat, prop);
                }
                rest -= 1;
            }
        }
        unreachable!()
    }

    // Puts a property into a new last seat. For want of memory alone nothing is done.
    pub(crate) fn push(&mut self, p: Prop) -> Result<(), ()>
        ensures added { OnOk result (self.new ≡ self.old ++ Some p ∷ []) }
        ensures err { OnErr result (self.new ≡ self.old) }
    {
        let seat = self.row.len();
        let Ok(()) = cover(&mut self.counts, seat) else {
            return Err(());
        };
        let Ok(()) = self.row.push(Some(p)) else {
            return Err(());
        };
        self.counts[seat / BLOCK] += 1;
        Ok(())
    }

    // Puts another property into a seat in which one stands.
    pub(crate) fn set(&mut self, seat: usize, p: Prop)
        requires { IsSome (prop_seated self.old seat) }
        ensures { self.new ≡ slice_set self.old seat (Some p) }
    {
        self.row[seat] = Some(p);
    }

    // Empties a seat in which a property stands.
    pub(crate) fn clear(&mut self, seat: usize)
        requires { IsSome (prop_seated self.old seat) }
        ensures { self.new ≡ slice_set self.old seat None }
    {
        self.row[seat] = None;
        self.counts[seat / BLOCK] -= 1;
        self.gaps += 1;
    }

    // Takes the empty seats away.
    pub(crate) fn close(&mut self)
        ensures { self.new ≡ map Some (seated self.old) }
    {
        self.row.retain(|seat| seat.is_some());
        self.gaps = 0;
        count_full(&mut self.counts, self.row.len());
    }
}

// Sees to it that there is a count for a seat, where there is one for each seat before it.
fn cover(counts: &mut Vec<u8>, seat: usize) -> Result<(), AllocFailed<u8>>
    requires { seat ≤ 64 * length counts.old.items }
    ensures covered { OnOk result (seat < 64 * length counts.new.items) }
    ensures same { (b : ℕ) → slice_index_or counts.new.items b 0 ≡ slice_index_or counts.old.items b 0 }
    ensures more { length counts.old.items ≤ length counts.new.items }
{
    if seat / BLOCK == counts.len() {
        counts.push(0)?;
    }
    Ok(())
}

// The counts of so many seats none of which is empty.
fn count_full(counts: &mut [u8], len: usize)
    ensures { FullCounts counts.new len }
{
    let mut rest = len;
    for count in counts.iter_mut() {
        let here = rest.min(BLOCK);
        *count = here as u8;
        rest -= here;
    }
}
