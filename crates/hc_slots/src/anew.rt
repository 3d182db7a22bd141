//! Slots that are written anew for another map.
ghost use Rattle.std.specs.Prelude.{◌≡◌, ◌≤◌, ℕ, ◌<◌, Some, IsSomeAnd};
ghost use Rattle.hc_descs.specs.Entries.{key_at};
ghost use Rattle.hc_heap.specs.Lawful.{HoldsEntry};
ghost use Rattle.hc_heap.specs.Readings.{gate_in, store_in};
ghost use Rattle.hc_heap.specs.States.{Goes};
ghost use Rattle.hc_slots.specs.Anew.{AreMoved, FitsEntry, IsMovedAt, differ, is_wide};
ghost use Rattle.hc_slots.specs.Slots.{AreHandedOut};

use crate::entries::entry_of;
use crate::held::{held_of, held_word};
use crate::slots::{put_slot, word_of_slot};
use hc_heap::{Heap, Pace};
use hc_value::Rep;

// Whether a representation is that of integers alone.
fn is_wide(rep: Rep) -> bool
    ensures { result ≡ is_wide rep }
{
    match rep {
        Rep::Wide => true,
        Rep::Smi | Rep::HeapObject | Rep::Tagged => false,
    }
}

// Whether one of two representations is that of integers alone, and the other isn't.
fn differ(from: Rep, to: Rep) -> bool
    ensures { result ≡ differ (is_wide from) (is_wide to) }
{
    is_wide(from) != is_wide(to)
}

// Writes an object's k-th slot anew for the k-th entry of another map, where it has another word for that.
fn move_slot<P: Pace>(h: &mut Heap<P>, object: u32, map: u32, other: u32, k: u32)
    requires map { IsSomeAnd (gate_in h.old.view.trail map) (λ g. k < g.entries) }
    requires other { IsSomeAnd (gate_in h.old.view.trail other) (λ g. k < g.entries) }
    requires key { key_at h.old.view.trail other k ≡ key_at h.old.view.trail map k }
    requires holds { HoldsEntry h.old.view.trail object map k }
    requires within { k < (store_in h.old.view.trail object).capacity }
    requires out { AreHandedOut h.old.view.used.slots (store_in h.old.view.trail object) }
    requires fits { FitsEntry h.old.view.trail object map other k }
    ensures moved { IsMovedAt h.old.view h.new.view object map other k }
    ensures goes { Goes h.old.desk h.new.desk }
    ensures went { P.went h.old.pace h.old.desk.trail h.new.desk.trail h.new.pace }
{
    h.stands();
    let (key, from) = entry_of(h, map, k);
    let (_, to) = entry_of(h, other, k);
    if !differ(from.rep, to.rep) {
        return;
    }
    let word = word_of_slot(h, object, k);
    let held = held_of(key.kind, from.rep, word);
    put_slot(h, object, k, held_word(held, to.rep));
}

/// Writes an object's first n slots anew, as far as they have other words for another map than for the object's: the maps have
/// the same keys, and what a slot holds for the one can be held for the other. It costs a few loads a slot.
pub fn move_slots<P: Pace>(h: &mut Heap<P>, object: u32, map: u32, other: u32, n: u32)
    requires map { IsSomeAnd (gate_in h.old.view.trail map) (λ g. n ≤ g.entries) }
    requires other { IsSomeAnd (gate_in h.old.view.trail other) (λ g. n ≤ g.entries) }
    requires keys { (k : ℕ) → k < n → key_at h.old.view.trail other k ≡ key_at h.old.view.trail map k }
    requires holds { (k : ℕ) → k < n → HoldsEntry h.old.view.trail object map k }
    requires within { n ≤ (store_in h.old.view.trail object).capacity }
    requires out { AreHandedOut h.old.view.used.slots (store_in h.old.view.trail object) }
    requires fits { (k : ℕ) → k < n → FitsEntry h.old.view.trail object map other k }
    ensures moved { AreMoved h.old.view h.new.view object map other n }
    ensures goes { Goes h.old.desk h.new.desk }
    ensures went { P.went h.old.pace h.old.desk.trail h.new.desk.trail h.new.pace }
{
    h.stands();
    for k in 0..n {
        move_slot(h, object, map, other, k);
    }
}
