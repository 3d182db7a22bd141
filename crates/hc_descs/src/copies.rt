ghost use Rattle.std.specs.Prelude.{◌≡◌, ℕ, ◌+◌, ◌<◌, ◌≤◌, ◌==◌, if◌then◌else◌, Some, None, IsSome, IsSomeAnd};
ghost use Rattle.hc_layout.specs.Capacity.{cap_of};
ghost use Rattle.hc_layout.specs.declared.capacity.TheConstants.{MAX_FAST};
ghost use Rattle.hc_layout.specs.declared.shape.Region.TheVariants.{Entries};
ghost use Rattle.hc_heap.specs.Readings.{no_array, gate_in, base_in, array_in};
ghost use Rattle.hc_heap.specs.Lawful.{IsField, IsKey, HaveEntries};
ghost use Rattle.hc_heap.specs.Kept.{Adds};
ghost use Rattle.hc_heap.specs.States.{IsHeap, Goes, HasRoom};
ghost use Rattle.hc_descs.specs.Entries.{AreFree, count_of, key_at, field_at};
ghost use Rattle.hc_descs.specs.Copies.{FillsArray, HasEntriesBut, HasEntriesOf, HasKeysOf, IsEntry, HasOwnArray, field_but};
ghost use Rattle.hc_descs.specs.Filling.{IsFilled};

use crate::entry::{field_of, give_array, key_of, put_entry};
use hc_heap::{Heap, Pace, entries_are_kept, gates_are_open, unused_says_nothing};
use hc_layout::{Region, cap};
use hc_value::Key;

// Writes the first n entries of a map again, from a new entry on.
fn copy_entries<P: Pace>(h: &mut Heap<P>, map: u32, to: u32, n: u32)
    requires entries { HaveEntries h.old.view.trail (base_in h.old.view.trail map) n }
    requires handed { to + n ≤ h.old.view.used.entries }
    requires free { AreFree h.old.view.trail to }
    ensures view { h.new.view ≡ record h.old.view { trail = h.new.view.trail } }
    ensures filled { IsFilled h.old.view.trail h.new.view.trail to n (key_at h.old.view.trail map) (field_at h.old.view.trail map) }
    ensures heap { IsHeap h.new.view }
    ensures goes { Goes h.old.desk h.new.desk }
    ensures went { P.went h.old.pace h.old.desk.trail h.new.desk.trail h.new.pace }
{
    h.stands();
    let Some(from) = h.base(map) else {
        return;
    };
    for k in 0..n {
        let key = key_of(h, from + k);
        let field = field_of(h, from + k);
        put_entry(h, to + k, key, field);
    }
}

// Writes the first n keys of a map again, from a new entry on, with fields that follow one another.
fn copy_entry_keys<P: Pace>(h: &mut Heap<P>, map: u32, to: u32, n: u32, first: u32)
    requires entries { HaveEntries h.old.view.trail (base_in h.old.view.trail map) n }
    requires handed { to + n ≤ h.old.view.used.entries }
    requires free { AreFree h.old.view.trail to }
    requires fields { first + n ≤ h.old.view.shape.fields }
    ensures view { h.new.view ≡ record h.old.view { trail = h.new.view.trail } }
    ensures filled { IsFilled h.old.view.trail h.new.view.trail to n (key_at h.old.view.trail map) (λ k. Some (first + k)) }
    ensures heap { IsHeap h.new.view }
    ensures goes { Goes h.old.desk h.new.desk }
    ensures went { P.went h.old.pace h.old.desk.trail h.new.desk.trail h.new.pace }
{
    h.stands();
    let Some(from) = h.base(map) else {
        return;
    };
    for k in 0..n {
        let key = key_of(h, from + k);
        put_entry(h, to + k, key, first + k);
    }
}

// Another field at one place, and an entry's own at all others.
fn chosen(own: u32, k: u32, place: u32, field: u32) -> u32
    ensures { result ≡ if k == place then field else own }
{
    if k == place { field } else { own }
}

// Writes the first n entries of a map again, from a new entry on, with another field at one place.
fn copy_entries_but<P: Pace>(h: &mut Heap<P>, map: u32, to: u32, n: u32, place: u32, field: u32)
    requires entries { HaveEntries h.old.view.trail (base_in h.old.view.trail map) n }
    requires handed { to + n ≤ h.old.view.used.entries }
    requires free { AreFree h.old.view.trail to }
    requires field { field < h.old.view.shape.fields }
    ensures view { h.new.view ≡ record h.old.view { trail = h.new.view.trail } }
    ensures filled { IsFilled h.old.view.trail h.new.view.trail to n (key_at h.old.view.trail map) (field_but h.old.view.trail map place field) }
    ensures heap { IsHeap h.new.view }
    ensures goes { Goes h.old.desk h.new.desk }
    ensures went { P.went h.old.pace h.old.desk.trail h.new.desk.trail h.new.pace }
{
    h.stands();
    let Some(from) = h.base(map) else {
        return;
    };
    for k in 0..n {
        let key = key_of(h, from + k);
        let own = field_of(h, from + k);
        put_entry(h, to + k, key, chosen(own, k, place, field));
    }
}

/// Gives a map that isn't open yet, and has no array, one of its own: the entries of an open map, and one more.
/// Nothing is written of the array's further entries.
pub fn copy<P: Pace>(h: &mut Heap<P>, map: u32, child: u32, key: Key, field: u32)
    requires open { IsSomeAnd (gate_in h.old.view.trail map) (λ g. g.entries < MAX_FAST) }
    requires handed { child < h.old.view.used.maps }
    requires closed { gate_in h.old.view.trail child ≡ None }
    requires bare { array_in h.old.view.trail child ≡ no_array }
    requires key { IsKey key }
    requires field { IsField h.old.view.trail field }
    requires room { HasRoom h.old.view Entries (cap_of (count_of h.old.view.trail map + 1)) }
    ensures shape { h.new.view.shape ≡ h.old.view.shape }
    ensures used { h.new.view.used ≡ record h.old.view.used { entries = h.old.view.used.entries + cap_of (count_of h.old.view.trail map + 1) } }
    ensures writes { Adds (FillsArray child h.old.view.used.entries) h.old.view.trail h.new.view.trail }
    ensures old { HasEntriesOf h.new.view.trail child map (count_of h.old.view.trail map) }
    ensures last { IsEntry h.new.view.trail child (count_of h.old.view.trail map) key field }
    ensures array { HasOwnArray h.new.view.trail child (count_of h.old.view.trail map + 1) h.old.view.used.entries }
    ensures spare { AreFree h.new.view.trail (h.old.view.used.entries + (count_of h.old.view.trail map + 1)) }
    ensures heap { IsHeap h.new.view }
    ensures goes { Goes h.old.desk h.new.desk }
    ensures went { P.went h.old.pace h.old.desk.trail h.new.desk.trail h.new.pace }
{
    gates_are_open();
    entries_are_kept();
    unused_says_nothing();
    h.stands();
    let n = h.gate(map).unwrap().entries;
    let capacity = cap(n + 1);
    let first = h.fresh(Region::Entries, capacity);
    copy_entries(h, map, first, n);
    put_entry(h, first + n, key, field);
    give_array(h, child, first, capacity);
}

/// Gives a map that isn't open yet, and has no array, one of its own: the entries of an open map that has some.
pub fn copy_all<P: Pace>(h: &mut Heap<P>, map: u32, child: u32)
    requires open { IsSomeAnd (gate_in h.old.view.trail map) (λ g. 0 < g.entries) }
    requires handed { child < h.old.view.used.maps }
    requires closed { gate_in h.old.view.trail child ≡ None }
    requires bare { array_in h.old.view.trail child ≡ no_array }
    requires room { HasRoom h.old.view Entries (cap_of (count_of h.old.view.trail map)) }
    ensures shape { h.new.view.shape ≡ h.old.view.shape }
    ensures used { h.new.view.used ≡ record h.old.view.used { entries = h.old.view.used.entries + cap_of (count_of h.old.view.trail map) } }
    ensures writes { Adds (FillsArray child h.old.view.used.entries) h.old.view.trail h.new.view.trail }
    ensures all { HasEntriesOf h.new.view.trail child map (count_of h.old.view.trail map) }
    ensures array { HasOwnArray h.new.view.trail child (count_of h.old.view.trail map) h.old.view.used.entries }
    ensures spare { AreFree h.new.view.trail (h.old.view.used.entries + count_of h.old.view.trail map) }
    ensures heap { IsHeap h.new.view }
    ensures goes { Goes h.old.desk h.new.desk }
    ensures went { P.went h.old.pace h.old.desk.trail h.new.desk.trail h.new.pace }
{
    gates_are_open();
    entries_are_kept();
    unused_says_nothing();
    h.stands();
    let n = h.gate(map).unwrap().entries;
    let capacity = cap(n);
    let base = h.fresh(Region::Entries, capacity);
    copy_entries(h, map, base, n);
    give_array(h, child, base, capacity);
}

/// Gives a map that isn't open yet, and has no array, one of its own: the entries of an open map, with another field at
/// one place.
pub fn copy_but<P: Pace>(h: &mut Heap<P>, map: u32, child: u32, place: u32, field: u32)
    requires open { IsSomeAnd (gate_in h.old.view.trail map) (λ g. place < g.entries) }
    requires handed { child < h.old.view.used.maps }
    requires closed { gate_in h.old.view.trail child ≡ None }
    requires bare { array_in h.old.view.trail child ≡ no_array }
    requires field { IsField h.old.view.trail field }
    requires room { HasRoom h.old.view Entries (cap_of (count_of h.old.view.trail map)) }
    ensures shape { h.new.view.shape ≡ h.old.view.shape }
    ensures used { h.new.view.used ≡ record h.old.view.used { entries = h.old.view.used.entries + cap_of (count_of h.old.view.trail map) } }
    ensures writes { Adds (FillsArray child h.old.view.used.entries) h.old.view.trail h.new.view.trail }
    ensures all { HasEntriesBut h.new.view.trail child map (count_of h.old.view.trail map) place field }
    ensures array { HasOwnArray h.new.view.trail child (count_of h.old.view.trail map) h.old.view.used.entries }
    ensures spare { AreFree h.new.view.trail (h.old.view.used.entries + count_of h.old.view.trail map) }
    ensures heap { IsHeap h.new.view }
    ensures goes { Goes h.old.desk h.new.desk }
    ensures went { P.went h.old.pace h.old.desk.trail h.new.desk.trail h.new.pace }
{
    gates_are_open();
    entries_are_kept();
    unused_says_nothing();
    h.stands();
    let n = h.gate(map).unwrap().entries;
    let capacity = cap(n);
    let base = h.fresh(Region::Entries, capacity);
    copy_entries_but(h, map, base, n, place, field);
    give_array(h, child, base, capacity);
}

/// Gives a map that isn't open yet, and has no array, one of its own: the keys of an open map that has some, with fields
/// that follow one another from the first one on.
pub fn copy_keys<P: Pace>(h: &mut Heap<P>, map: u32, child: u32, first: u32)
    requires open { IsSomeAnd (gate_in h.old.view.trail map) (λ g. 0 < g.entries) }
    requires handed { child < h.old.view.used.maps }
    requires closed { gate_in h.old.view.trail child ≡ None }
    requires bare { array_in h.old.view.trail child ≡ no_array }
    requires fields { first + count_of h.old.view.trail map ≤ h.old.view.used.fields }
    requires made { (k : ℕ) → k < count_of h.old.view.trail map → IsField h.old.view.trail (first + k) }
    requires room { HasRoom h.old.view Entries (cap_of (count_of h.old.view.trail map)) }
    ensures shape { h.new.view.shape ≡ h.old.view.shape }
    ensures used { h.new.view.used ≡ record h.old.view.used { entries = h.old.view.used.entries + cap_of (count_of h.old.view.trail map) } }
    ensures writes { Adds (FillsArray child h.old.view.used.entries) h.old.view.trail h.new.view.trail }
    ensures all { HasKeysOf h.new.view.trail child map (count_of h.old.view.trail map) first }
    ensures array { HasOwnArray h.new.view.trail child (count_of h.old.view.trail map) h.old.view.used.entries }
    ensures spare { AreFree h.new.view.trail (h.old.view.used.entries + count_of h.old.view.trail map) }
    ensures heap { IsHeap h.new.view }
    ensures goes { Goes h.old.desk h.new.desk }
    ensures went { P.went h.old.pace h.old.desk.trail h.new.desk.trail h.new.pace }
{
    gates_are_open();
    entries_are_kept();
    unused_says_nothing();
    h.stands();
    let n = h.gate(map).unwrap().entries;
    let capacity = cap(n);
    let base = h.fresh(Region::Entries, capacity);
    copy_entry_keys(h, map, base, n, first);
    give_array(h, child, base, capacity);
}
