//! Private copies of maps.
ghost use Rattle.std.specs.Prelude.{◌≡◌, ◌+◌, ◌<◌, ◌≤◌, IsTrue, true, false, None, Some, Ok, IfOk, IfErr, IfSome, IsSomeAnd};
ghost use Rattle.hc_layout.specs.declared.capacity.TheConstants.{MAX_FAST};
ghost use Rattle.hc_layout.specs.declared.shape.Region.TheVariants.{Maps, Entries, Fields};
ghost use Rattle.hc_heap.specs.Writes.{Gate};
ghost use Rattle.hc_heap.specs.Readings.{no_array, gate_in, array_in};
ghost use Rattle.hc_heap.specs.Kept.{Adds};
ghost use Rattle.hc_heap.specs.States.{IsHeap, Goes, HasRoom, with_write};
ghost use Rattle.hc_descs.specs.Copies.{HasArray};
ghost use Rattle.hc_descs.specs.Entries.{count_of, field_at, IsOpenMap};
ghost use Rattle.hc_tree.specs.Details.{DetailsAre};
ghost use Rattle.hc_tree.specs.Tree.{IsTree, gate_with};
ghost use Rattle.hc_tree.specs.Needs.{HasSpace, IsSpaceExact, used_after};
ghost use Rattle.hc_tree.specs.Growth.{IsPlaced, MayBePrototype, IsUnmoved, MakesMap};
ghost use Rattle.hc_tree.specs.Copying.{CopyGets, Extra, MayBeLast, IsClosed, IsWhole, IsPrivateCopy, HasCopied, HasMore, FillsCopy, with_closed, filled_used, copy_need, copied_count, copied_array, copied_fields};

use crate::fields::new_fields;
use crate::laws::maps_are_kept;
use crate::need::{Need, has_space, of_copy, of_longer_copy};
use hc_descs::{copy, copy_all, copy_keys};
use hc_fields::new_field;
use hc_heap::{Heap, Pace, Space, gates_are_open, unused_says_nothing};
use hc_layout::{GateWord, Region};
use hc_links::links_are_chained;
use hc_value::{Detail, Key};

/// A new private map with a prototype and the entries of a map: with new fields of equal details where `fresh` is
/// true, and else with the map's own. Where `more` is given it has a last entry more, with a new field.
pub fn private_copy<P: Pace>(
    h: &mut Heap<P>,
    map: u32,
    fresh: bool,
    proto: Option<u32>,
    more: Option<(Key, Detail)>,
) -> Result<u32, Space>
    requires tree { IsTree h.old.view.trail }
    requires open { IsOpenMap h.old.view.trail map }
    requires few { copied_count more (count_of h.old.view.trail map) ≤ MAX_FAST }
    requires proto { MayBePrototype h.old.view.used h.old.view.trail proto }
    requires alone { IsTrue fresh → more ≡ None }
    requires more { IfSome more (λ e. MayBeLast h.old.view.shape h.old.view.trail map e.0 e.1) }
    ensures number { IfOk result (λ c. c ≡ h.old.view.used.maps) }
    ensures details { IfOk result (λ c. DetailsAre (CopyGets fresh more h.old.view.trail map (count_of h.old.view.trail map) h.old.view.used.fields) h.old.view.trail h.new.view.trail) }
    ensures copy { IfOk result (λ c. IsPrivateCopy fresh more proto h.new.view.trail c map (count_of h.old.view.trail map) h.old.view.used.fields) }
    ensures space { IsSpaceExact h.old.view (copy_need fresh more (count_of h.old.view.trail map)) result }
    ensures used { h.new.view.used ≡ used_after result (copy_need fresh more (count_of h.old.view.trail map)) h.old.view.used }
    ensures still { IfErr result (λ e. IsUnmoved h.old h.new) }
    ensures writes { Adds (MakesMap h.old.view.used None) h.old.view.trail h.new.view.trail }
    ensures shape { h.new.view.shape ≡ h.old.view.shape }
    ensures tree { IsTree h.new.view.trail }
    ensures heap { IsHeap h.new.view }
    ensures goes { Goes h.old.desk h.new.desk }
    ensures went { P.went h.old.pace h.old.desk.trail h.new.desk.trail h.new.pace }
{
    gates_are_open();
    h.stands();
    let n = h.gate(map).unwrap().entries;
    if !has_space(h, need_of(fresh, more, n)) {
        return Err(Space);
    }
    Ok(make_copy(h, map, n, fresh, proto, more))
}

// What a private copy of a map with n entries needs.
fn need_of(fresh: bool, more: Option<(Key, Detail)>, n: u32) -> Need
    requires few { copied_count more n ≤ MAX_FAST }
    ensures { result ≡ copy_need fresh more n }
{
    match more {
        Some(_) => of_longer_copy(n),
        None => of_copy(fresh, n),
    }
}

// Makes a private copy of a map with n entries.
fn make_copy<P: Pace>(
    h: &mut Heap<P>,
    map: u32,
    n: u32,
    fresh: bool,
    proto: Option<u32>,
    more: Option<(Key, Detail)>,
) -> u32
    requires tree { IsTree h.old.view.trail }
    requires open { IsSomeAnd (gate_in h.old.view.trail map) (λ g. g.entries ≡ n) }
    requires few { copied_count more n ≤ MAX_FAST }
    requires proto { MayBePrototype h.old.view.used h.old.view.trail proto }
    requires alone { IsTrue fresh → more ≡ None }
    requires more { IfSome more (λ e. MayBeLast h.old.view.shape h.old.view.trail map e.0 e.1) }
    requires space { HasSpace h.old.view (copy_need fresh more n) }
    ensures number { result ≡ h.old.view.used.maps }
    ensures details { DetailsAre (CopyGets fresh more h.old.view.trail map n h.old.view.used.fields) h.old.view.trail h.new.view.trail }
    ensures copy { IsPrivateCopy fresh more proto h.new.view.trail result map n h.old.view.used.fields }
    ensures used { h.new.view.used ≡ record (filled_used fresh more n h.old.view.used) { maps = h.old.view.used.maps + 1 } }
    ensures writes { Adds (MakesMap h.old.view.used None) h.old.view.trail h.new.view.trail }
    ensures shape { h.new.view.shape ≡ h.old.view.shape }
    ensures tree { IsTree h.new.view.trail }
    ensures heap { IsHeap h.new.view }
    ensures goes { Goes h.old.desk h.new.desk }
    ensures went { P.went h.old.pace h.old.desk.trail h.new.desk.trail h.new.pace }
{
    maps_are_kept();
    unused_says_nothing();
    h.stands();
    let copy = new_closed(h, proto);
    fill(h, map, copy, n, fresh, more);
    open_private(h, copy, copied(more, n));
    copy
}

// How many entries a private copy has.
fn copied(more: Option<(Key, Detail)>, n: u32) -> u32
    requires few { copied_count more n ≤ MAX_FAST }
    ensures { result ≡ copied_count more n }
{
    match more {
        Some(_) => n + 1,
        None => n,
    }
}

// Hands out a map that is nobody's child, and gives it its prototype.
pub(crate) fn new_closed<P: Pace>(h: &mut Heap<P>, proto: Option<u32>) -> u32
    requires tree { IsTree h.old.view.trail }
    requires proto { MayBePrototype h.old.view.used h.old.view.trail proto }
    requires room { HasRoom h.old.view Maps 1 }
    ensures number { result ≡ h.old.view.used.maps }
    ensures view { h.new.view ≡ record h.old.view { trail = with_closed h.old.view.trail proto result; used = record h.old.view.used { maps = h.old.view.used.maps + 1 } } }
    ensures closed { IsClosed h.new.view.trail result }
    ensures bare { array_in h.new.view.trail result ≡ no_array }
    ensures tree { IsTree h.new.view.trail }
    ensures heap { IsHeap h.new.view }
    ensures goes { Goes h.old.desk h.new.desk }
    ensures went { P.went h.old.pace h.old.desk.trail h.new.desk.trail h.new.pace }
{
    maps_are_kept();
    links_are_chained();
    unused_says_nothing();
    h.stands();
    let map = h.fresh(Region::Maps, 1);
    h.set_parent(map, None);
    h.set_proto(map, proto);
    map
}

// Gives a new map the entries of a map, before it is opened.
fn fill<P: Pace>(
    h: &mut Heap<P>,
    map: u32,
    copy: u32,
    n: u32,
    fresh: bool,
    more: Option<(Key, Detail)>,
)
    requires open { IsSomeAnd (gate_in h.old.view.trail map) (λ g. g.entries ≡ n) }
    requires handed { copy < h.old.view.used.maps }
    requires closed { gate_in h.old.view.trail copy ≡ None }
    requires bare { array_in h.old.view.trail copy ≡ no_array }
    requires few { copied_count more n ≤ MAX_FAST }
    requires alone { IsTrue fresh → more ≡ None }
    requires more { IfSome more (λ e. MayBeLast h.old.view.shape h.old.view.trail map e.0 e.1) }
    requires entries { HasRoom h.old.view Entries (copied_array more n) }
    requires fields { HasRoom h.old.view Fields (copied_fields fresh more n) }
    ensures entries { HasCopied fresh h.new.view.trail copy map n h.old.view.used.fields }
    ensures last { HasMore more h.new.view.trail copy n }
    ensures number { (e : Extra) → more ≡ Some e → field_at h.new.view.trail copy n ≡ Some h.old.view.used.fields }
    ensures array { HasArray h.new.view.trail copy (copied_count more n) }
    ensures used { h.new.view.used ≡ filled_used fresh more n h.old.view.used }
    ensures writes { Adds (FillsCopy copy h.old.view.used.entries h.old.view.used.fields) h.old.view.trail h.new.view.trail }
    ensures shape { h.new.view.shape ≡ h.old.view.shape }
    ensures heap { IsHeap h.new.view }
    ensures goes { Goes h.old.desk h.new.desk }
    ensures went { P.went h.old.pace h.old.desk.trail h.new.desk.trail h.new.pace }
{
    let Some((key, detail)) = more else {
        fill_alike(h, map, copy, n, fresh);
        return;
    };
    fill_with_one(h, map, copy, n, key, detail);
}

// Gives a new map the entries of a map, and one more with a new field.
fn fill_with_one<P: Pace>(h: &mut Heap<P>, map: u32, child: u32, n: u32, key: Key, detail: Detail)
    requires open { IsSomeAnd (gate_in h.old.view.trail map) (λ g. g.entries ≡ n) }
    requires handed { child < h.old.view.used.maps }
    requires closed { gate_in h.old.view.trail child ≡ None }
    requires bare { array_in h.old.view.trail child ≡ no_array }
    requires few { n < MAX_FAST }
    requires more { MayBeLast h.old.view.shape h.old.view.trail map key detail }
    requires entries { HasRoom h.old.view Entries (copied_array (Some (key, detail)) n) }
    requires fields { HasRoom h.old.view Fields 1 }
    ensures entries { HasCopied false h.new.view.trail child map n h.old.view.used.fields }
    ensures last { HasMore (Some (key, detail)) h.new.view.trail child n }
    ensures number { field_at h.new.view.trail child n ≡ Some h.old.view.used.fields }
    ensures array { HasArray h.new.view.trail child (n + 1) }
    ensures used { h.new.view.used ≡ filled_used false (Some (key, detail)) n h.old.view.used }
    ensures writes { Adds (FillsCopy child h.old.view.used.entries h.old.view.used.fields) h.old.view.trail h.new.view.trail }
    ensures shape { h.new.view.shape ≡ h.old.view.shape }
    ensures heap { IsHeap h.new.view }
    ensures goes { Goes h.old.desk h.new.desk }
    ensures went { P.went h.old.pace h.old.desk.trail h.new.desk.trail h.new.pace }
{
    let field = new_field(h, child, detail);
    copy(h, map, child, key, field);
}

// Gives a new map the entries of a map, with new fields or with the map's own.
fn fill_alike<P: Pace>(h: &mut Heap<P>, map: u32, copy: u32, n: u32, fresh: bool)
    requires open { IsSomeAnd (gate_in h.old.view.trail map) (λ g. g.entries ≡ n) }
    requires handed { copy < h.old.view.used.maps }
    requires closed { gate_in h.old.view.trail copy ≡ None }
    requires bare { array_in h.old.view.trail copy ≡ no_array }
    requires entries { HasRoom h.old.view Entries (copied_array None n) }
    requires fields { HasRoom h.old.view Fields (copied_fields fresh None n) }
    ensures entries { HasCopied fresh h.new.view.trail copy map n h.old.view.used.fields }
    ensures array { HasArray h.new.view.trail copy n }
    ensures used { h.new.view.used ≡ filled_used fresh None n h.old.view.used }
    ensures writes { Adds (FillsCopy copy h.old.view.used.entries h.old.view.used.fields) h.old.view.trail h.new.view.trail }
    ensures shape { h.new.view.shape ≡ h.old.view.shape }
    ensures heap { IsHeap h.new.view }
    ensures goes { Goes h.old.desk h.new.desk }
    ensures went { P.went h.old.pace h.old.desk.trail h.new.desk.trail h.new.pace }
{
    maps_are_kept();
    gates_are_open();
    h.stands();
    if n == 0 {
        return;
    }
    if !fresh {
        copy_all(h, map, copy);
        return;
    }
    let first = new_fields(h, map, copy, n);
    copy_keys(h, map, copy, first);
}

// Opens a private map that has all its entries.
pub(crate) fn open_private<P: Pace>(h: &mut Heap<P>, map: u32, n: u32)
    requires tree { IsTree h.old.view.trail }
    requires handed { map < h.old.view.used.maps }
    requires closed { IsClosed h.old.view.trail map }
    requires few { n ≤ MAX_FAST }
    requires whole { IsWhole h.old.view.trail map n }
    requires placed { IsPlaced h.old.view.trail map n }
    requires array { HasArray h.old.view.trail map n }
    ensures view { h.new.view ≡ with_write h.old.view (Gate map (gate_with n true)) }
    ensures tree { IsTree h.new.view.trail }
    ensures heap { IsHeap h.new.view }
    ensures goes { Goes h.old.desk h.new.desk }
    ensures went { P.went h.old.pace h.old.desk.trail h.new.desk.trail h.new.pace }
{
    maps_are_kept();
    h.stands();
    h.set_gate(
        map,
        GateWord {
            entries: n,
            is_private: true,
            is_locked: false,
        },
    );
}
