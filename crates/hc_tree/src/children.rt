//! The children of maps.
ghost use Rattle.std.specs.Prelude.{◌≡◌, ◌+◌, ◌<◌, ℕ, false, None, Some, Ok, IfErr, IfOk, IfSome, IsSomeAnd, [], All};
ghost use Rattle.hc_layout.specs.declared.shape.Region.TheVariants.{Maps, Entries, Fields};
ghost use Rattle.hc_value.specs.Field.{IsClassInRange};
ghost use Rattle.hc_value.specs.declared.prop.Kind.TheVariants.{AccessorProp};
ghost use Rattle.hc_heap.specs.Readings.{bits_in, gate_in, prototype_in, detail_in};
ghost use Rattle.hc_heap.specs.Lawful.{IsClassThere, IsKey};
ghost use Rattle.hc_heap.specs.Kept.{Adds};
ghost use Rattle.hc_heap.specs.States.{IsHeap, Goes, HasRoom};
ghost use Rattle.hc_descs.specs.Entries.{LacksName, count_of, field_at};
ghost use Rattle.hc_fields.specs.Fields.{raised};
ghost use Rattle.hc_links.specs.Chains.{links_in};
ghost use Rattle.hc_tree.specs.Tree.{IsTree, IsChildFor, IsDeadFor, IsProperKey, gate_with, tagged_field};
ghost use Rattle.hc_tree.specs.Dying.{HaveDied, IsOutgrown, MarksOnly, OutgrownFor};
ghost use Rattle.hc_tree.specs.Details.{ChildGets, DetailsAre, NoMap, Reshapes, child_detail};
ghost use Rattle.hc_tree.specs.Needs.{HasSpace, IsSpaceExact, used_after, with_need};
ghost use Rattle.hc_tree.specs.Growth.{MayGrow, EndsWith, MakesMap, IsUnmoved, IsReadyChild, asked_detail, fit_of, fitting_child, live_child, child_need, marked, AskGets};

use crate::dying::deprecate;
use crate::fields::{admit, detail_at};
use crate::laws::maps_are_kept;
use crate::mark::mark_unstable;
use crate::need::{has_space, of_child};
use hc_descs::copy;
use hc_fields::new_field;
use hc_heap::{
    Heap, Pace, Space, forms_are_kept, gates_are_open, set_is_kept, unused_says_nothing,
};
use hc_layout::{GateWord, Region};
use hc_links::{child, link, links_are_chained, same_keys_are_equal};
use hc_value::{Detail, Key, in_place, join};

/// The live child of a map for a key, whose last field admits a detail. A child that is there is asked to admit it, where what its
/// field admits joins with the detail in place; where it doesn't, that child is deprecated with all maps under it, and another
/// admits the join. It is made where there is none, with a new field of the detail. Before one is made the map is made unstable.
pub fn child_or_make<P: Pace>(
    h: &mut Heap<P>,
    map: u32,
    key: Key,
    detail: Detail,
) -> Result<u32, Space>
    requires tree { IsTree h.old.view.trail }
    requires open { IsSomeAnd (gate_in h.old.view.trail map) MayGrow }
    requires live { (bits_in h.old.view.trail map).deprecated ≡ false }
    requires key { IsKey key }
    requires proper { IsProperKey key }
    requires lacks { LacksName h.old.view.trail map (count_of h.old.view.trail map) key.name }
    requires accessor { key.kind ≡ AccessorProp → detail ≡ tagged_field }
    requires class { IsClassInRange detail.class }
    requires there { IsClassThere h.old.view.shape h.old.view.trail detail.class }
    ensures live { IfOk result (λ c. live_child h.new.view.trail map key ≡ Some c) }
    ensures number { IfOk result (λ c. fitting_child h.old.view.trail map key detail ≡ None → c ≡ h.old.view.used.maps) }
    ensures child { IfOk result (λ c. IsSomeAnd (gate_in h.new.view.trail map) (λ g. IsChildFor h.new.view.trail map g c key)) }
    ensures ends { IfOk result (λ c. EndsWith h.new.view.trail c (count_of h.old.view.trail map) key (asked_detail h.old.view.trail map key detail)) }
    ensures found { (c : ℕ) → fitting_child h.old.view.trail map key detail ≡ Some c → result ≡ Ok c }
    ensures space { IsSpaceExact h.old.view (child_need (fitting_child h.old.view.trail map key detail) (count_of h.old.view.trail map)) result }
    ensures used { h.new.view.used ≡ used_after result (child_need (fitting_child h.old.view.trail map key detail) (count_of h.old.view.trail map)) h.old.view.used }
    ensures still { IfErr result (λ e. IsUnmoved h.old h.new) }
    ensures writes { Adds (Reshapes h.old.view.used (OutgrownFor h.old.view.trail map key detail) (AskGets h.old.view.trail map key detail h.old.view.used.fields)) h.old.view.trail h.new.view.trail }
    ensures details { IfOk result (λ c. DetailsAre (AskGets h.old.view.trail map key detail h.old.view.used.fields) h.old.view.trail h.new.view.trail) }
    ensures dead { IfOk result (λ c. HaveDied (OutgrownFor h.old.view.trail map key detail) h.old.view.trail h.new.view.trail) }
    ensures marks { IfOk result (λ c. MarksOnly map (OutgrownFor h.old.view.trail map key detail) h.old.view.trail h.new.view.trail) }
    ensures raised { (c f : ℕ) → fitting_child h.old.view.trail map key detail ≡ Some c → field_at h.old.view.trail c (count_of h.old.view.trail map) ≡ Some f → h.new.view ≡ record h.old.view { trail = raised h.old.view.trail f detail } }
    ensures begins { IfOk result (λ c. fitting_child h.old.view.trail map key detail ≡ None → Adds (Reshapes h.old.view.used (OutgrownFor h.old.view.trail map key detail) (AskGets h.old.view.trail map key detail h.old.view.used.fields)) (marked h.old.view.trail map) h.new.view.trail) }
    ensures makes { IfOk result (λ c. live_child h.old.view.trail map key ≡ None → Adds (MakesMap h.old.view.used (Some map)) (marked h.old.view.trail map) h.new.view.trail) }
    ensures shape { h.new.view.shape ≡ h.old.view.shape }
    ensures tree { IsTree h.new.view.trail }
    ensures heap { IsHeap h.new.view }
    ensures goes { Goes h.old.desk h.new.desk }
    ensures went { P.went h.old.pace h.old.desk.trail h.new.desk.trail h.new.pace }
{
    h.stands();
    maps_are_kept();
    same_keys_are_equal();
    gates_are_open();
    let n = h.gate(map).unwrap().entries;
    let known = live(h, map, key);
    if let Some(child) = fitting(h, map, key, known, detail, n) {
        admit(h, child, n, detail);
        return Ok(child);
    }
    if !has_space(h, of_child(n)) {
        return Err(Space);
    }
    Ok(make_instead(h, map, known, key, detail, n))
}

// The live child that is known of a map for a key, where its last field joins with a detail in place.
fn fitting<P: Pace>(
    h: &mut Heap<P>,
    map: u32,
    key: Key,
    known: Option<u32>,
    detail: Detail,
    n: u32,
) -> Option<u32>
    requires tree { IsTree h.old.view.trail }
    requires open { gate_in h.old.view.trail map ≡ Some (gate_with n false) }
    requires known { known ≡ live_child h.old.view.trail map key }
    ensures fits { result ≡ fit_of h.old.view.trail known n detail }
    ensures same { IsUnmoved h.old h.new }
    ensures goes { Goes h.old.desk h.new.desk }
    ensures went { P.went h.old.pace h.old.desk.trail h.new.desk.trail h.new.pace }
{
    same_keys_are_equal();
    let child = known?;
    let own = detail_at(h, child, n);
    if in_place(own.rep, join(own.rep, detail.rep)) {
        Some(child)
    } else {
        None
    }
}

// The newest child of a map for a key, unless it is deprecated.
pub(crate) fn live<P: Pace>(h: &mut Heap<P>, map: u32, key: Key) -> Option<u32>
    ensures live { result ≡ live_child h.old.view.trail map key }
    ensures same { IsUnmoved h.old h.new }
    ensures goes { Goes h.old.desk h.new.desk }
    ensures went { P.went h.old.pace h.old.desk.trail h.new.desk.trail h.new.pace }
{
    let found = child(h, map, key)?;
    let bits = h.bits(found);
    if bits.deprecated {
        return None;
    }
    Some(found)
}

// Makes a child of a map with n entries, whose live one for the key, if it has one, has a field that doesn't join with the detail
// in place: that one is deprecated with all maps under it, and the new one admits the join.
fn make_instead<P: Pace>(
    h: &mut Heap<P>,
    map: u32,
    known: Option<u32>,
    key: Key,
    detail: Detail,
    n: u32,
) -> u32
    requires tree { IsTree h.old.view.trail }
    requires open { IsSomeAnd (gate_in h.old.view.trail map) MayGrow }
    requires count { n ≡ count_of h.old.view.trail map }
    requires live { (bits_in h.old.view.trail map).deprecated ≡ false }
    requires key { IsKey key }
    requires proper { IsProperKey key }
    requires lacks { LacksName h.old.view.trail map n key.name }
    requires accessor { key.kind ≡ AccessorProp → detail ≡ tagged_field }
    requires class { IsClassInRange detail.class }
    requires there { IsClassThere h.old.view.shape h.old.view.trail detail.class }
    requires known { known ≡ live_child h.old.view.trail map key }
    requires outgrown { fit_of h.old.view.trail known n detail ≡ None }
    requires space { HasSpace h.old.view (child_need None n) }
    ensures number { result ≡ h.old.view.used.maps }
    ensures live { live_child h.new.view.trail map key ≡ Some result }
    ensures child { IsSomeAnd (gate_in h.new.view.trail map) (λ g. IsChildFor h.new.view.trail map g result key) }
    ensures ends { EndsWith h.new.view.trail result n key (child_detail h.old.view.trail known n detail) }
    ensures detail { detail_in h.new.view.trail h.old.view.used.fields ≡ Some (child_detail h.old.view.trail known n detail) }
    ensures used { h.new.view.used ≡ with_need (child_need None n) h.old.view.used }
    ensures begins { Adds (Reshapes h.old.view.used (IsOutgrown h.old.view.trail known n detail) (ChildGets h.old.view.trail None n (child_detail h.old.view.trail known n detail) h.old.view.used.fields)) (marked h.old.view.trail map) h.new.view.trail }
    ensures makes { known ≡ None → Adds (MakesMap h.old.view.used (Some map)) (marked h.old.view.trail map) h.new.view.trail }
    ensures dead { HaveDied (IsOutgrown h.old.view.trail known n detail) h.old.view.trail h.new.view.trail }
    ensures marks { MarksOnly map (IsOutgrown h.old.view.trail known n detail) h.old.view.trail h.new.view.trail }
    ensures shape { h.new.view.shape ≡ h.old.view.shape }
    ensures tree { IsTree h.new.view.trail }
    ensures heap { IsHeap h.new.view }
    ensures goes { Goes h.old.desk h.new.desk }
    ensures went { P.went h.old.pace h.old.desk.trail h.new.desk.trail h.new.pace }
{
    maps_are_kept();
    same_keys_are_equal();
    set_is_kept();
    unused_says_nothing();
    h.stands();
    let Some(child) = known else {
        return make_child(h, map, key, detail, n);
    };
    let own = detail_at(h, child, n);
    mark_unstable(h, map);
    deprecate(h, child);
    make_child(h, map, key, own.join(detail), n)
}

// Makes a child of a map with n entries, which has no live one for the key.
pub(crate) fn make_child<P: Pace>(
    h: &mut Heap<P>,
    map: u32,
    key: Key,
    detail: Detail,
    n: u32,
) -> u32
    requires tree { IsTree h.old.view.trail }
    requires open { IsSomeAnd (gate_in h.old.view.trail map) MayGrow }
    requires count { n ≡ count_of h.old.view.trail map }
    requires live { (bits_in h.old.view.trail map).deprecated ≡ false }
    requires key { IsKey key }
    requires proper { IsProperKey key }
    requires lacks { LacksName h.old.view.trail map n key.name }
    requires accessor { key.kind ≡ AccessorProp → detail ≡ tagged_field }
    requires class { IsClassInRange detail.class }
    requires there { IsClassThere h.old.view.shape h.old.view.trail detail.class }
    requires dead { All (IsDeadFor h.old.view.trail (Some key)) (links_in h.old.view.trail map) }
    requires space { HasSpace h.old.view (child_need None n) }
    ensures number { result ≡ h.old.view.used.maps }
    ensures live { live_child h.new.view.trail map key ≡ Some result }
    ensures child { IsSomeAnd (gate_in h.new.view.trail map) (λ g. IsChildFor h.new.view.trail map g result key) }
    ensures ends { EndsWith h.new.view.trail result n key detail }
    ensures detail { detail_in h.new.view.trail h.old.view.used.fields ≡ Some detail }
    ensures bare { links_in h.new.view.trail result ≡ [] }
    ensures used { h.new.view.used ≡ with_need (child_need None n) h.old.view.used }
    ensures gets { Adds (Reshapes h.old.view.used NoMap (ChildGets h.old.view.trail None n detail h.old.view.used.fields)) h.old.view.trail h.new.view.trail }
    ensures writes { Adds (MakesMap h.old.view.used (Some map)) h.old.view.trail h.new.view.trail }
    ensures begins { Adds (MakesMap h.old.view.used (Some map)) (marked h.old.view.trail map) h.new.view.trail }
    ensures first { Adds (Reshapes h.old.view.used NoMap (ChildGets h.old.view.trail None n detail h.old.view.used.fields)) (marked h.old.view.trail map) h.new.view.trail }
    ensures shape { h.new.view.shape ≡ h.old.view.shape }
    ensures tree { IsTree h.new.view.trail }
    ensures heap { IsHeap h.new.view }
    ensures goes { Goes h.old.desk h.new.desk }
    ensures went { P.went h.old.pace h.old.desk.trail h.new.desk.trail h.new.pace }
{
    maps_are_kept();
    gates_are_open();
    same_keys_are_equal();
    unused_says_nothing();
    h.stands();
    mark_unstable(h, map);
    let child = begin_child(h, map, key, detail, n);
    h.set_gate(
        child,
        GateWord {
            entries: n + 1,
            is_private: false,
            is_locked: false,
        },
    );
    link(h, map, key, child);
    child
}

// Hands out a map, and gives it a field, a parent, a prototype and its entries.
fn begin_child<P: Pace>(h: &mut Heap<P>, map: u32, key: Key, detail: Detail, n: u32) -> u32
    requires tree { IsTree h.old.view.trail }
    requires open { IsSomeAnd (gate_in h.old.view.trail map) MayGrow }
    requires count { n ≡ count_of h.old.view.trail map }
    requires live { (bits_in h.old.view.trail map).deprecated ≡ false }
    requires key { IsKey key }
    requires proper { IsProperKey key }
    requires lacks { LacksName h.old.view.trail map n key.name }
    requires accessor { key.kind ≡ AccessorProp → detail ≡ tagged_field }
    requires class { IsClassInRange detail.class }
    requires there { IsClassThere h.old.view.shape h.old.view.trail detail.class }
    requires dead { All (IsDeadFor h.old.view.trail (Some key)) (links_in h.old.view.trail map) }
    requires space { HasSpace h.old.view (child_need None n) }
    ensures number { result ≡ h.old.view.used.maps }
    ensures ready { IsReadyChild h.new.view.trail map result n h.old.view.used.fields key }
    ensures detail { detail_in h.new.view.trail h.old.view.used.fields ≡ Some detail }
    ensures used { h.new.view.used ≡ record (with_need (child_need None n) h.old.view.used) { links = h.old.view.used.links } }
    ensures writes { Adds (MakesMap h.old.view.used (Some map)) h.old.view.trail h.new.view.trail }
    ensures gets { Adds (Reshapes h.old.view.used NoMap (ChildGets h.old.view.trail None n detail h.old.view.used.fields)) h.old.view.trail h.new.view.trail }
    ensures bits { bits_in h.new.view.trail map ≡ bits_in h.old.view.trail map }
    ensures shape { h.new.view.shape ≡ h.old.view.shape }
    ensures tree { IsTree h.new.view.trail }
    ensures heap { IsHeap h.new.view }
    ensures goes { Goes h.old.desk h.new.desk }
    ensures went { P.went h.old.pace h.old.desk.trail h.new.desk.trail h.new.pace }
{
    maps_are_kept();
    links_are_chained();
    gates_are_open();
    forms_are_kept();
    unused_says_nothing();
    h.stands();
    let proto = h.proto(map).unwrap();
    let child = h.fresh(Region::Maps, 1);
    let field = new_field(h, child, detail);
    h.set_parent(child, Some(map));
    h.set_proto(child, proto);
    copy(h, map, child, key, field);
    child
}
