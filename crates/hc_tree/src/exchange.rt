//! Private maps in place of others, of which one entry gets another field.
ghost use Rattle.std.specs.Prelude.{◌≡◌, ℕ, ◌+◌, ◌<◌, true, None, Some, IsSomeAnd};
ghost use Rattle.hc_layout.specs.Capacity.{cap_of};
ghost use Rattle.hc_layout.specs.declared.shape.Region.TheVariants.{Entries, Fields};
ghost use Rattle.hc_value.specs.Field.{IsClassInRange};
ghost use Rattle.hc_heap.specs.Readings.{no_array, gate_in, array_in, bits_in, owner_in, detail_in};
ghost use Rattle.hc_heap.specs.Lawful.{IsClassThere};
ghost use Rattle.hc_heap.specs.Kept.{Adds};
ghost use Rattle.hc_heap.specs.States.{IsHeap, Goes, HasRoom};
ghost use Rattle.hc_descs.specs.Copies.{HasArray, HasEntriesBut};
ghost use Rattle.hc_tree.specs.Copying.{FillsOne, IsExchanged};
ghost use Rattle.hc_tree.specs.Details.{DetailsAre, GetsOne, NoMap, Reshapes, detail_at};
ghost use Rattle.hc_tree.specs.Tree.{IsTree, gate_with};
ghost use Rattle.hc_tree.specs.Needs.{HasSpace, own_need, with_need};
ghost use Rattle.hc_tree.specs.Walking.{IsDetail, MayAdmit, OpensNoRoot, both_details};

use crate::copies::{new_closed, open_private};
use crate::fields::detail_at;
use crate::laws::maps_are_kept;
use hc_descs::copy_but;
use hc_fields::new_field;
use hc_heap::{Heap, Pace, forms_are_kept, gates_are_open, unused_says_nothing};
use hc_value::Detail;

/// A new private map with the prototype and the entries of a private map, for which there is room. It has the map's fields, but
/// for a new one at one place, which admits what the map's field there admits, and a detail.
pub fn exchange_field<P: Pace>(h: &mut Heap<P>, map: u32, n: u32, place: u32, detail: Detail) -> u32
    requires tree { IsTree h.old.view.trail }
    requires map { gate_in h.old.view.trail map ≡ Some (gate_with n true) }
    requires entry { place < n }
    requires detail { IsDetail h.old.view.shape h.old.view.trail detail }
    requires space { HasSpace h.old.view (own_need n) }
    ensures number { result ≡ h.old.view.used.maps }
    ensures exchanged { IsExchanged h.new.view.trail result map n place h.old.view.used.fields }
    ensures used { h.new.view.used ≡ with_need (own_need n) h.old.view.used }
    ensures writes { Adds (Reshapes h.old.view.used NoMap (GetsOne h.old.view.used.fields (both_details (detail_at h.old.view.trail map place) (Some detail)))) h.old.view.trail h.new.view.trail }
    ensures details { DetailsAre (GetsOne h.old.view.used.fields (both_details (detail_at h.old.view.trail map place) (Some detail))) h.old.view.trail h.new.view.trail }
    ensures bits { (x : ℕ) → bits_in h.new.view.trail x ≡ bits_in h.old.view.trail x }
    ensures opens { OpensNoRoot h.old.view.trail h.new.view.trail }
    ensures shape { h.new.view.shape ≡ h.old.view.shape }
    ensures tree { IsTree h.new.view.trail }
    ensures heap { IsHeap h.new.view }
    ensures goes { Goes h.old.desk h.new.desk }
    ensures went { P.went h.old.pace h.old.desk.trail h.new.desk.trail h.new.pace }
{
    h.stands();
    let own = detail_at(h, map, place);
    make_exchanged(h, map, n, place, own.join(detail))
}

// Makes a private map in place of another one, with a new field of a detail at one place.
fn make_exchanged<P: Pace>(h: &mut Heap<P>, map: u32, n: u32, place: u32, detail: Detail) -> u32
    requires tree { IsTree h.old.view.trail }
    requires map { gate_in h.old.view.trail map ≡ Some (gate_with n true) }
    requires entry { place < n }
    requires admits { MayAdmit h.old.view.shape h.old.view.trail map place detail }
    requires space { HasSpace h.old.view (own_need n) }
    ensures number { result ≡ h.old.view.used.maps }
    ensures exchanged { IsExchanged h.new.view.trail result map n place h.old.view.used.fields }
    ensures used { h.new.view.used ≡ with_need (own_need n) h.old.view.used }
    ensures writes { Adds (Reshapes h.old.view.used NoMap (GetsOne h.old.view.used.fields (Some detail))) h.old.view.trail h.new.view.trail }
    ensures detail { detail_in h.new.view.trail h.old.view.used.fields ≡ Some detail }
    ensures bits { (x : ℕ) → bits_in h.new.view.trail x ≡ bits_in h.old.view.trail x }
    ensures opens { OpensNoRoot h.old.view.trail h.new.view.trail }
    ensures shape { h.new.view.shape ≡ h.old.view.shape }
    ensures tree { IsTree h.new.view.trail }
    ensures heap { IsHeap h.new.view }
    ensures goes { Goes h.old.desk h.new.desk }
    ensures went { P.went h.old.pace h.old.desk.trail h.new.desk.trail h.new.pace }
{
    maps_are_kept();
    gates_are_open();
    forms_are_kept();
    unused_says_nothing();
    h.stands();
    let proto = h.proto(map).unwrap();
    let copy = new_closed(h, proto);
    fill_but(h, map, copy, n, place, detail);
    open_private(h, copy, n);
    copy
}

// Gives a new map the entries of a map, with a new field at one place.
fn fill_but<P: Pace>(h: &mut Heap<P>, map: u32, copy: u32, n: u32, place: u32, detail: Detail)
    requires open { IsSomeAnd (gate_in h.old.view.trail map) (λ g. g.entries ≡ n) }
    requires entry { place < n }
    requires handed { copy < h.old.view.used.maps }
    requires closed { gate_in h.old.view.trail copy ≡ None }
    requires bare { array_in h.old.view.trail copy ≡ no_array }
    requires form { IsClassInRange detail.class }
    requires there { IsClassThere h.old.view.shape h.old.view.trail detail.class }
    requires entries { HasRoom h.old.view Entries (cap_of n) }
    requires fields { HasRoom h.old.view Fields 1 }
    ensures entries { HasEntriesBut h.new.view.trail copy map n place h.old.view.used.fields }
    ensures owner { owner_in h.new.view.trail h.old.view.used.fields ≡ Some copy }
    ensures detail { detail_in h.new.view.trail h.old.view.used.fields ≡ Some detail }
    ensures array { HasArray h.new.view.trail copy n }
    ensures used { h.new.view.used ≡ record h.old.view.used { entries = h.old.view.used.entries + cap_of n; fields = h.old.view.used.fields + 1 } }
    ensures writes { Adds (FillsOne copy h.old.view.used.entries h.old.view.used.fields detail) h.old.view.trail h.new.view.trail }
    ensures shape { h.new.view.shape ≡ h.old.view.shape }
    ensures heap { IsHeap h.new.view }
    ensures goes { Goes h.old.desk h.new.desk }
    ensures went { P.went h.old.pace h.old.desk.trail h.new.desk.trail h.new.pace }
{
    let field = new_field(h, copy, detail);
    copy_but(h, map, copy, place, field);
}
