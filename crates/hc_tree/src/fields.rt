//! What the fields of maps admit.
ghost use Rattle.std.specs.Prelude.{◌≡◌, ℕ, ◌+◌, ◌<◌, IsTrue, Some, IsSomeAnd};
ghost use Rattle.hc_layout.specs.declared.shape.Region.TheVariants.{Fields};
ghost use Rattle.hc_value.specs.Field.{IsClassInRange};
ghost use Rattle.hc_heap.specs.Readings.{gate_in};
ghost use Rattle.hc_heap.specs.Lawful.{IsClassThere};
ghost use Rattle.hc_heap.specs.Kept.{Adds};
ghost use Rattle.hc_heap.specs.States.{IsHeap, Goes, HasRoom, OnlyLoads};
ghost use Rattle.hc_descs.specs.Entries.{field_at};
ghost use Rattle.hc_fields.specs.Fields.{raised};
ghost use Rattle.hc_tree.specs.Tree.{IsTree};
ghost use Rattle.hc_tree.specs.Details.{detail_at, joined_with, joins_in_place};
ghost use Rattle.hc_tree.specs.Copying.{MakesFields, IsLikeField};

use crate::laws::maps_are_kept;
use hc_descs::field_at;
use hc_fields::{new_field, raise};
use hc_heap::{Heap, Pace, forms_are_kept, gates_are_open, unused_says_nothing};
use hc_layout::Region;
use hc_value::Detail;

/// What the field of an open map's k-th entry admits.
pub fn detail_at<P: Pace>(h: &mut Heap<P>, map: u32, k: u32) -> Detail
    requires entry { IsSomeAnd (gate_in h.old.view.trail map) (λ g. k < g.entries) }
    ensures value { detail_at h.old.view.trail map k ≡ Some result }
    ensures form { IsClassInRange result.class }
    ensures there { IsClassThere h.old.view.shape h.old.view.trail result.class }
    ensures same { h.new ≡ record h.old { desk = h.new.desk } }
    ensures loads { OnlyLoads 3 h.old.desk h.new.desk }
    ensures goes { Goes h.old.desk h.new.desk }
    ensures went { P.went h.old.pace h.old.desk.trail h.new.desk.trail h.new.pace }
{
    forms_are_kept();
    h.stands();
    let field = field_at(h, map, k);
    h.detail(field).unwrap()
}

/// Joins what the field of an open map's k-th entry admits with a detail, which is to be a join in place.
pub fn admit<P: Pace>(h: &mut Heap<P>, map: u32, k: u32, detail: Detail)
    requires tree { IsTree h.old.view.trail }
    requires entry { IsSomeAnd (gate_in h.old.view.trail map) (λ g. k < g.entries) }
    requires fits { IsTrue (joins_in_place (detail_at h.old.view.trail map k) (Some detail)) }
    requires class { IsClassInRange detail.class }
    requires there { IsClassThere h.old.view.shape h.old.view.trail detail.class }
    ensures view { IsSomeAnd (field_at h.old.view.trail map k) (λ f. h.new.view ≡ record h.old.view { trail = raised h.old.view.trail f detail }) }
    ensures joined { detail_at h.new.view.trail map k ≡ Some (joined_with (detail_at h.old.view.trail map k) detail) }
    ensures tree { IsTree h.new.view.trail }
    ensures heap { IsHeap h.new.view }
    ensures goes { Goes h.old.desk h.new.desk }
    ensures went { P.went h.old.pace h.old.desk.trail h.new.desk.trail h.new.pace }
{
    maps_are_kept();
    unused_says_nothing();
    h.stands();
    let field = field_at(h, map, k);
    raise(h, field, detail);
}

// Makes a field for each entry of a map, which admits what the entry's field admits. The answer is the first of them.
pub(crate) fn new_fields<P: Pace>(h: &mut Heap<P>, map: u32, owner: u32, n: u32) -> u32
    requires entries { IsSomeAnd (gate_in h.old.view.trail map) (λ g. g.entries ≡ n) }
    requires handed { owner < h.old.view.used.maps }
    requires room { HasRoom h.old.view Fields n }
    ensures first { result ≡ h.old.view.used.fields }
    ensures shape { h.new.view.shape ≡ h.old.view.shape }
    ensures used { h.new.view.used ≡ record h.old.view.used { fields = h.old.view.used.fields + n } }
    ensures writes { Adds (MakesFields h.old.view.used.fields) h.old.view.trail h.new.view.trail }
    ensures made { (k : ℕ) → k < n → IsLikeField h.new.view.trail owner map k (result + k) }
    ensures heap { IsHeap h.new.view }
    ensures goes { Goes h.old.desk h.new.desk }
    ensures went { P.went h.old.pace h.old.desk.trail h.new.desk.trail h.new.pace }
{
    unused_says_nothing();
    gates_are_open();
    h.stands();
    let first = h.used(Region::Fields);
    for k in 0..n {
        let detail = detail_at(h, map, k);
        new_field(h, owner, detail);
    }
    first
}
