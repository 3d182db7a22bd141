ghost use Rattle.std.specs.Prelude.{◌≡◌, ◌+◌, ◌<◌, Some, IsTrue, IsSome, IsSomeAnd};
ghost use Rattle.hc_layout.specs.declared.shape.Region.TheVariants.{Fields};
ghost use Rattle.hc_value.specs.Field.{IsClassInRange, in_place_of, join_of, joined_detail};
ghost use Rattle.hc_heap.specs.Readings.{owner_in, detail_in};
ghost use Rattle.hc_heap.specs.Lawful.{IsClassThere, RisesTo};
ghost use Rattle.hc_heap.specs.States.{IsHeap, Goes, HasRoom, one_load};
ghost use Rattle.hc_fields.specs.Fields.{raised, with_field};

use hc_heap::{Heap, Pace, forms_are_kept, unused_says_nothing};
use hc_layout::Region;
use hc_value::Detail;

/// Makes a field for a map that was handed out.
pub fn new_field<P: Pace>(h: &mut Heap<P>, owner: u32, detail: Detail) -> u32
    requires room { HasRoom h.old.view Fields 1 }
    requires handed { owner < h.old.view.used.maps }
    requires form { IsClassInRange detail.class }
    requires there { IsClassThere h.old.view.shape h.old.view.trail detail.class }
    ensures fresh { result ≡ h.old.view.used.fields }
    ensures view { h.new.view ≡ record h.old.view { trail = with_field h.old.view.trail result owner detail; used = record h.old.view.used { fields = h.old.view.used.fields + 1 } } }
    ensures heap { IsHeap h.new.view }
    ensures goes { Goes h.old.desk h.new.desk }
    ensures went { P.went h.old.pace h.old.desk.trail h.new.desk.trail h.new.pace }
{
    unused_says_nothing();
    h.stands();
    let field = h.fresh(Region::Fields, 1);
    h.set_field_owner(field, owner);
    h.set_detail(field, detail);
    field
}

/// The map for which a field was made.
pub fn owner<P: Pace>(h: &mut Heap<P>, field: u32) -> u32
    requires made { IsSome (owner_in h.old.view.trail field) }
    ensures owner { owner_in h.old.view.trail field ≡ Some result }
    ensures new { h.new ≡ record h.old { desk = one_load h.old.desk } }
    ensures goes { Goes h.old.desk h.new.desk }
    ensures went { P.went h.old.pace h.old.desk.trail h.new.desk.trail h.new.pace }
{
    h.field_owner(field).unwrap()
}

/// Joins the detail of a field with another, which keeps the slots' words as they are. Nothing is stored where the
/// field admits as much already.
pub fn raise<P: Pace>(h: &mut Heap<P>, field: u32, detail: Detail)
    requires handed { field < h.old.view.used.fields }
    requires place { IsSomeAnd (detail_in h.old.view.trail field) (λ e. IsTrue (in_place_of e.rep (join_of e.rep detail.rep))) }
    requires form { IsClassInRange detail.class }
    requires there { IsClassThere h.old.view.shape h.old.view.trail detail.class }
    ensures view { h.new.view ≡ record h.old.view { trail = raised h.old.view.trail field detail } }
    ensures joined { IsSomeAnd (detail_in h.old.view.trail field) (λ e. detail_in h.new.view.trail field ≡ Some (joined_detail e detail)) }
    ensures rises { IsSomeAnd (detail_in h.old.view.trail field) (λ e. RisesTo e (joined_detail e detail)) }
    ensures heap { IsHeap h.new.view }
    ensures goes { Goes h.old.desk h.new.desk }
    ensures went { P.went h.old.pace h.old.desk.trail h.new.desk.trail h.new.pace }
{
    forms_are_kept();
    h.stands();
    let was = h.detail(field).unwrap();
    let joined = detail.join(was);
    if joined == was {
        return;
    }
    h.set_detail(field, joined);
}
