//! What fields are asked to admit.
ghost use Rattle.std.specs.Prelude.{◌≡◌, ◌<◌, ℕ, Some, IsSomeAnd};
ghost use Rattle.hc_value.specs.Field.{IsClassInRange};
ghost use Rattle.hc_value.specs.Prop.{kind_of};
ghost use Rattle.hc_value.specs.declared.prop.Kind.TheVariants.{AccessorProp};
ghost use Rattle.hc_heap.specs.Lawful.{IsClassThere};
ghost use Rattle.hc_heap.specs.Readings.{gate_in, map_in, store_in};
ghost use Rattle.hc_heap.specs.States.{IsHeap, Goes, OnlyLoads};
ghost use Rattle.hc_tree.specs.Tree.{IsTree, tagged_field};
ghost use Rattle.hc_slots.specs.Fast.{HasMap};
ghost use Rattle.hc_slots.specs.Meaning.{MayHold};
ghost use Rattle.hc_modes.specs.Admitting.{FitsField, HasRep, IsAsked, held_detail};

use hc_descs::field_at;
use hc_facts::detail_for;
use hc_heap::{Heap, Pace};
use hc_slots::constness_for;
use hc_slots::fast::map_of;
use hc_tree::admit;
use hc_value::{Class, Constness, Detail, Held, Rep};

// What a field has to admit for what is held there.
pub(crate) fn detail_for_held<P: Pace>(h: &mut Heap<P>, held: Held, constness: Constness) -> Detail
    ensures detail { result ≡ held_detail h.old.view.trail held constness }
    ensures accessor { kind_of held ≡ AccessorProp → result ≡ tagged_field }
    ensures form { IsClassInRange result.class }
    ensures there { IsClassThere h.old.view.shape h.old.view.trail result.class }
    ensures same { h.new ≡ record h.old { desk = h.new.desk } }
    ensures loads { OnlyLoads 2 h.old.desk h.new.desk }
    ensures goes { Goes h.old.desk h.new.desk }
    ensures went { P.went h.old.pace h.old.desk.trail h.new.desk.trail h.new.pace }
{
    match held {
        Held::Datum(value) => detail_for(h, value, constness),
        Held::Pair(_, _) => Detail {
            rep: Rep::Tagged,
            constness: Constness::Mutable,
            class: Class::Any,
        },
    }
}

// Has the field of a fast object's property admit what is to be held there, which joins with what it admits in place. Where that
// is admitted already nothing is stored. The answer is the representation that the field has then.
pub(crate) fn ask_field<P: Pace>(h: &mut Heap<P>, object: u32, i: u32, held: Held) -> Rep
    requires tree { IsTree h.old.view.trail }
    requires fast { HasMap h.old.view.trail object }
    requires entry { (m : ℕ) → map_in h.old.view.trail object ≡ Some m → IsSomeAnd (gate_in h.old.view.trail m) (λ g. i < g.entries) }
    requires slot { i < (store_in h.old.view.trail object).capacity }
    requires place { FitsField h.old.view.trail object i held }
    ensures asked { IsAsked h.old.view h.new.view object i held }
    ensures rep { HasRep h.new.view.trail object i result }
    ensures fits { MayHold result held }
    ensures tree { IsTree h.new.view.trail }
    ensures heap { IsHeap h.new.view }
    ensures goes { Goes h.old.desk h.new.desk }
    ensures went { P.went h.old.pace h.old.desk.trail h.new.desk.trail h.new.pace }
{
    h.stands();
    let map = map_of(h, object);
    let field = field_at(h, map, i);
    let was = h.detail(field).unwrap();
    let constness = constness_for(h, object, i, was, &held);
    let detail = detail_for_held(h, held, constness);
    let joined = detail.join(was);
    if joined == was {
        return was.rep;
    }
    admit(h, map, i, detail);
    joined.rep
}
