//! What a field has to admit for a value.
ghost use Rattle.std.specs.Prelude.{◌≡◌};
ghost use Rattle.hc_value.specs.Field.{IsClassInRange};
ghost use Rattle.hc_heap.specs.Lawful.{IsClassThere};
ghost use Rattle.hc_heap.specs.Readings.{map_in};
ghost use Rattle.hc_heap.specs.States.{Goes, OnlyLoads};
ghost use Rattle.hc_facts.specs.Honest.{class_by, detail_for};

use hc_heap::{Heap, Pace, forms_are_kept};
use hc_value::{Class, Constness, Detail, Rep, Value, rep_of};

/// The class of an object: its map where it has one that isn't unstable, and else any.
pub fn class_of_object<P: Pace>(h: &mut Heap<P>, object: u32) -> Class
    ensures class { result ≡ class_by h.old.view.trail (map_in h.old.view.trail object) }
    ensures form { IsClassInRange result }
    ensures there { IsClassThere h.old.view.shape h.old.view.trail result }
    ensures same { h.new ≡ record h.old { desk = h.new.desk } }
    ensures loads { OnlyLoads 2 h.old.desk h.new.desk }
    ensures goes { Goes h.old.desk h.new.desk }
    ensures went { P.went h.old.pace h.old.desk.trail h.new.desk.trail h.new.pace }
{
    forms_are_kept();
    h.stands();
    let Some(map) = h.object_map(object) else {
        return Class::Any;
    };
    if h.bits(map).unstable {
        return Class::Any;
    }
    Class::Of(map)
}

/// What a field has to admit for a value that is held there.
pub fn detail_for<P: Pace>(h: &mut Heap<P>, value: Value, constness: Constness) -> Detail
    ensures detail { result ≡ detail_for h.old.view.trail value constness }
    ensures form { IsClassInRange result.class }
    ensures there { IsClassThere h.old.view.shape h.old.view.trail result.class }
    ensures same { h.new ≡ record h.old { desk = h.new.desk } }
    ensures loads { OnlyLoads 2 h.old.desk h.new.desk }
    ensures goes { Goes h.old.desk h.new.desk }
    ensures went { P.went h.old.pace h.old.desk.trail h.new.desk.trail h.new.pace }
{
    match value {
        Value::Int(_) => Detail {
            rep: rep_of(value),
            constness,
            class: Class::Any,
        },
        Value::Obj(object) => {
            let class = class_of_object(h, object);
            Detail {
                rep: Rep::HeapObject,
                constness,
                class,
            }
        }
        Value::Undefined | Value::Null | Value::Bool(_) | Value::Text(_) => Detail {
            rep: Rep::HeapObject,
            constness,
            class: Class::Any,
        },
    }
}
