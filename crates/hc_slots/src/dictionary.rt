//! A fast object, as a dictionary.
ghost use Rattle.std.specs.Prelude.{◌≡◌, ◌≤◌, None, Some, IfOk};
ghost use Rattle.std.specs.List.{AllByRecursion};
ghost use Rattle.hc_descs.specs.Entries.{count_of};
ghost use Rattle.hc_heap.specs.Readings.{map_in};
ghost use Rattle.hc_table.specs.Attributes.{IsProper};
ghost use Rattle.hc_table.specs.World.{HaveDistinctNames};
ghost use Rattle.hc_slots.specs.Fast.{HasMap};
ghost use Rattle.hc_slots.specs.Meaning.{dictionary_object, fast_props, object_shown};

use crate::entries::prop_of_entry;
use crate::fast;
use hc_dict::{Dict, Dictionary};
use hc_heap::{Heap, Pace};
use hc_value::{Cause, Memory};
use std::alloc::Global;
// The n properties of a fast object, in a table of their own.
fn table_of<P: Pace>(
    h: &mut Heap<P>,
    alloc: Global,
    object: u32,
    map: u32,
    n: u32,
) -> Result<Dict, Memory>
    requires fast { HasMap h.old.view.trail object }
    requires has { map_in h.old.view.trail object ≡ Some map }
    requires count { n ≡ count_of h.old.view.trail map }
    requires distinct { HaveDistinctNames (fast_props h.old.view.trail object map) }
    requires proper { AllByRecursion IsProper (fast_props h.old.view.trail object map) }
    ensures props { IfOk result (λ d. d ≡ fast_props h.old.view.trail object map) }
    ensures still { h.new ≡ record h.old { desk = record h.old.desk { loads = h.new.desk.loads } } }
    ensures loads { h.old.desk.loads ≤ h.new.desk.loads }
{
    let mut props = Dict::new(alloc);
    for k in 0..n {
        let prop = prop_of_entry(h, object, map, k);
        let Ok(()) = props.insert(prop) else {
            return Err(Memory);
        };
    }
    Ok(props)
}

/// A fast object, as the dictionary that it is to be slow with, for a cause. It stores nothing; for want of memory alone there
/// is none.
pub fn dictionary_of<P: Pace>(
    h: &mut Heap<P>,
    alloc: Global,
    object: u32,
    cause: Cause,
) -> Result<Dictionary, Memory>
    requires fast { HasMap h.old.view.trail object }
    requires distinct { HaveDistinctNames (object_shown h.old.view.trail object None (map_in h.old.view.trail object)).props }
    requires proper { AllByRecursion IsProper (object_shown h.old.view.trail object None (map_in h.old.view.trail object)).props }
    ensures value { IfOk result (λ d. dictionary_object d ≡ object_shown h.old.view.trail object None (map_in h.old.view.trail object)) }
    ensures cause { IfOk result (λ d. d.cause ≡ cause) }
    ensures still { h.new ≡ record h.old { desk = record h.old.desk { loads = h.new.desk.loads } } }
    ensures loads { h.old.desk.loads ≤ h.new.desk.loads }
{
    let map = fast::map_of(h, object);
    let proto = fast::proto(h, object);
    let extensible = fast::extensible(h, object);
    let n = fast::len(h, object);
    let props = table_of(h, alloc, object, map, n)?;
    Ok(Dictionary {
        cause,
        proto,
        extensible,
        props,
    })
}
