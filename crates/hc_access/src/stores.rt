//! A store at a site.
ghost use Rattle.std.specs.Prelude.{◌≡◌, ◌<◌, Some, None, length, IfOk, IfSome, OnOk, OnErr, is_some};
ghost use Rattle.hc_value.specs.Word.{IsInRange};
ghost use Rattle.hc_value.specs.declared.prop.Held.TheVariants.{Datum};
ghost use Rattle.hc_heap.specs.Readings.{map_in};
ghost use Rattle.hc_ops.specs.Set.{set_act};
ghost use Rattle.hc_plan.specs.declared.case.Op.TheVariants.{Store};
ghost use Rattle.hc_table.specs.Changes.{Moved};
ghost use Rattle.hc_table.specs.Numbers.{IsNameNumber};
ghost use Rattle.hc_modes.specs.State.{IsLive};
ghost use Rattle.hc_objects.specs.Came.{Came, IsStill, world_of};
ghost use Rattle.hc_access.specs.Accesses.{is_writable, note_events, site_at, store_events, store_fills, with_events, writable_place};
ghost use Rattle.hc_access.specs.Entries.{AreGood, is_cached};
ghost use Rattle.hc_access.specs.Ways.{IsWritableAt};

use crate::Accessed;
use crate::caches::way_for;
use crate::laws::entries_stay_good;
use crate::notes::note;
use hc_heap::{Pace, gates_are_open, unused_says_nothing};
use hc_modes::chains_are_told;
use hc_objects::Objects;
use hc_ops::{own_property, set};
use hc_sites::{CacheWay, Cached, Sites};
use hc_table::{Tables, read_only};
use hc_value::{Held, Memory, Prop, Reply, Value};

/// Writes a property at a site. The inline cache answers for a writable property of the receiver's own; else it is full lookup,
/// which fills the inline cache with such a property. A receiver's map is noted, also where memory is lacking then; it isn't
/// deprecated.
pub fn store<P: Pace>(
    objects: &mut Objects<P>,
    sites: &mut Sites,
    s: u32,
    o: u32,
    name: u32,
    value: Value,
) -> Result<Accessed, Memory>
    requires there { o < length (world_of objects.old) }
    requires live { IsLive objects.old.heap.view.trail o }
    requires name { IsNameNumber name }
    requires range { IsInRange value }
    requires site { site_at sites.old s ≡ Some (record { op = Store; name = name }) }
    requires good { AreGood objects.old sites.old }
    ensures reply { IfOk result (λ done. done.reply ≡ (set_act (world_of objects.old) o name value).reply) }
    ensures by { IfOk result (λ done. done.by_cache ≡ is_cached objects.old.heap.view.trail sites.old s o) }
    ensures came { OnOk result (Came P.went objects.old (set_act (world_of objects.old) o name value).did objects.new) }
    ensures sites { OnOk result (sites.new ≡ with_events sites.old s (store_events objects.old sites.old s o name)) }
    ensures moved { OnErr result (Came P.went objects.old Moved objects.new) }
    ensures noted { OnErr result (sites.new ≡ with_events sites.old s (note_events objects.old sites.old s o)) }
    ensures good { AreGood objects.new sites.new }
{
    entries_stay_good::<P>();
    objects.stands();
    let done = store_noted(objects, sites, s, o, name, value);
    objects.stands();
    done
}

// The same, of which the last clause follows.
fn store_noted<P: Pace>(
    objects: &mut Objects<P>,
    sites: &mut Sites,
    s: u32,
    o: u32,
    name: u32,
    value: Value,
) -> Result<Accessed, Memory>
    requires there { o < length (world_of objects.old) }
    requires name { IsNameNumber name }
    requires range { IsInRange value }
    requires site { site_at sites.old s ≡ Some (record { op = Store; name = name }) }
    requires good { AreGood objects.old sites.old }
    ensures reply { IfOk result (λ done. done.reply ≡ (set_act (world_of objects.old) o name value).reply) }
    ensures by { IfOk result (λ done. done.by_cache ≡ is_cached objects.old.heap.view.trail sites.old s o) }
    ensures came { OnOk result (Came P.went objects.old (set_act (world_of objects.old) o name value).did objects.new) }
    ensures sites { OnOk result (sites.new ≡ with_events sites.old s (store_events objects.old sites.old s o name)) }
    ensures moved { OnErr result (Came P.went objects.old Moved objects.new) }
    ensures noted { OnErr result (sites.new ≡ with_events sites.old s (note_events objects.old sites.old s o)) }
    ensures good { AreGood objects.old sites.new }
{
    let Some(map) = objects.map_of(o) else {
        let reply = set(objects, o, name, value)?;
        return Ok(Accessed {
            by_cache: false,
            reply,
        });
    };
    let cached = place_in_cache(objects, sites, s, o, name, map);
    note(objects, sites, s, map);
    match cached {
        Some(place) => {
            let reply = write_own(objects, o, name, place, value)?;
            Ok(Accessed {
                by_cache: true,
                reply,
            })
        }
        None => {
            let reply = store_by_lookup(objects, sites, s, o, name, map, value)?;
            Ok(Accessed {
                by_cache: false,
                reply,
            })
        }
    }
}

// The place of the receiver's own property, where the inline cache answers.
fn place_in_cache<P: Pace>(
    objects: &mut Objects<P>,
    sites: &Sites,
    s: u32,
    o: u32,
    name: u32,
    map: u32,
) -> Option<u32>
    requires there { o < length (world_of objects.old) }
    requires has { map_in objects.old.heap.view.trail o ≡ Some map }
    requires site { site_at sites.now s ≡ Some (record { op = Store; name = name }) }
    requires good { AreGood objects.old sites.now }
    ensures place { IfSome result (λ place. IsWritableAt (world_of objects.old) o name place) }
    ensures by { is_some result ≡ is_cached objects.old.heap.view.trail sites.now s o }
    ensures still { IsStill objects.old objects.new }
{
    gates_are_open();
    unused_says_nothing();
    chains_are_told::<P>();
    objects.stands();
    match way_for(objects, sites.cache(s), map)? {
        CacheWay::Own(place) => Some(place),
        _ => unreachable!(),
    }
}

// Writes a writable property of an object's own.
fn write_own<P: Pace>(
    objects: &mut Objects<P>,
    o: u32,
    name: u32,
    place: u32,
    value: Value,
) -> Result<Reply, Memory>
    requires there { o < length (world_of objects.old) }
    requires range { IsInRange value }
    requires own { IsWritableAt (world_of objects.old) o name place }
    ensures reply { IfOk result (λ reply. reply ≡ (set_act (world_of objects.old) o name value).reply) }
    ensures came { OnOk result (Came P.went objects.old (set_act (world_of objects.old) o name value).did objects.new) }
    ensures moved { OnErr result (Came P.went objects.old Moved objects.new) }
{
    gates_are_open();
    unused_says_nothing();
    chains_are_told::<P>();
    objects.stands();
    objects.write(o, place, Held::Datum(value))?;
    Ok(Reply::Flag(true))
}

// Writes by full lookup, and fills the inline cache where the property was the receiver's own, writable and of a value.
fn store_by_lookup<P: Pace>(
    objects: &mut Objects<P>,
    sites: &mut Sites,
    s: u32,
    o: u32,
    name: u32,
    map: u32,
    value: Value,
) -> Result<Reply, Memory>
    requires there { o < length (world_of objects.old) }
    requires name { IsNameNumber name }
    requires range { IsInRange value }
    requires has { map_in objects.old.heap.view.trail o ≡ Some map }
    requires site { site_at sites.old s ≡ Some (record { op = Store; name = name }) }
    requires good { AreGood objects.old sites.old }
    ensures reply { IfOk result (λ reply. reply ≡ (set_act (world_of objects.old) o name value).reply) }
    ensures came { OnOk result (Came P.went objects.old (set_act (world_of objects.old) o name value).did objects.new) }
    ensures sites { OnOk result (sites.new ≡ with_events sites.old s (store_fills objects.old o name map)) }
    ensures moved { OnErr result (Came P.went objects.old Moved objects.new) }
    ensures same { OnErr result (sites.new ≡ sites.old) }
    ensures good { AreGood objects.old sites.new }
{
    gates_are_open();
    unused_says_nothing();
    chains_are_told::<P>();
    objects.stands();
    match writable_place(objects, o, name) {
        Some(place) => {
            let reply = write_own(objects, o, name, place, value)?;
            sites.fill(
                s,
                Cached {
                    map,
                    way: CacheWay::Own(place),
                    cell: None,
                },
            );
            Ok(reply)
        }
        None => set(objects, o, name, value),
    }
}

// The place of a writable property of an object's own, of a value.
fn writable_place<P: Pace>(objects: &mut Objects<P>, o: u32, name: u32) -> Option<u32>
    requires there { o < length (world_of objects.old) }
    ensures place { result ≡ writable_place (world_of objects.old) o name }
    ensures own { IfSome result (λ place. IsWritableAt (world_of objects.old) o name place) }
    ensures still { IsStill objects.old objects.new }
{
    let found = own_property(objects, o, name)?;
    if is_writable(&found.property) {
        return Some(found.place);
    }
    None
}

// Whether a property holds a value, and is writable.
fn is_writable(property: &Prop) -> bool
    ensures { result ≡ is_writable property.now }
{
    match property.held {
        Held::Datum(_) => !read_only(property.attrs),
        Held::Pair(_, _) => false,
    }
}
