ghost use Rattle.std.specs.Prelude.{◌<◌};

use bitflags::Flags;
use hc_heap::Free;
use hc_layout::{Region, Shape};
use hc_objects::Objects;
use hc_table::Tables;
use hc_value::{Attrs, Cause, Held, Memory, Mode, Prop, Value};
use std::process::Abort;
use std::test::Fail;

// Room for 8 objects, and for one of 64 properties.
const ROOMY: Shape = Shape {
    maps: 128,
    entries: 4096,
    fields: 128,
    links: 128,
    objects: 8,
    slots: 256,
    cells: 0,
};

// Gives an object that is there a property that it lacks.
fn give(rt: &impl Abort, objects: &mut Objects<Free>, o: u32, name: u32) -> Result<(), Memory>
    requires name { name < 1048576 }
{
    let there = o < objects.count();
    assert!(rt; there);
    let free = objects.extensible(o);
    assert!(rt; free);
    let absent = objects.find_own(o, name).is_none();
    assert!(rt; absent);
    let prop = Prop {
        name,
        attrs: Attrs::empty(),
        held: Held::Datum(Value::Bool(true)),
    };
    objects.add(o, prop)
}

// How an object that is there is kept.
fn shape_of(rt: &impl Abort, objects: &mut Objects<Free>, o: u32) -> Result<Mode, Memory> {
    let there = o < objects.count();
    assert!(rt; there);
    objects.shape(o)
}

// Stops unless an object that is there has as many properties, whose names are their places.
fn expect_names(rt: &impl Abort, objects: &mut Objects<Free>, o: u32, count: u32) {
    let there = o < objects.count();
    assert!(rt; there);
    assert!(rt; objects.len(o) == count);
    for name in 0..count {
        expect_name(rt, objects, o, name);
    }
}

// Stops unless an object that is there has the property of a name at the place of that number.
fn expect_name(rt: &impl Abort, objects: &mut Objects<Free>, o: u32, name: u32) {
    let there = o < objects.count();
    assert!(rt; there);
    assert!(rt; objects.find_own(o, name) == Some(name));
}

#[test]
fn an_object_of_sixty_four_properties_is_fast_and_the_next_makes_it_slow(
    rt: HostRuntime,
) -> Result<(), Fail> {
    let mut objects = Objects::new(rt.alloc(), ROOMY, Free)?;
    assert!(rt; Tables::create(&mut objects, None) == Ok(0));
    for name in 0..64u32 {
        give(&rt, &mut objects, 0, name)?;
    }
    assert!(rt; shape_of(&rt, &mut objects, 0)? == Mode::Fast(64));
    assert!(rt; objects.used(Region::Entries) == 2736);
    assert!(rt; objects.used(Region::Maps) == 65);
    assert!(rt; objects.used(Region::Links) == 64);
    assert!(rt; objects.used(Region::Slots) == 124);
    give(&rt, &mut objects, 0, 64)?;
    assert!(rt; shape_of(&rt, &mut objects, 0)? == Mode::Slow(Cause::Many));
    expect_names(&rt, &mut objects, 0, 65);
    Ok(())
}

#[test]
fn an_object_is_slow_where_its_next_map_has_no_room(rt: HostRuntime) -> Result<(), Fail> {
    let mut objects = Objects::new(rt.alloc(), Shape::small(), Free)?;
    assert!(rt; Tables::create(&mut objects, None) == Ok(0));
    for name in 0..3u32 {
        give(&rt, &mut objects, 0, name)?;
    }
    assert!(rt; shape_of(&rt, &mut objects, 0)? == Mode::Fast(3));
    give(&rt, &mut objects, 0, 3)?;
    assert!(rt; shape_of(&rt, &mut objects, 0)? == Mode::Slow(Cause::Space));
    expect_names(&rt, &mut objects, 0, 4);
    Ok(())
}

// How many slots were handed out, of 256, after an object got as many properties.
const HANDED_OUT: [u32; 10] = [0, 4, 4, 4, 4, 12, 12, 12, 12, 28];

#[test]
fn slots_are_handed_out_where_an_object_lacks_one(rt: HostRuntime) -> Result<(), Fail> {
    let mut objects = Objects::new(rt.alloc(), ROOMY, Free)?;
    assert!(rt; objects.slot_room(ROOMY) == 256);
    assert!(rt; Tables::create(&mut objects, None) == Ok(0));
    for (name, slots) in HANDED_OUT.iter().copied().enumerate() {
        assert!(rt; objects.used(Region::Slots) == slots, "row {name}");
        give(&rt, &mut objects, 0, name as u32)?;
    }
    Ok(())
}
