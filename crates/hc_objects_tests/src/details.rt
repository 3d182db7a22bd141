//! What the fields of properties say after adds, stores, private copies and changed prototypes, and which maps die.
use crate::steps::Given::{Int, Object, Truth};
use crate::steps::Step::{Getter, Link, Lock, New, Set, Use};
use crate::steps::{BOARD, Given, Row, dead_maps, detail_of, field_of, take, walk};
use hc_heap::Free;
use hc_layout::Region;
use hc_objects::Objects;
use hc_value::Class::{Any, Of};
use hc_value::Constness::{Const, Mutable};
use hc_value::Rep::{HeapObject, Smi, Tagged, Wide};
use hc_value::{Class, Constness, Detail, Memory, Rep};
use std::alloc::Global;
use std::process::Abort;
use std::test::Fail;

const X: u32 = 0;

const Y: u32 = 1;

const Z: u32 = 2;

// The least integer that isn't small, and those at the ends of the small ones.
const BIG: i64 = 1_073_741_824;

const GREATEST: i64 = 1_073_741_823;

const LEAST: i64 = -1_073_741_824;

const FIRST: [Row; 7] = [
    (Set(0, X, Int(1)), 0, 0, Smi, Const, Any),
    (Set(0, X, Int(1)), 0, 0, Smi, Const, Any),
    (Set(0, X, Int(2)), 0, 0, Smi, Mutable, Any),
    (Set(0, X, Truth(true)), 0, 0, Tagged, Mutable, Any),
    (New(None), 0, 0, Tagged, Mutable, Any),
    (Set(1, Y, Object(0)), 1, 0, HeapObject, Const, Of(1)),
    (Set(1, Y, Object(0)), 0, 0, Tagged, Mutable, Any),
];

#[test]
fn a_field_says_what_its_property_was_given(rt: HostRuntime) -> Result<(), Fail> {
    let mut objects = Objects::new(rt.alloc(), BOARD, Free)?;
    take(&rt, &mut objects, New(None))?;
    walk(&rt, &mut objects, &FIRST)?;
    assert!(rt; objects.count() == 2);
    assert!(rt; objects.map_of(0) == Some(1));
    Ok(())
}

// Two values, and what a field admits that has had the first and then the second: of objects 2 and 3 the map is 1, of
// object 4 it is 2; that of object 5 is unstable, and object 6 is slow.
const JOINS: [(Given, Given, Rep, Constness, Class); 26] = [
    (Int(1), Int(1), Smi, Const, Any),
    (Int(1), Int(2), Smi, Mutable, Any),
    (Int(LEAST), Int(GREATEST), Smi, Mutable, Any),
    (Int(LEAST), Int(LEAST - 1), Wide, Mutable, Any),
    (Int(1), Int(BIG), Wide, Mutable, Any),
    (Int(1), Truth(true), Tagged, Mutable, Any),
    (Int(1), Object(2), Tagged, Mutable, Any),
    (Int(BIG), Int(BIG), Wide, Const, Any),
    (Int(BIG), Int(1), Wide, Mutable, Any),
    (Int(BIG), Truth(true), Tagged, Mutable, Any),
    (Int(BIG), Object(2), Tagged, Mutable, Any),
    (Truth(true), Truth(true), HeapObject, Const, Any),
    (Truth(true), Truth(false), HeapObject, Mutable, Any),
    (Truth(true), Int(1), Tagged, Mutable, Any),
    (Truth(true), Int(BIG), Tagged, Mutable, Any),
    (Truth(true), Object(2), HeapObject, Mutable, Any),
    (Object(2), Object(2), HeapObject, Const, Of(1)),
    (Object(2), Object(3), HeapObject, Mutable, Of(1)),
    (Object(2), Object(4), HeapObject, Mutable, Any),
    (Object(2), Object(5), HeapObject, Mutable, Any),
    (Object(2), Object(6), HeapObject, Mutable, Any),
    (Object(2), Truth(true), HeapObject, Mutable, Any),
    (Object(2), Int(1), Tagged, Mutable, Any),
    (Object(2), Int(BIG), Tagged, Mutable, Any),
    (Object(5), Object(5), HeapObject, Const, Any),
    (Object(6), Object(6), HeapObject, Const, Any),
];

// The objects that the values name.
fn prepared(rt: &impl Abort, alloc: Global) -> Result<Objects<Free>, Memory> {
    let mut objects = Objects::new(alloc, BOARD, Free)?;
    for _ in 0..7u32 {
        take(rt, &mut objects, New(None))?;
    }
    take(rt, &mut objects, Set(2, Y, Int(1)))?;
    take(rt, &mut objects, Set(3, Y, Int(1)))?;
    take(rt, &mut objects, Set(4, Z, Int(1)))?;
    take(rt, &mut objects, Lock(6))?;
    Ok(objects)
}

#[test]
fn a_store_joins_its_value_and_a_differing_one_makes_the_field_mutable(
    rt: HostRuntime,
) -> Result<(), Fail> {
    for (i, (first, second, rep, constness, class)) in JOINS.iter().copied().enumerate() {
        let mut objects = prepared(&rt, rt.alloc())?;
        take(&rt, &mut objects, Set(0, X, first))?;
        take(&rt, &mut objects, Set(0, X, second))?;
        let joined = Detail {
            rep,
            constness,
            class,
        };
        assert!(rt; detail_of(&mut objects, 0, 0) == Some(joined), "row {i}");
    }
    Ok(())
}

#[test]
fn an_add_that_finds_a_live_child_joins_its_value_as_a_constant(
    rt: HostRuntime,
) -> Result<(), Fail> {
    for (i, (first, second, rep, _, class)) in JOINS.iter().copied().enumerate() {
        let mut objects = prepared(&rt, rt.alloc())?;
        take(&rt, &mut objects, Set(0, X, first))?;
        take(&rt, &mut objects, Set(1, X, second))?;
        take(&rt, &mut objects, Use(0))?;
        let joined = Detail {
            rep,
            constness: Const,
            class,
        };
        assert!(rt; detail_of(&mut objects, 0, 0) == Some(joined), "row {i}");
        assert!(rt;
            field_of(&mut objects, 0, 0) == field_of(&mut objects, 1, 0),
            "row {i}"
        );
    }
    Ok(())
}

// The name of a property beside z.
const W: u32 = 3;

// What all fields of a branch of three were given, with a fourth map beside the last; the place of the last map that is given
// another value; what its field holds then; how many maps die and how many are made; and how many are made for the object that
// has the fourth map, when it is used.
const BRANCHES: [(Given, u32, Given, Rep, u32, u32, u32); 10] = [
    (Int(1), X, Int(BIG), Wide, 4, 3, 1),
    (Int(1), Y, Int(LEAST - 1), Wide, 3, 2, 1),
    (Int(1), Z, Int(BIG), Wide, 1, 1, 0),
    (Int(1), Y, Truth(true), Tagged, 0, 0, 0),
    (Int(BIG), X, Truth(true), Tagged, 4, 3, 1),
    (Int(BIG), Y, Truth(true), Tagged, 3, 2, 1),
    (Int(BIG), Z, Object(3), Tagged, 1, 1, 0),
    (Int(BIG), X, Int(1), Wide, 0, 0, 0),
    (Truth(true), X, Int(BIG), Tagged, 0, 0, 0),
    (Truth(true), Z, Object(3), HeapObject, 0, 0, 0),
];

// Objects 0 and 1 have x, y and z, object 2 has x, y and w, and object 3 has none.
fn branched(rt: &impl Abort, alloc: Global, given: Given) -> Result<Objects<Free>, Memory> {
    let mut objects = Objects::new(alloc, BOARD, Free)?;
    for (o, last) in [(0, Z), (1, Z), (2, W)] {
        take(rt, &mut objects, New(None))?;
        take(rt, &mut objects, Set(o, X, given))?;
        take(rt, &mut objects, Set(o, Y, given))?;
        take(rt, &mut objects, Set(o, last, given))?;
    }
    take(rt, &mut objects, New(None))?;
    Ok(objects)
}

// What a field is to hold, if there is one.
fn rep_of(detail: Option<Detail>) -> Option<Rep> {
    Some(detail?.rep)
}

#[test]
fn a_field_that_is_outgrown_takes_its_maps_with_it(rt: HostRuntime) -> Result<(), Fail> {
    for (i, row) in BRANCHES.iter().copied().enumerate() {
        let (given, place, other, rep, dead, made, later) = row;
        let mut objects = branched(&rt, rt.alloc(), given)?;
        let before = objects.used(Region::Maps);
        take(&rt, &mut objects, Set(0, place, other))?;
        let maps = objects.used(Region::Maps);
        assert!(rt; maps == before.saturating_add(made), "row {i}");
        assert!(rt; dead_maps(&mut objects) == dead, "row {i}");
        assert!(rt;
            rep_of(detail_of(&mut objects, 0, place)) == Some(rep),
            "row {i}"
        );
        check_moved(&rt, &mut objects, maps.saturating_add(later))?;
    }
    Ok(())
}

// Stops unless object 1 comes to the map of object 0, and object 2 to one that shares the first fields with it, so that there are
// so many maps.
fn check_moved(rt: &impl Abort, objects: &mut Objects<Free>, maps: u32) -> Result<(), Memory> {
    take(rt, objects, Use(1))?;
    take(rt, objects, Use(2))?;
    assert!(rt; objects.used(Region::Maps) == maps);
    for place in 0..3u32 {
        assert!(rt; field_of(objects, 0, place) == field_of(objects, 1, place));
    }
    for place in 0..2u32 {
        assert!(rt; field_of(objects, 0, place) == field_of(objects, 2, place));
    }
    Ok(())
}

const CLASSES: [Row; 6] = [
    (Set(0, X, Object(0)), 0, 0, HeapObject, Const, Of(0)),
    (Set(0, X, Object(0)), 0, 0, HeapObject, Const, Any),
    (New(None), 0, 0, HeapObject, Const, Any),
    (Set(1, Y, Object(0)), 1, 0, HeapObject, Const, Of(1)),
    (Set(0, Z, Int(1)), 1, 0, HeapObject, Const, Of(1)),
    (Set(1, Y, Object(0)), 1, 0, HeapObject, Const, Any),
];

#[test]
fn a_class_is_taken_before_the_first_store(rt: HostRuntime) -> Result<(), Fail> {
    let mut objects = Objects::new(rt.alloc(), BOARD, Free)?;
    take(&rt, &mut objects, New(None))?;
    walk(&rt, &mut objects, &CLASSES)?;
    Ok(())
}

const ACCESSORS: [Row; 6] = [
    (Getter(0, X, 3), 0, 0, Tagged, Mutable, Any),
    (Getter(0, X, 4), 0, 0, Tagged, Mutable, Any),
    (Set(0, Y, Int(1)), 0, 1, Smi, Const, Any),
    (New(None), 0, 0, Tagged, Mutable, Any),
    (Getter(1, X, 5), 1, 0, Tagged, Mutable, Any),
    (Set(1, Y, Int(2)), 1, 1, Smi, Const, Any),
];

#[test]
fn the_field_of_an_accessor_admits_everything(rt: HostRuntime) -> Result<(), Fail> {
    let mut objects = Objects::new(rt.alloc(), BOARD, Free)?;
    take(&rt, &mut objects, New(None))?;
    walk(&rt, &mut objects, &ACCESSORS)?;
    assert!(rt; field_of(&mut objects, 0, 0) == field_of(&mut objects, 1, 0));
    Ok(())
}

// Object 2, whose prototype is object 1, has x; object 0 comes to that prototype with x and two properties more.
const LINKED: [Row; 11] = [
    (New(Some(1)), 0, 0, Smi, Const, Any),
    (Set(2, X, Truth(true)), 2, 0, HeapObject, Const, Any),
    (Set(2, Y, Int(1)), 2, 1, Smi, Const, Any),
    (Set(0, Y, Int(1)), 0, 1, Smi, Const, Any),
    (Set(0, Y, Int(2)), 0, 1, Smi, Mutable, Any),
    (Set(0, Z, Int(3)), 0, 2, Smi, Const, Any),
    (Set(0, Z, Int(4)), 0, 2, Smi, Mutable, Any),
    (Link(0, 1), 2, 0, Tagged, Const, Any),
    (Set(2, Y, Int(1)), 2, 1, Smi, Mutable, Any),
    (Set(2, Z, Int(5)), 0, 2, Smi, Mutable, Any),
    (Set(2, X, Truth(true)), 0, 0, Tagged, Const, Any),
];

#[test]
fn another_prototype_joins_the_fields_of_live_children(rt: HostRuntime) -> Result<(), Fail> {
    let mut objects = Objects::new(rt.alloc(), BOARD, Free)?;
    take(&rt, &mut objects, New(None))?;
    take(&rt, &mut objects, New(None))?;
    take(&rt, &mut objects, Set(0, X, Int(1)))?;
    walk(&rt, &mut objects, &LINKED)?;
    for place in 0..3u32 {
        assert!(rt; field_of(&mut objects, 0, place) == field_of(&mut objects, 2, place));
    }
    Ok(())
}

const SHARED: [Row; 3] = [
    (Set(0, X, Int(1)), 0, 0, Smi, Const, Any),
    (New(None), 0, 0, Smi, Const, Any),
    (Set(1, X, Int(1)), 1, 0, Smi, Const, Any),
];

const FIRST_PRIVATE: [Row; 3] = [
    (New(Some(0)), 0, 0, Smi, Const, Any),
    (Set(0, X, Int(2)), 0, 0, Smi, Mutable, Any),
    (Set(1, X, Int(1)), 1, 0, Smi, Const, Any),
];

const LATER_PRIVATE: [Row; 4] = [
    (Set(0, Y, Truth(true)), 0, 1, HeapObject, Const, Any),
    (Set(0, Y, Truth(true)), 0, 0, Smi, Mutable, Any),
    (Link(0, 1), 0, 0, Smi, Mutable, Any),
    (Set(0, Y, Truth(false)), 0, 1, HeapObject, Mutable, Any),
];

#[test]
fn a_first_private_map_has_fields_of_its_own_and_later_ones_share_them(
    rt: HostRuntime,
) -> Result<(), Fail> {
    let mut objects = Objects::new(rt.alloc(), BOARD, Free)?;
    take(&rt, &mut objects, New(None))?;
    walk(&rt, &mut objects, &SHARED)?;
    assert!(rt; field_of(&mut objects, 0, 0) == field_of(&mut objects, 1, 0));
    walk(&rt, &mut objects, &FIRST_PRIVATE)?;
    let own = field_of(&mut objects, 0, 0);
    assert!(rt; own != field_of(&mut objects, 1, 0));
    walk(&rt, &mut objects, &LATER_PRIVATE)?;
    assert!(rt; field_of(&mut objects, 0, 0) == own);
    Ok(())
}
