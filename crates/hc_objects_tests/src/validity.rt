//! Which cells are valid after each kind of change of each object of a chain of four, and of one beside it.
ghost use Rattle.std.specs.Prelude.{◌<◌};

use crate::steps::Given::Int;
use crate::steps::Step::{Delete, Getter, Link, Lock, New, Set, Use};
use crate::steps::{Step, take};
use hc_heap::Free;
use hc_layout::{Region, Shape};
use hc_objects::Objects;
use hc_value::Memory;
use std::alloc::Global;
use std::process::Abort;
use std::test::Fail;

const BOARD: Shape = Shape {
    maps: 64,
    entries: 256,
    fields: 64,
    links: 64,
    objects: 6,
    slots: 256,
    cells: 5,
};

const X: u32 = 0;

const Y: u32 = 1;

const Z: u32 = 2;

// The prototypes of a chain of four, from 3 to 0, of 4, which stands beside it above 0, and of 5, which is on no chain.
const PROTOS: [Option<u32>; 6] = [None, Some(0), Some(1), Some(2), Some(0), None];

// A change, of an object that is put in, and whether it makes cells invalid where the object is fast, and where it is slow.
const CHANGES: [(Step, bool, bool); 10] = [
    (Set(0, Y, Int(1)), false, false),
    (Set(0, Y, Int(2)), false, true),
    (Set(0, Y, Int(5_000_000_000)), true, true),
    (Set(0, Z, Int(1)), true, true),
    (Getter(0, Y, 7), true, true),
    (Delete(0, Y), true, true),
    (Delete(0, Z), false, false),
    (Link(0, 5), true, true),
    (Lock(0), true, false),
    (Use(0), false, false),
];

// For each object, the cells that are valid after something changed there. The cell of an object has its number.
const AFTER: [[bool; 5]; 5] = [
    [false, false, false, false, false],
    [true, false, false, false, true],
    [true, true, false, false, true],
    [true, true, true, false, true],
    [true, true, true, true, false],
];

// The change, of this object.
fn of(change: Step, o: u32) -> Step {
    match change {
        New(proto) => New(proto),
        Set(_, name, given) => Set(o, name, given),
        Getter(_, name, getter) => Getter(o, name, getter),
        Delete(_, name) => Delete(o, name),
        Link(_, proto) => Link(o, proto),
        Lock(_) => Lock(o),
        Use(_) => Use(o),
    }
}

// Gives an object its properties. It goes slow where one of them is deleted.
fn give(rt: &impl Abort, objects: &mut Objects<Free>, o: u32, slow: bool) -> Result<(), Memory> {
    take(rt, objects, Set(o, X, Int(1)))?;
    take(rt, objects, Set(o, Y, Int(1)))?;
    if slow {
        take(rt, objects, Delete(o, X))?;
    }
    Ok(())
}

// Makes the six objects.
fn make(rt: &impl Abort, objects: &mut Objects<Free>) -> Result<(), Memory> {
    for proto in PROTOS {
        take(rt, objects, New(proto))?;
    }
    Ok(())
}

// Asks for the cell of an object.
fn ask(rt: &impl Abort, objects: &mut Objects<Free>, o: u32) -> Option<u32> {
    let there = o < objects.count();
    assert!(rt; there);
    objects.cell_of(o)
}

// The six objects, each with its properties, and a cell for each of the first five.
fn begin(rt: &impl Abort, alloc: Global, slow: bool) -> Result<Objects<Free>, Memory> {
    let mut objects = Objects::new(alloc, BOARD, Free)?;
    make(rt, &mut objects)?;
    for o in 0..6 {
        give(rt, &mut objects, o, slow)?;
    }
    assert!(rt; objects.used(Region::Cells) == 0);
    for o in 0..5 {
        assert!(rt; ask(rt, &mut objects, o) == Some(o));
    }
    Ok(objects)
}

// Which of the five cells are valid.
fn states(objects: &mut Objects<Free>) -> [bool; 5] {
    [
        objects.valid(0),
        objects.valid(1),
        objects.valid(2),
        objects.valid(3),
        objects.valid(4),
    ]
}

// Makes a change, and looks at the cells.
fn check(
    rt: &impl Abort,
    alloc: Global,
    change: Step,
    o: u32,
    slow: bool,
    invalidates: bool,
) -> Result<(), Memory>
    requires object { o < 5 }
{
    let mut objects = begin(rt, alloc, slow)?;
    take(rt, &mut objects, of(change, o))?;
    let after = states(&mut objects);
    if invalidates {
        assert!(rt; after == AFTER[o as usize], "object {o}");
    } else {
        assert!(rt; after == [true; 5], "object {o}");
    }
    assert!(rt; objects.used(Region::Cells) == 5);
    Ok(())
}

// Makes a change of each object, while it is fast, and while it is slow.
fn check_all(
    rt: &impl Abort,
    alloc: Global,
    change: Step,
    fast: bool,
    slow: bool,
) -> Result<(), Memory> {
    for o in 0..5 {
        check(rt, alloc, change, o, false, fast)?;
        check(rt, alloc, change, o, true, slow)?;
    }
    Ok(())
}

#[test]
fn each_change_makes_the_cells_of_its_chains_invalid(rt: HostRuntime) -> Result<(), Fail> {
    for (change, fast, slow) in CHANGES {
        check_all(&rt, rt.alloc(), change, fast, slow)?;
    }
    Ok(())
}

#[test]
fn there_are_as_many_cells_as_their_region_has_room_for(rt: HostRuntime) -> Result<(), Fail> {
    let mut objects = begin(&rt, rt.alloc(), false)?;
    take(&rt, &mut objects, Set(1, Z, Int(1)))?;
    for (o, cell) in [(3, None), (0, Some(0)), (1, None), (4, Some(4))] {
        assert!(rt; ask(&rt, &mut objects, o) == cell);
    }
    assert!(rt; objects.used(Region::Cells) == 5);
    Ok(())
}
