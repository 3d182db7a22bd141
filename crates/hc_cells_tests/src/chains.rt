ghost use Rattle.std.specs.Prelude.{◌≡◌, ◌<◌, ◌≤◌, [], length};
ghost use Rattle.hc_layout.specs.declared.shape.Region.TheVariants.{Objects};
ghost use Rattle.hc_heap.specs.States.{HasRoom, no_items};
ghost use Rattle.hc_cells_tests.specs.Ready.{IsReady, Watches};

use hc_cells::{Watched, cell_of, invalidate, valid};
use hc_heap::{Free, Heap};
use hc_layout::{Region, Shape};
use std::test::Fail;

const SHAPE: Shape = Shape {
    maps: 1,
    entries: 1,
    fields: 1,
    links: 1,
    objects: 5,
    slots: 1,
    cells: 5,
};

// The prototypes of a chain of four, from 3 to 0, and of 4, which stands beside it above 0.
const PROTOS: [Option<u32>; 5] = [None, Some(0), Some(1), Some(2), Some(0)];

// Five slow objects in a heap that has none.
fn make_objects(heap: &mut Heap<Free>)
    requires empty { heap.old.view.trail ≡ [] }
    requires unused { heap.old.view.used ≡ no_items }
    requires room { HasRoom heap.old.view Objects 5 }
    ensures empty { heap.new.view.trail ≡ [] }
    ensures ready { IsReady heap.new.view }
{
    let _first = heap.fresh(Region::Objects, 5);
}

// Asks for a cell.
fn ask(heap: &mut Heap<Free>, object: u32) -> Option<u32>
    requires ready { IsReady heap.old.view }
    requires object { object < 5 }
    ensures ready { IsReady heap.new.view }
{
    cell_of(heap, object)
}

// Changes an object.
fn change(heap: &mut Heap<Free>, object: u32)
    requires ready { IsReady heap.old.view }
    ensures ready { IsReady heap.new.view }
{
    invalidate(heap, object, &PROTOS);
}

// Asks for so many cells, each of the object of its number.
fn make_cells(heap: &mut Heap<Free>, cells: u32)
    requires ready { IsReady heap.old.view }
    requires few { cells ≤ 5 }
    ensures ready { IsReady heap.new.view }
{
    for object in 0..cells {
        let _cell = ask(heap, object);
    }
}

// Asks for a cell, and marks its chain.
fn ask_watched(watched: &mut Watched, heap: &mut Heap<Free>, object: u32) -> Option<u32>
    requires ready { IsReady heap.old.view }
    requires watches { Watches heap.old.view watched.old }
    requires object { object < 5 }
    ensures ready { IsReady heap.new.view }
    ensures watches { Watches heap.new.view watched.new }
{
    watched.cell_of(heap, object, &PROTOS)
}

// Changes an object, where it is marked.
fn change_watched(watched: &mut Watched, heap: &mut Heap<Free>, object: u32)
    requires ready { IsReady heap.old.view }
    requires watches { Watches heap.old.view watched.old }
    requires object { object < 5 }
    ensures ready { IsReady heap.new.view }
    ensures watches { Watches heap.new.view watched.new }
{
    watched.invalidate(heap, object, &PROTOS);
}

// Which of the five objects are marked.
fn marks(watched: &Watched) -> [bool; 5]
    requires size { length watched.now ≡ 5 }
{
    [
        watched.may_concern(0),
        watched.may_concern(1),
        watched.may_concern(2),
        watched.may_concern(3),
        watched.may_concern(4),
    ]
}

// Which of the first five cells are valid.
fn states(heap: &mut Heap<Free>) -> [bool; 5]
    ensures view { heap.new.view ≡ heap.old.view }
{
    [
        valid(heap, 0),
        valid(heap, 1),
        valid(heap, 2),
        valid(heap, 3),
        valid(heap, 4),
    ]
}

// Each object has a cell. For each object that changes, the cells that are valid afterwards.
const AFTER: [[bool; 5]; 5] = [
    [false, false, false, false, false],
    [true, false, false, false, true],
    [true, true, false, false, true],
    [true, true, true, false, true],
    [true, true, true, true, false],
];

#[test]
fn a_change_concerns_the_chains_through_the_object(rt: HostRuntime) -> Result<(), Fail> {
    for changed in 0..5 {
        let mut heap = Heap::new(rt.alloc(), SHAPE, Free)?;
        make_objects(&mut heap);
        make_cells(&mut heap, 5);
        assert!(rt; states(&mut heap) == [true; 5]);
        change(&mut heap, changed);
        assert!(rt; states(&mut heap) == AFTER[changed as usize]);
    }
    Ok(())
}

#[test]
fn cells_to_the_end_of_their_region(rt: HostRuntime) -> Result<(), Fail> {
    let mut heap = Heap::new(rt.alloc(), SHAPE, Free)?;
    make_objects(&mut heap);
    make_cells(&mut heap, 4);
    assert!(rt; ask(&mut heap, 3) == Some(3));
    change(&mut heap, 1);
    for (object, cell) in [(3, Some(4)), (2, None), (0, Some(0)), (3, Some(4))] {
        assert!(rt; ask(&mut heap, object) == cell);
    }
    assert!(rt; states(&mut heap) == [true, false, false, false, true]);
    Ok(())
}

#[test]
fn only_the_objects_of_chains_are_marked(rt: HostRuntime) -> Result<(), Fail> {
    let mut heap = Heap::new(rt.alloc(), SHAPE, Free)?;
    make_objects(&mut heap);
    let mut watched = Watched::new(rt.alloc(), 5)?;
    assert!(rt; ask_watched(&mut watched, &mut heap, 2) == Some(0));
    assert!(rt; marks(&watched) == [true, true, true, false, false]);
    change_watched(&mut watched, &mut heap, 4);
    assert!(rt; states(&mut heap)[0]);
    change_watched(&mut watched, &mut heap, 1);
    assert!(rt; !states(&mut heap)[0]);
    assert!(rt; marks(&watched) == [true, false, true, false, false]);
    Ok(())
}
