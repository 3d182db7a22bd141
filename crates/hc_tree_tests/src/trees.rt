ghost use Rattle.std.specs.Prelude.{◌≡◌, ◌<◌, ◌≤◌, ◌^◌, [], IfOk};
ghost use Rattle.hc_layout.specs.declared.shape.TheConstants.{SMALL};
ghost use Rattle.hc_layout.specs.declared.words.TheConstants.{NAME_BITS};
ghost use Rattle.hc_heap.specs.Lawful.{IsKey};
ghost use Rattle.hc_heap.specs.States.{no_items};
ghost use Rattle.hc_tree.specs.Tree.{IsProperKey, IsTree};

use bitflags::Flags;
use hc_fields::{new_field, owner, raise};
use hc_heap::{Free, Heap, Space};
use hc_layout::{GateWord, Region, Shape};
use hc_tree::{child_or_make, maps_are_kept, mark_unstable, private_copy, root};
use hc_value::{Attrs, Class, Constness, Detail, Key, Kind, Rep};
use std::test::Fail;

const ANY: Detail = Detail {
    rep: Rep::Tagged,
    constness: Constness::Mutable,
    class: Class::Any,
};

// The key of a data property without attributes.
fn data(name: u32) -> Key
    requires { name < 2 ^ NAME_BITS }
    ensures name { result.name ≡ name }
    ensures form { IsKey result }
    ensures proper { IsProperKey result }
{
    Key {
        name,
        kind: Kind::DataProp,
        attrs: Attrs::from_bits_retain(0),
    }
}

// Makes a root, a child of it, a child of that, and so on, up to so many children or until there is no room.
// The answer is how many were made.
fn chain(heap: &mut Heap<Free>, most: u32) -> u32
    requires most { most ≤ 64 }
    requires tree { IsTree heap.old.view.trail }
{
    maps_are_kept();
    let mut of_null = None;
    let Ok(mut map) = root(heap, None, &mut of_null) else {
        return 0;
    };
    for n in 0..most {
        match child_or_make(heap, map, data(n), ANY) {
            Ok(child) => map = child,
            Err(Space) => return n,
        }
    }
    most
}

#[test]
fn a_root_is_made_once(rt: HostRuntime) -> Result<(), Fail> {
    let mut heap = Heap::new(rt.alloc(), Shape::small(), Free)?;
    let mut of_null = None;
    assert!(rt; root(&mut heap, None, &mut of_null) == Ok(0));
    assert!(rt; of_null == Some(0));
    assert!(rt; root(&mut heap, None, &mut of_null) == Ok(0));
    assert!(rt; heap.used(Region::Maps) == 1);
    Ok(())
}

#[test]
fn a_chain_ends_where_a_region_ends(rt: HostRuntime) -> Result<(), Fail> {
    let enough = Shape {
        maps: 9,
        entries: 64,
        fields: 9,
        links: 9,
        objects: 1,
        slots: 0,
        cells: 0,
    };
    let table = [
        (enough, 7),
        (Shape { maps: 0, ..enough }, 0),
        (Shape { maps: 4, ..enough }, 3),
        (
            Shape {
                entries: 23,
                ..enough
            },
            4,
        ),
        (
            Shape {
                entries: 24,
                ..enough
            },
            5,
        ),
        (
            Shape {
                fields: 2,
                ..enough
            },
            2,
        ),
        (Shape { links: 1, ..enough }, 1),
    ];
    for (shape, made) in table {
        let mut heap = Heap::new(rt.alloc(), shape, Free)?;
        assert!(rt; chain(&mut heap, 7) == made);
    }
    Ok(())
}

#[test]
fn sixty_four_children_in_a_chain(rt: HostRuntime) -> Result<(), Fail> {
    let mut heap = Heap::new(rt.alloc(), Shape::usual(), Free)?;
    assert!(rt; chain(&mut heap, 64) == 64);
    assert!(rt; heap.used(Region::Entries) == 2736);
    assert!(rt; heap.used(Region::Maps) == 65);
    assert!(rt; heap.used(Region::Links) == 64);
    assert!(rt; heap.used(Region::Fields) == 64);
    Ok(())
}

#[test]
fn a_child_is_made_and_becomes_unstable(rt: HostRuntime) -> Result<(), Fail> {
    let mut heap = Heap::new(rt.alloc(), Shape::small(), Free)?;
    let mut of_null = None;
    assert!(rt; root(&mut heap, None, &mut of_null) == Ok(0));
    assert!(rt; child_or_make(&mut heap, 0, data(5), ANY) == Ok(1));
    mark_unstable(&mut heap, 1);
    assert!(rt; heap.bits(1).unstable);
    Ok(())
}

// Whether a map is open, private and has one entry.
fn private_with_one(gate: Option<GateWord>) -> bool {
    match gate {
        Some(word) => word.entries == 1 && word.is_private && !word.is_locked,
        None => false,
    }
}

#[test]
fn a_private_copy_has_the_old_fields_or_new_ones(rt: HostRuntime) -> Result<(), Fail> {
    let mut heap = Heap::new(rt.alloc(), Shape::small(), Free)?;
    let mut of_null = None;
    let Ok(first) = root(&mut heap, None, &mut of_null) else {
        assert!(rt; false);
        return Ok(());
    };
    assert!(rt; private_copy(&mut heap, first, false, None, Some((data(5), ANY))) == Ok(1));
    assert!(rt; private_with_one(heap.gate(1)));
    assert!(rt; heap.reference(0) == Some(0));
    assert!(rt; heap.field_owner(0) == Some(1));
    assert!(rt; private_copy(&mut heap, 1, true, None, None) == Ok(2));
    assert!(rt; private_with_one(heap.gate(2)));
    assert!(rt; heap.entry_key(4) == Some(data(5)));
    assert!(rt; heap.reference(4) == Some(1));
    assert!(rt; heap.field_owner(1) == Some(2));
    assert!(rt; heap.detail(1) == Some(ANY));
    assert!(rt; private_copy(&mut heap, 2, false, None, None) == Ok(3));
    assert!(rt; heap.reference(8) == Some(1));
    assert!(rt; heap.used(Region::Fields) == 2);
    assert!(rt; private_copy(&mut heap, 3, false, None, None) == Err(Space));
    Ok(())
}

#[test]
fn a_detail_rises_in_place(rt: HostRuntime) -> Result<(), Fail> {
    let mut heap = Heap::new(rt.alloc(), Shape::small(), Free)?;
    assert!(rt; heap.fresh(Region::Maps, 2) == 0);
    let first = Detail {
        rep: Rep::Smi,
        constness: Constness::Const,
        class: Class::Any,
    };
    let field = new_field(&mut heap, 1, first);
    assert!(rt; owner(&mut heap, field) == 1);
    let object = Detail {
        rep: Rep::HeapObject,
        ..first
    };
    raise(&mut heap, field, object);
    let joined = Detail {
        rep: Rep::Tagged,
        ..first
    };
    assert!(rt; heap.detail(field) == Some(joined));
    Ok(())
}
