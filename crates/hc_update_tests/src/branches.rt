ghost use Rattle.std.specs.Prelude.{◌≡◌, ◌+◌, ◌<◌, ◌^◌, IfSome};
ghost use Rattle.hc_layout.specs.declared.words.TheConstants.{NAME_BITS};
ghost use Rattle.hc_heap.specs.Lawful.{IsKey};
ghost use Rattle.hc_value.specs.declared.prop.Kind.TheVariants.{DataProp};
ghost use Rattle.hc_tree.specs.Tree.{IsProperKey, IsTree};
ghost use Rattle.hc_update_tests.specs.Branches.{ChildrenStay, IsBranch, IsEnd, IsPlain, IsUnderOf, RootsStay};

use bitflags::Flags;
use hc_heap::{Free, Heap, Space};
use hc_layout::{Region, Shape};
use hc_tree::{child_or_make, deprecate, detail_at, maps_are_kept, private_copy, root};
use hc_update::{generalise, updated};
use hc_value::{Attrs, Class, Constness, Detail, Key, Kind, Rep};
use std::test::Fail;

const SMALL: Detail = Detail {
    rep: Rep::Smi,
    constness: Constness::Const,
    class: Class::Any,
};

const WIDE: Detail = Detail {
    rep: Rep::Wide,
    constness: Constness::Const,
    class: Class::Any,
};

const OBJECT: Detail = Detail {
    rep: Rep::HeapObject,
    constness: Constness::Const,
    class: Class::Any,
};

// The key of a data property without attributes.
fn data(name: u32) -> Key
    requires { name < 2 ^ NAME_BITS }
    ensures name { result.name ≡ name }
    ensures kind { result.kind ≡ DataProp }
    ensures form { IsKey result }
    ensures proper { IsProperKey result }
{
    Key {
        name,
        kind: Kind::DataProp,
        attrs: Attrs::from_bits_retain(0),
    }
}

// The child of a branch's last map for the next name.
fn next(heap: &mut Heap<Free>, map: u32, n: u32, detail: Detail) -> Option<u32>
    requires few { n < 8 }
    requires end { IsEnd heap.old.view map n }
    requires detail { IsPlain detail }
    ensures end { IfSome result (λ c. IsEnd heap.new.view c (n + 1)) }
    ensures under { IfSome result (λ c. IsUnderOf heap.new.view.trail c (n + 1) map) }
    ensures children { ChildrenStay heap.old.view.trail heap.new.view.trail }
    ensures roots { RootsStay heap.old.view.trail heap.new.view.trail }
{
    maps_are_kept();
    match child_or_make(heap, map, data(n), detail) {
        Ok(child) => Some(child),
        Err(Space) => None,
    }
}

// A child of a branch's last map for a name of its own. The branch may still grow.
fn beside(heap: &mut Heap<Free>, map: u32, n: u32, detail: Detail) -> bool
    requires few { n < 8 }
    requires end { IsEnd heap.old.view map n }
    requires detail { IsPlain detail }
    ensures end { IsEnd heap.new.view map n }
    ensures roots { RootsStay heap.old.view.trail heap.new.view.trail }
{
    maps_are_kept();
    match child_or_make(heap, map, data(9), detail) {
        Ok(_) => true,
        Err(Space) => false,
    }
}

// A branch of three from a root, with fields of these details: its first map, and its last.
fn branch(
    heap: &mut Heap<Free>,
    root: u32,
    first: Detail,
    second: Detail,
    third: Detail,
) -> Option<(u32, u32)>
    requires end { IsEnd heap.old.view root 0 }
    requires first { IsPlain first }
    requires second { IsPlain second }
    requires third { IsPlain third }
    ensures made { IfSome result (λ maps. IsBranch heap.new.view root maps) }
    ensures children { ChildrenStay heap.old.view.trail heap.new.view.trail }
    ensures roots { RootsStay heap.old.view.trail heap.new.view.trail }
{
    let begin = next(heap, root, 0, first)?;
    let middle = next(heap, begin, 1, second)?;
    let end = next(heap, middle, 2, third)?;
    Some((begin, end))
}

// How many maps are deprecated.
fn dead(heap: &mut Heap<Free>) -> u32 {
    let mut count = 0;
    for map in 0..heap.used(Region::Maps) {
        if heap.bits(map).deprecated {
            count += 1;
        }
    }
    count
}

// Of a branch of three, with a fourth map beside the last, the field of an entry is to admit more. The answer is how many maps
// died, how many were made, the representation of the entry's new field, and whether an update of the branch's dead end finds
// the new map, and makes none.
fn outcome(
    heap: &mut Heap<Free>,
    before: Detail,
    i: u32,
    given: Detail,
) -> Option<(u32, u32, Rep, bool)>
    requires tree { IsTree heap.old.view.trail }
    requires entry { i < 3 }
    requires before { IsPlain before }
    requires given { IsPlain given }
{
    maps_are_kept();
    let mut of_null = None;
    let Ok(root) = root(heap, None, &mut of_null) else {
        return None;
    };
    let first = next(heap, root, 0, before)?;
    let second = next(heap, first, 1, before)?;
    beside(heap, second, 2, before);
    let third = next(heap, second, 2, before)?;
    let maps = heap.used(Region::Maps);
    let Ok(map) = generalise(heap, third, i, given) else {
        return None;
    };
    let made = heap.used(Region::Maps).saturating_sub(maps);
    let now = detail_at(heap, map, i);
    let found = updated(heap, third, root) == Ok(map);
    let still = heap.used(Region::Maps) == maps.saturating_add(made);
    Some((dead(heap), made, now.rep, found && still))
}

#[test]
fn the_owner_dies_with_its_subtree_and_new_maps_are_found(rt: HostRuntime) -> Result<(), Fail> {
    let table = [
        (SMALL, 0, OBJECT, (4, 3, Rep::Tagged, true)),
        (SMALL, 1, OBJECT, (3, 2, Rep::Tagged, true)),
        (SMALL, 2, OBJECT, (1, 1, Rep::Tagged, true)),
        (OBJECT, 1, SMALL, (3, 2, Rep::Tagged, true)),
        (OBJECT, 2, OBJECT, (1, 1, Rep::HeapObject, true)),
        (SMALL, 0, SMALL, (4, 3, Rep::Smi, true)),
    ];
    for (before, i, given, expected) in table {
        let mut heap = Heap::new(rt.alloc(), Shape::usual(), Free)?;
        assert!(rt; outcome(&mut heap, before, i, given) == Some(expected));
    }
    Ok(())
}

#[test]
fn a_field_that_grows_wide_or_out_of_wide_is_made_anew(rt: HostRuntime) -> Result<(), Fail> {
    let table = [
        (SMALL, 0, WIDE, (4, 3, Rep::Wide, true)),
        (SMALL, 1, WIDE, (3, 2, Rep::Wide, true)),
        (SMALL, 2, WIDE, (1, 1, Rep::Wide, true)),
        (WIDE, 0, OBJECT, (4, 3, Rep::Tagged, true)),
        (WIDE, 2, SMALL, (1, 1, Rep::Wide, true)),
        (OBJECT, 1, WIDE, (3, 2, Rep::Tagged, true)),
    ];
    for (before, i, given, expected) in table {
        let mut heap = Heap::new(rt.alloc(), Shape::usual(), Free)?;
        assert!(rt; outcome(&mut heap, before, i, given) == Some(expected));
    }
    Ok(())
}

// Of a private copy of a branch of three, with fields of its own, the field of an entry is to admit more. The answer is how many maps
// died, how many were made, how many fields were, and the representation of the entry's new field.
fn alone(
    heap: &mut Heap<Free>,
    before: Detail,
    i: u32,
    given: Detail,
) -> Option<(u32, u32, u32, Rep)>
    requires tree { IsTree heap.old.view.trail }
    requires entry { i < 3 }
    requires before { IsPlain before }
    requires given { IsPlain given }
{
    let mut of_null = None;
    let Ok(root) = root(heap, None, &mut of_null) else {
        return None;
    };
    let (_, third) = branch(heap, root, before, before, before)?;
    let Ok(own) = private_copy(heap, third, true, None, None) else {
        return None;
    };
    if heap.bits(own).deprecated {
        return None;
    }
    let maps = heap.used(Region::Maps);
    let fields = heap.used(Region::Fields);
    let Ok(map) = generalise(heap, own, i, given) else {
        return None;
    };
    let made = heap.used(Region::Maps).saturating_sub(maps);
    let fields = heap.used(Region::Fields).saturating_sub(fields);
    let now = detail_at(heap, map, i);
    Some((dead(heap), made, fields, now.rep))
}

#[test]
fn a_private_map_dies_alone(rt: HostRuntime) -> Result<(), Fail> {
    let table = [
        (SMALL, 0, WIDE, (1, 1, 1, Rep::Wide)),
        (SMALL, 2, WIDE, (1, 1, 1, Rep::Wide)),
        (WIDE, 1, OBJECT, (1, 1, 1, Rep::Tagged)),
        (WIDE, 2, SMALL, (1, 1, 1, Rep::Wide)),
    ];
    for (before, i, given, expected) in table {
        let mut heap = Heap::new(rt.alloc(), Shape::usual(), Free)?;
        assert!(rt; alone(&mut heap, before, i, given) == Some(expected));
    }
    Ok(())
}

// Of a branch of three the root's child is asked to admit more. The answer is how many maps died, how many were made, and the
// representation of the field that is used.
fn asked(heap: &mut Heap<Free>, before: Detail, given: Detail) -> Option<(u32, u32, Rep)>
    requires tree { IsTree heap.old.view.trail }
    requires before { IsPlain before }
    requires given { IsPlain given }
{
    let mut of_null = None;
    let Ok(root) = root(heap, None, &mut of_null) else {
        return None;
    };
    branch(heap, root, before, before, before)?;
    let maps = heap.used(Region::Maps);
    let map = next(heap, root, 0, given)?;
    let made = heap.used(Region::Maps).saturating_sub(maps);
    let now = detail_at(heap, map, 0);
    Some((dead(heap), made, now.rep))
}

#[test]
fn a_child_that_does_not_join_in_place_dies_with_its_subtree(rt: HostRuntime) -> Result<(), Fail> {
    let table = [
        (SMALL, SMALL, (0, 0, Rep::Smi)),
        (SMALL, OBJECT, (0, 0, Rep::Tagged)),
        (SMALL, WIDE, (3, 1, Rep::Wide)),
        (WIDE, WIDE, (0, 0, Rep::Wide)),
        (WIDE, SMALL, (0, 0, Rep::Wide)),
        (WIDE, OBJECT, (3, 1, Rep::Tagged)),
        (OBJECT, WIDE, (0, 0, Rep::Tagged)),
    ];
    for (before, given, expected) in table {
        let mut heap = Heap::new(rt.alloc(), Shape::usual(), Free)?;
        assert!(rt; asked(&mut heap, before, given) == Some(expected));
    }
    Ok(())
}

// A dead branch whose second field has this detail, and the others are small, is updated, where the live branch's second and last
// fields have these. The answer is how many maps died then, how many were made, and what those two fields hold.
fn cut(
    heap: &mut Heap<Free>,
    own: Detail,
    live: Detail,
    last: Detail,
) -> Option<(u32, u32, Rep, Rep)>
    requires tree { IsTree heap.old.view.trail }
    requires own { IsPlain own }
    requires live { IsPlain live }
    requires last { IsPlain last }
{
    maps_are_kept();
    let mut of_null = None;
    let Ok(root) = root(heap, None, &mut of_null) else {
        return None;
    };
    let (first, third) = branch(heap, root, SMALL, own, SMALL)?;
    deprecate(heap, first);
    branch(heap, root, SMALL, live, last)?;
    let maps = heap.used(Region::Maps);
    let Ok(map) = updated(heap, third, root) else {
        return None;
    };
    let made = heap.used(Region::Maps).saturating_sub(maps);
    let second = detail_at(heap, map, 1);
    let third = detail_at(heap, map, 2);
    Some((dead(heap).saturating_sub(3), made, second.rep, third.rep))
}

#[test]
fn an_update_cuts_where_a_live_field_does_not_join_in_place(rt: HostRuntime) -> Result<(), Fail> {
    let table = [
        (SMALL, SMALL, SMALL, (0, 0, Rep::Smi, Rep::Smi)),
        (OBJECT, SMALL, OBJECT, (0, 0, Rep::Tagged, Rep::Tagged)),
        (WIDE, SMALL, SMALL, (2, 2, Rep::Wide, Rep::Smi)),
        (WIDE, SMALL, OBJECT, (2, 2, Rep::Wide, Rep::Tagged)),
        (SMALL, WIDE, WIDE, (0, 0, Rep::Wide, Rep::Wide)),
        (OBJECT, WIDE, SMALL, (2, 2, Rep::Tagged, Rep::Smi)),
        (WIDE, OBJECT, SMALL, (0, 0, Rep::Tagged, Rep::Smi)),
    ];
    for (own, live, last, expected) in table {
        let mut heap = Heap::new(rt.alloc(), Shape::usual(), Free)?;
        assert!(rt; cut(&mut heap, own, live, last) == Some(expected));
    }
    Ok(())
}
