ghost use Rattle.std.specs.Prelude.{◌≡◌};

use bitflags::Flags;
use hc_dict::Dict;
use hc_value::{Attrs, Held, Prop};
use std::process::Abort;
use std::test::Fail;

// An accessor property with a getter.
fn property(name: u32, getter: u32) -> Prop
    ensures { result.name ≡ name }
{
    Prop {
        name,
        attrs: Attrs::DONT_ENUM,
        held: Held::Pair(Some(getter), None),
    }
}

// Puts a property last, where its name is new.
fn insert(rt: &impl Abort, dict: &mut Dict, name: u32, getter: u32) {
    let place = dict.find(name);
    assert!(rt; place.is_none() && name < 1_048_576);
    assert_eq!(rt; dict.insert(property(name, getter)), Ok(()));
}

// Stops unless the properties are those that are wanted, in order.
fn expect(rt: &impl Abort, dict: &Dict, want: &[(u32, u32)]) {
    let len = dict.len();
    assert!(rt; len as usize == want.len());
    for i in 0..len {
        let (name, getter) = want[i as usize];
        assert_eq!(rt; dict.prop(i), property(name, getter), "at {i}");
        assert_eq!(rt; dict.find(name), Some(i), "at {i}");
    }
}

#[test]
fn properties_stand_in_the_order_of_their_insertion(rt: HostRuntime) -> Result<(), Fail> {
    let mut dict = Dict::new(rt.alloc());
    assert!(rt; dict.is_empty());
    expect(&rt, &dict, &[]);
    for (name, getter) in [(7, 70), (3, 30), (1_048_575, 5), (0, 1)] {
        insert(&rt, &mut dict, name, getter);
    }
    assert!(rt; !dict.is_empty());
    expect(&rt, &dict, &[(7, 70), (3, 30), (1_048_575, 5), (0, 1)]);
    assert_eq!(rt; dict.find(4), None);
    Ok(())
}

#[test]
fn a_removal_keeps_the_order_and_a_change_the_place(rt: HostRuntime) -> Result<(), Fail> {
    let mut dict = Dict::new(rt.alloc());
    for (name, getter) in [(7, 70), (3, 30), (9, 90), (1, 10)] {
        insert(&rt, &mut dict, name, getter);
    }
    let place = dict.find(3).expect(&rt, "there");
    dict.remove(place);
    expect(&rt, &dict, &[(7, 70), (9, 90), (1, 10)]);
    assert_eq!(rt; dict.find(3), None);
    let place = dict.find(9).expect(&rt, "there");
    dict.set(place, property(9, 91));
    expect(&rt, &dict, &[(7, 70), (9, 91), (1, 10)]);
    insert(&rt, &mut dict, 3, 31);
    expect(&rt, &dict, &[(7, 70), (9, 91), (1, 10), (3, 31)]);
    Ok(())
}

// Takes the property of a name away where there is one, and puts one last where there is none, in both.
fn change(rt: &impl Abort, dict: &mut Dict, list: &mut Vec<u32>, name: u32) -> Result<(), Fail> {
    let Some(place) = dict.find(name) else {
        insert(rt, dict, name, name);
        list.push(name)?;
        return Ok(());
    };
    assert!(rt; (place as usize) < list.len());
    assert_eq!(rt; list.remove(place as usize), name);
    dict.remove(place);
    Ok(())
}

// Stops unless the properties have these names, in order.
fn expect_names(rt: &impl Abort, dict: &Dict, list: &Vec<u32>) {
    let len = dict.len();
    assert!(rt; len as usize == list.len());
    for i in 0..len {
        let name = list[i as usize];
        assert_eq!(rt; dict.prop(i), property(name, name), "at {i}");
        assert_eq!(rt; dict.find(name), Some(i), "at {i}");
    }
}

#[test]
fn insertions_and_deletions_agree_with_a_plain_list(rt: HostRuntime) -> Result<(), Fail> {
    let mut dict = Dict::new(rt.alloc());
    let mut list = Vec::new(rt.alloc());
    let mut draw: u32 = 1;
    for step in 0..6000 {
        draw = draw.wrapping_mul(1_664_525).wrapping_add(1_013_904_223);
        let names = if step < 3000 { 700 } else { 90 };
        change(&rt, &mut dict, &mut list, (draw >> 12) % names)?;
        if step % 251 == 0 {
            expect_names(&rt, &dict, &list);
        }
        if step % 1999 == 0 {
            dict.close();
            expect_names(&rt, &dict, &list);
        }
    }
    Ok(())
}
