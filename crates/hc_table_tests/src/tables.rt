use hc_table::{Plain, TableFault, Tables, attributes};
use hc_value::{Attrs, Held, Memory, Num, Prop, Value};
use std::process::Abort;
use std::test::Fail;

// Adds a property that holds an integer, where the object is there and lacks the name.
fn add(rt: &impl Abort, plain: &mut Plain, o: u32, name: u32, n: i64) -> Result<(), Memory> {
    let there = o < plain.count();
    assert!(rt; there && name < 1_048_576);
    let place = plain.find_own(o, name);
    let extensible = plain.extensible(o);
    assert!(rt; place.is_none() && extensible);
    let value = Num::new(n).expect(rt, "in range");
    let held = Held::Datum(Value::Int(value));
    let attrs = attributes(false, false, false);
    plain.add(o, Prop { name, attrs, held })
}

// Writes null to the data property at a place, where it is there.
fn put_null(rt: &impl Abort, plain: &mut Plain, o: u32, i: u32) -> Result<(), Memory> {
    let there = o < plain.count();
    assert!(rt; there);
    let len = plain.len(o);
    assert!(rt; i < len);
    let p = plain.prop_at(o, i);
    let Held::Datum(_) = p.held else {
        return Ok(());
    };
    plain.write(o, i, Held::Datum(Value::Null))
}

// What the object's property of the name holds.
fn held(rt: &impl Abort, plain: &mut Plain, o: u32, name: u32) -> Option<Held> {
    let there = o < plain.count();
    assert!(rt; there);
    let i = plain.find_own(o, name)?;
    let len = plain.len(o);
    assert!(rt; i < len);
    Some(plain.prop_at(o, i).held)
}

#[test]
fn objects_are_made_up_to_the_limit(rt: HostRuntime) -> Result<(), Fail> {
    let mut plain = Plain::new(rt.alloc(), 2);
    assert_eq!(rt; plain.create(None)?, 0);
    assert_eq!(rt; plain.create(None)?, 1);
    assert_eq!(rt; plain.create(None), Err(TableFault::Full));
    assert_eq!(rt; plain.count(), 2);
    Ok(())
}

#[test]
fn properties_stand_in_order_and_are_written_in_place(rt: HostRuntime) -> Result<(), Fail> {
    let mut plain = Plain::new(rt.alloc(), 2);
    plain.create(None)?;
    plain.create(None)?;
    for (o, name, n) in [(0, 7, 70), (0, 3, 30), (1, 3, 31)] {
        add(&rt, &mut plain, o, name, n)?;
    }
    put_null(&rt, &mut plain, 0, 1)?;
    let seventy = Held::Datum(Value::Int(Num::new(70).expect(&rt, "in range")));
    let wants = [
        (0, 3, Some(Held::Datum(Value::Null))),
        (0, 7, Some(seventy)),
        (0, 4, None),
        (1, 7, None),
    ];
    for (o, name, want) in wants {
        assert_eq!(rt; held(&rt, &mut plain, o, name), want);
    }
    Ok(())
}

// Takes a property away, and freezes the object, where it is there.
fn remove_and_freeze(rt: &impl Abort, plain: &mut Plain, o: u32, i: u32) -> Result<(), Memory> {
    let count = plain.count();
    assert!(rt; o < count);
    let len = plain.len(o);
    assert!(rt; i < len);
    plain.remove(o, i)?;
    let count = plain.count();
    assert!(rt; o < count);
    plain.restrict(o, true)
}

// Whether the object gets properties, and the attributes of its property at a place.
fn state(rt: &impl Abort, plain: &mut Plain, o: u32, i: u32) -> (bool, Attrs) {
    let count = plain.count();
    assert!(rt; o < count);
    let len = plain.len(o);
    assert!(rt; i < len);
    (plain.extensible(o), plain.prop_at(o, i).attrs)
}

#[test]
fn a_frozen_object_keeps_the_properties_that_are_left(rt: HostRuntime) -> Result<(), Fail> {
    let mut plain = Plain::new(rt.alloc(), 1);
    plain.create(None)?;
    for name in [7, 3, 5] {
        add(&rt, &mut plain, 0, name, 1)?;
    }
    remove_and_freeze(&rt, &mut plain, 0, 1)?;
    assert_eq!(rt; held(&rt, &mut plain, 0, 3), None);
    assert_eq!(rt;
        state(&rt, &mut plain, 0, 1),
        (false, attributes(true, false, true))
    );
    Ok(())
}

// Makes an object of a prototype that is there, takes the prototype away and locks the object.
fn unlink_and_lock(rt: &impl Abort, plain: &mut Plain, proto: u32) -> Result<(), Fail> {
    let count = plain.count();
    assert!(rt; proto < count);
    let o = plain.create(Some(proto))?;
    assert_eq!(rt; plain.proto(o), Some(proto));
    let extensible = plain.extensible(o);
    assert!(rt; extensible);
    plain.set_proto(o, None)?;
    assert_eq!(rt; plain.proto(o), None);
    let extensible = plain.extensible(o);
    assert!(rt; extensible);
    plain.lock(o)?;
    assert!(rt; !plain.extensible(o));
    Ok(())
}

#[test]
fn an_object_is_unlinked_and_locked(rt: HostRuntime) -> Result<(), Fail> {
    let mut plain = Plain::new(rt.alloc(), 2);
    plain.create(None)?;
    unlink_and_lock(&rt, &mut plain, 0)
}
