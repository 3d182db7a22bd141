//! What objects are made to do, one step after another, and what the words of the board say of their fields.
ghost use Rattle.std.specs.Prelude.{◌<◌};
ghost use Rattle.hc_value.specs.Word.{IsInRange};

use hc_broker::Peek;
use hc_heap::Free;
use hc_layout::{Region, Shape};
use hc_objects::Objects;
use hc_ops::{define, delete, lock, set, set_proto};
use hc_table::{TableFault, Tables};
use hc_value::{Class, Constness, Detail, Memory, NUMBER_LIMIT, Num, PropDesc, Rep, Reply, Value};
use std::process::Abort;

/// Room for a few objects.
pub const BOARD: Shape = Shape {
    maps: 16,
    entries: 64,
    fields: 16,
    links: 16,
    objects: 8,
    slots: 64,
    cells: 0,
};

/// A value that a property is given.
#[derive(Clone, Copy)]
pub enum Given {
    Int(i64),
    Truth(bool),
    Object(u32),
}

/// A command. Objects, names and functions are numbers.
#[derive(Clone, Copy)]
pub enum Step {
    New(Option<u32>),
    Set(u32, u32, Given),
    Getter(u32, u32, u32),
    Delete(u32, u32),
    Link(u32, u32),
    Lock(u32),
    Use(u32),
}

/// A step, and what the property at a place of an object admits after it.
pub type Row = (Step, u32, u32, Rep, Constness, Class);

fn value_of(rt: &impl Abort, given: Given) -> Value
    ensures { IsInRange result }
{
    match given {
        Given::Int(integer) => match Num::new(integer) {
            Some(n) => Value::Int(n),
            None => Value::Undefined,
        },
        Given::Truth(truth) => Value::Bool(truth),
        Given::Object(o) => {
            assert!(rt; o < NUMBER_LIMIT);
            Value::Obj(o)
        }
    }
}

fn make(rt: &impl Abort, objects: &mut Objects<Free>, proto: Option<u32>) -> Result<(), Memory> {
    if let Some(p) = proto {
        let there = p < objects.count();
        assert!(rt; there);
    }
    match Tables::create(objects, proto) {
        Ok(_) => Ok(()),
        Err(TableFault::Memory) => Err(Memory),
        Err(TableFault::Full) => {
            assert!(rt; false);
            Ok(())
        }
    }
}

fn set_to(
    rt: &impl Abort,
    objects: &mut Objects<Free>,
    o: u32,
    name: u32,
    given: Given,
) -> Result<(), Memory> {
    let there = o < objects.count();
    assert!(rt; there);
    assert!(rt; name < NUMBER_LIMIT);
    let value = value_of(rt, given);
    let reply = set(objects, o, name, value)?;
    assert!(rt; matches!(reply, Reply::Flag(true)));
    Ok(())
}

fn define_getter(
    rt: &impl Abort,
    objects: &mut Objects<Free>,
    o: u32,
    name: u32,
    getter: u32,
) -> Result<(), Memory> {
    let there = o < objects.count();
    assert!(rt; there);
    assert!(rt; name < NUMBER_LIMIT);
    assert!(rt; getter < NUMBER_LIMIT);
    let desc = PropDesc {
        value: None,
        writable: None,
        getter: Some(Some(getter)),
        setter: None,
        enumerable: Some(true),
        configurable: Some(true),
    };
    let reply = define(objects, o, name, &desc)?;
    assert!(rt; matches!(reply, Reply::Flag(true)));
    Ok(())
}

fn delete_it(
    rt: &impl Abort,
    objects: &mut Objects<Free>,
    o: u32,
    name: u32,
) -> Result<(), Memory> {
    let there = o < objects.count();
    assert!(rt; there);
    let reply = delete(objects, o, name)?;
    assert!(rt; matches!(reply, Reply::Flag(true)));
    Ok(())
}

fn link(rt: &impl Abort, objects: &mut Objects<Free>, o: u32, proto: u32) -> Result<(), Memory> {
    let there = o < objects.count();
    assert!(rt; there);
    let proto_there = proto < objects.count();
    assert!(rt; proto_there);
    let reply = set_proto(objects, o, Some(proto))?;
    assert!(rt; matches!(reply, Reply::Flag(true)));
    Ok(())
}

fn lock_it(rt: &impl Abort, objects: &mut Objects<Free>, o: u32) -> Result<(), Memory> {
    let there = o < objects.count();
    assert!(rt; there);
    let _reply = lock(objects, o)?;
    Ok(())
}

fn use_it(rt: &impl Abort, objects: &mut Objects<Free>, o: u32) -> Result<(), Memory> {
    let there = o < objects.count();
    assert!(rt; there);
    objects.migrate(o)
}

/// Does a step, which is accepted.
pub fn take(rt: &impl Abort, objects: &mut Objects<Free>, step: Step) -> Result<(), Memory> {
    match step {
        Step::New(proto) => make(rt, objects, proto),
        Step::Set(o, name, given) => set_to(rt, objects, o, name, given),
        Step::Getter(o, name, getter) => define_getter(rt, objects, o, name, getter),
        Step::Delete(o, name) => delete_it(rt, objects, o, name),
        Step::Link(o, proto) => link(rt, objects, o, proto),
        Step::Lock(o) => lock_it(rt, objects, o),
        Step::Use(o) => use_it(rt, objects, o),
    }
}

/// Does each step, and stops unless the field says what its row does.
pub fn walk(rt: &impl Abort, objects: &mut Objects<Free>, rows: &[Row]) -> Result<(), Memory> {
    for (i, row) in rows.iter().enumerate() {
        let (step, o, place, rep, constness, class) = *row;
        take(rt, objects, step)?;
        let admitted = detail_of(objects, o, place);
        let expected = Detail {
            rep,
            constness,
            class,
        };
        assert!(rt; admitted == Some(expected), "row {i}");
    }
    Ok(())
}

/// The field of the property at a place of an object, as a job finds it.
pub fn field_of(objects: &mut Objects<Free>, o: u32, place: u32) -> Option<u32> {
    let mut peek = Peek::new(objects, BOARD);
    let map = peek.object_map(o)??;
    let base = peek.base(map)??;
    let entry = base.checked_add(place)?;
    peek.reference(entry)
}

/// What the field of the property at a place of an object admits, as a job finds it.
pub fn detail_of(objects: &mut Objects<Free>, o: u32, place: u32) -> Option<Detail> {
    let field = field_of(objects, o, place)?;
    let mut peek = Peek::new(objects, BOARD);
    peek.detail(field)
}

// Whether a map is deprecated, as a job finds it.
fn is_dead(objects: &mut Objects<Free>, map: u32) -> bool {
    let mut peek = Peek::new(objects, BOARD);
    match peek.bits(map) {
        Some(bits) => bits.deprecated,
        None => false,
    }
}

/// How many maps are deprecated.
pub fn dead_maps(objects: &mut Objects<Free>) -> u32 {
    let mut count = 0u32;
    for map in 0..objects.used(Region::Maps) {
        count = count.saturating_add(u32::from(is_dead(objects, map)));
    }
    count
}
