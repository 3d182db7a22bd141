//! Each way, with a receiver and a value that it admits, and with one that it doesn't.
ghost use Rattle.std.specs.Prelude.{◌≡◌, ◌↔◌, IsSome};

use crate::board::{SHAPE, written};
use hc_apply::{Applied, apply, is_place, is_readable};
use hc_board::Writer;
use hc_plan::{Case, Cases, Chain, Deps, Op, Plan, Way};
use hc_value::{Class, Rep, Reply, Value};
use std::alloc::Global;
use std::test::Fail;

/// What a plan is to answer.
#[derive(Clone, Copy)]
enum Expected {
    Undefined,
    Text(u32),
    Object(u32),
    Integer(i64),
    Call(u32, u32),
    /// The call of a setter with the text 4.
    CallWith(u32, u32),
    Refused,
    StoreAt(u32),
    AddBy(u32),
    Miss,
}

// Whether a value is the one that is expected.
fn is_value(value: &Value, expected: Expected) -> bool {
    match expected {
        Expected::Undefined => matches!(value, Value::Undefined),
        Expected::Text(text) => matches!(value, Value::Text(other) if *other == text),
        Expected::Object(object) => matches!(value, Value::Obj(other) if *other == object),
        Expected::Integer(integer) => matches!(value, Value::Int(other) if other.get() == integer),
        _ => false,
    }
}

fn is_reply(reply: &Reply, expected: Expected) -> bool {
    match (reply, expected) {
        (Reply::Val(value), _) => is_value(value, expected),
        (Reply::Call(getter, asked), Expected::Call(function, object)) => {
            *getter == function && *asked == object
        }
        (Reply::CallWith(setter, asked, value), Expected::CallWith(function, object)) => {
            *setter == function && *asked == object && is_value(value, Expected::Text(4))
        }
        (Reply::Flag(flag), Expected::Refused) => !*flag,
        _ => false,
    }
}

// Whether the case of a number answered so.
fn is_answer(applied: &Applied, number: u32, expected: Expected) -> bool {
    match (applied, expected) {
        (Applied::Answer(case, reply), _) => *case == number && is_reply(reply, expected),
        (Applied::StoreAt(case, slot), Expected::StoreAt(other)) => {
            *case == number && *slot == other
        }
        (Applied::AddBy(case, child), Expected::AddBy(other)) => {
            *case == number && *child == other
        }
        (Applied::Miss, Expected::Miss) => true,
        _ => false,
    }
}

// A site with a value is one that stores.
fn op_of(value: &Option<Value>) -> Op
    ensures { IsSome value.now ↔ (result ≡ Op.Store) }
{
    match value {
        Some(_) => Op::Store,
        None => Op::Load,
    }
}

fn case_of(map: u32, way: Way) -> Case
    ensures { result.way ≡ way }
{
    Case {
        map,
        chain: Chain::new(),
        way,
    }
}

// What the plan of one case answers, where its answer can be read.
fn applied(
    alloc: Global,
    writer: &mut Writer,
    way: Way,
    object: u32,
    value: Option<Value>,
    room: u32,
) -> Result<Option<Applied>, Fail> {
    let op = op_of(&value);
    let plan = Plan {
        site: 0,
        op,
        name: 1,
        cases: Cases::from_vec(vec![in alloc; case_of(0, way)]?),
        deps: Deps::from_vec(Vec::new(alloc)),
    };
    if !is_place(way) || !is_readable(writer, SHAPE, object, &value, way) {
        return Ok(None);
    }
    Ok(Some(apply(writer, SHAPE, &plan, object, value, room)))
}

/// The value of an access.
#[derive(Clone, Copy)]
enum Given {
    Nothing,
    Text(u32),
    Object(u32),
}

fn value_of(given: Given) -> Option<Value> {
    match given {
        Given::Nothing => None,
        Given::Text(text) => Some(Value::Text(text)),
        Given::Object(object) => Some(Value::Obj(object)),
    }
}

// A row: the way, the receiver, what is expected.
const LOADS: [(Way, u32, Expected); 14] = [
    (
        Way::Own {
            slot: 0,
            field: 0,
            rep: Rep::HeapObject,
        },
        0,
        Expected::Text(5),
    ),
    (
        Way::Own {
            slot: 1,
            field: 0,
            rep: Rep::Wide,
        },
        0,
        Expected::Integer(7),
    ),
    (
        Way::Holder {
            object: 1,
            slot: 0,
            field: 0,
            rep: Rep::Tagged,
        },
        0,
        Expected::Object(2),
    ),
    (
        Way::Constant {
            object: 1,
            slot: 0,
            field: 0,
            rep: Rep::HeapObject,
            word: 42,
        },
        0,
        Expected::Text(5),
    ),
    (Way::Absent, 0, Expected::Undefined),
    (
        Way::Getter {
            object: None,
            slot: 2,
        },
        0,
        Expected::Call(3, 0),
    ),
    (
        Way::Getter {
            object: None,
            slot: 3,
        },
        0,
        Expected::Undefined,
    ),
    (
        Way::Getter {
            object: Some(1),
            slot: 1,
        },
        0,
        Expected::Call(6, 0),
    ),
    (
        Way::Own {
            slot: 0,
            field: 0,
            rep: Rep::Tagged,
        },
        1,
        Expected::Miss,
    ),
    (
        Way::Holder {
            object: 1,
            slot: 0,
            field: 0,
            rep: Rep::Tagged,
        },
        1,
        Expected::Miss,
    ),
    (
        Way::Constant {
            object: 1,
            slot: 0,
            field: 0,
            rep: Rep::HeapObject,
            word: 42,
        },
        2,
        Expected::Miss,
    ),
    (Way::Absent, 3, Expected::Miss),
    (Way::Absent, 4, Expected::Miss),
    (
        Way::Getter {
            object: Some(1),
            slot: 1,
        },
        2,
        Expected::Miss,
    ),
];

// A row: the way, the receiver, the value, the slots that are left, what is expected.
const STORES: [(Way, u32, Given, u32, Expected); 20] = [
    (
        Way::Setter {
            object: None,
            slot: 3,
        },
        0,
        Given::Text(4),
        0,
        Expected::CallWith(9, 0),
    ),
    (
        Way::Setter {
            object: None,
            slot: 2,
        },
        0,
        Given::Text(4),
        0,
        Expected::Refused,
    ),
    (
        Way::Setter {
            object: Some(1),
            slot: 1,
        },
        0,
        Given::Text(4),
        0,
        Expected::CallWith(8, 0),
    ),
    (
        Way::Setter {
            object: Some(1),
            slot: 1,
        },
        2,
        Given::Text(4),
        0,
        Expected::Miss,
    ),
    (Way::Reject, 0, Given::Text(4), 0, Expected::Refused),
    (Way::Reject, 3, Given::Text(4), 0, Expected::Miss),
    (
        Way::StoreOwn {
            slot: 1,
            field: 0,
            rep: Rep::HeapObject,
            class: Class::Any,
        },
        0,
        Given::Text(4),
        0,
        Expected::StoreAt(1),
    ),
    (
        Way::StoreOwn {
            slot: 1,
            field: 0,
            rep: Rep::HeapObject,
            class: Class::Any,
        },
        1,
        Given::Text(4),
        0,
        Expected::Miss,
    ),
    (
        Way::StoreOwn {
            slot: 1,
            field: 0,
            rep: Rep::Smi,
            class: Class::Any,
        },
        0,
        Given::Text(4),
        0,
        Expected::Miss,
    ),
    (
        Way::StoreOwn {
            slot: 1,
            field: 0,
            rep: Rep::Wide,
            class: Class::Any,
        },
        0,
        Given::Object(0),
        0,
        Expected::Miss,
    ),
    (
        Way::StoreOwn {
            slot: 1,
            field: 0,
            rep: Rep::HeapObject,
            class: Class::Of(0),
        },
        0,
        Given::Text(4),
        0,
        Expected::Miss,
    ),
    (
        Way::StoreOwn {
            slot: 1,
            field: 0,
            rep: Rep::HeapObject,
            class: Class::Of(0),
        },
        0,
        Given::Object(0),
        0,
        Expected::StoreAt(1),
    ),
    (
        Way::StoreOwn {
            slot: 1,
            field: 0,
            rep: Rep::HeapObject,
            class: Class::Of(1),
        },
        0,
        Given::Object(1),
        0,
        Expected::Miss,
    ),
    (
        Way::StoreOwn {
            slot: 1,
            field: 0,
            rep: Rep::HeapObject,
            class: Class::Of(0),
        },
        0,
        Given::Object(3),
        0,
        Expected::Miss,
    ),
    (
        Way::Add {
            child: 2,
            slot: 3,
            field: 0,
            rep: Rep::Tagged,
            class: Class::Any,
        },
        0,
        Given::Text(4),
        0,
        Expected::AddBy(2),
    ),
    (
        Way::Add {
            child: 2,
            slot: 4,
            field: 0,
            rep: Rep::Tagged,
            class: Class::Any,
        },
        0,
        Given::Text(4),
        7,
        Expected::Miss,
    ),
    (
        Way::Add {
            child: 2,
            slot: 4,
            field: 0,
            rep: Rep::Tagged,
            class: Class::Any,
        },
        0,
        Given::Text(4),
        8,
        Expected::AddBy(2),
    ),
    (
        Way::Add {
            child: 2,
            slot: 3,
            field: 0,
            rep: Rep::Smi,
            class: Class::Any,
        },
        0,
        Given::Text(4),
        100,
        Expected::Miss,
    ),
    (
        Way::Add {
            child: 2,
            slot: 3,
            field: 0,
            rep: Rep::HeapObject,
            class: Class::Of(0),
        },
        0,
        Given::Object(2),
        100,
        Expected::Miss,
    ),
    (
        Way::Add {
            child: 2,
            slot: 0,
            field: 0,
            rep: Rep::Tagged,
            class: Class::Any,
        },
        2,
        Given::Text(4),
        100,
        Expected::Miss,
    ),
];

// Whether an answer that can be read is the one that is expected.
fn agrees(applied: Option<Applied>, number: u32, expected: Expected) -> bool {
    match applied {
        Some(applied) => is_answer(&applied, number, expected),
        None => false,
    }
}

#[test]
fn each_load_answers_by_its_way_or_misses(rt: HostRuntime) -> Result<(), Fail> {
    let mut writer = written(rt.alloc())?;
    for k in 0..LOADS.len() {
        let (way, object, expected) = LOADS[k];
        let answer = applied(rt.alloc(), &mut writer, way, object, None, 0)?;
        assert!(rt; agrees(answer, 0, expected), "row {k}");
    }
    Ok(())
}

#[test]
fn each_store_answers_by_its_way_or_misses(rt: HostRuntime) -> Result<(), Fail> {
    let mut writer = written(rt.alloc())?;
    for k in 0..STORES.len() {
        let (way, object, given, room, expected) = STORES[k];
        let answer = applied(rt.alloc(), &mut writer, way, object, value_of(given), room)?;
        assert!(rt; agrees(answer, 0, expected), "row {k}");
    }
    Ok(())
}

#[test]
fn the_first_case_that_admits_answers(rt: HostRuntime) -> Result<(), Fail> {
    let mut writer = written(rt.alloc())?;
    let cases = [
        case_of(1, Way::Absent),
        case_of(0, Way::Absent),
        case_of(0, Way::Absent),
        case_of(2, Way::Absent),
    ];
    let plan = Plan {
        site: 0,
        op: Op::Load,
        name: 1,
        cases: Cases::from_vec(Vec::from_array(rt.alloc(), cases)?),
        deps: Deps::from_vec(Vec::new(rt.alloc())),
    };
    for (object, number) in [(0u32, 1u32), (1, 0), (2, 0)] {
        let answer = apply(&mut writer, SHAPE, &plan, object, None, 0);
        assert!(rt;
            is_answer(&answer, number, Expected::Undefined),
            "object {object}"
        );
    }
    assert!(rt; matches!(apply(&mut writer, SHAPE, &plan, 3, None, 0), Applied::Miss));
    Ok(())
}
