ghost use Rattle.std.specs.Prelude.{◌≡◌, ◌<◌, ◌≤◌, ◌&&◌, ◌||◌, false, is_some};
ghost use Rattle.hc_layout.specs.Shape.{IsShape};
ghost use Rattle.hc_commands.specs.Definition.{IsGivenAccessor};
ghost use Rattle.hc_commands.specs.Numbers.{IsDescriptorBelow, IsGivenBelow, IsValueBelow};
ghost use Rattle.hc_value.specs.declared.word.TheConstants.{NUMBER_LIMIT, TEXT_LIMIT};
ghost use Rattle.hc_session.specs.Plain.{IsServed};
ghost use Rattle.hc_session.specs.Tables.{HasNumbers, IsOnTables};

use hc_layout::Shape;
use hc_script::Command;
use hc_session::{Scripted, Session, perform_on_tables};
use hc_table::Plain;
use hc_value::{Names32, Num, PropDesc, Reply, Value};
use std::alloc::Global;
use std::process::Abort;
use std::test::Fail;

// The next number that a generator draws, below a limit.
fn draw(state: &mut u64, limit: u32) -> u32
    requires { 0 < limit }
    ensures { result < limit }
{
    *state = state
        .wrapping_mul(6_364_136_223_846_793_005)
        .wrapping_add(1_442_695_040_888_963_407);
    (*state >> 33) as u32 % limit
}

// A value, often of an object that isn't there.
fn drawn_value(state: &mut u64) -> Value
    ensures { IsValueBelow TEXT_LIMIT result }
{
    match draw(state, 6) {
        0 => match Num::new(i64::from(draw(state, 4)) * 1_073_741_823) {
            Some(n) => Value::Int(n),
            None => Value::Undefined,
        },
        1 => Value::Null,
        2 => Value::Bool(draw(state, 2) == 0),
        3 => Value::Text(draw(state, 8)),
        4 => Value::Obj(draw(state, 12)),
        _ => Value::Undefined,
    }
}

// A prototype, often one that isn't there.
fn drawn_proto(state: &mut u64) -> Option<u32> {
    match draw(state, 3) {
        0 => None,
        _ => Some(draw(state, 12)),
    }
}

fn drawn_flag(state: &mut u64) -> Option<bool> {
    match draw(state, 3) {
        0 => None,
        1 => Some(false),
        _ => Some(true),
    }
}

fn drawn_given(state: &mut u64) -> Option<Value>
    ensures { IsGivenBelow TEXT_LIMIT result }
{
    match draw(state, 3) {
        0 => None,
        _ => Some(drawn_value(state)),
    }
}

fn drawn_function(state: &mut u64) -> Option<Option<u32>>
    ensures { IsGivenAccessor result }
{
    match draw(state, 4) {
        0 => None,
        1 => Some(None),
        _ => Some(Some(draw(state, 3))),
    }
}

// A definition of data, or of an accessor.
fn drawn_descriptor(state: &mut u64) -> PropDesc
    ensures { IsDescriptorBelow TEXT_LIMIT result }
{
    let enumerable = drawn_flag(state);
    let configurable = drawn_flag(state);
    if draw(state, 3) == 0 {
        return PropDesc {
            value: None,
            writable: None,
            getter: drawn_function(state),
            setter: drawn_function(state),
            enumerable,
            configurable,
        };
    }
    PropDesc {
        value: drawn_given(state),
        writable: drawn_flag(state),
        getter: None,
        setter: None,
        enumerable,
        configurable,
    }
}

// A command that asks, of one of twelve objects and sixteen names.
fn drawn_question(state: &mut u64) -> Command
    ensures served { IsServed result }
    ensures tables { IsOnTables result }
    ensures numbers { HasNumbers result }
{
    let o = draw(state, 12);
    let name = draw(state, 16);
    match draw(state, 8) {
        0 | 1 => Command::Get(o, name),
        2 => Command::Has(o, name),
        3 | 4 => Command::Own(o, name),
        5 => Command::Keys(o),
        6 => Command::Proto(o),
        _ => Command::Extensible(o),
    }
}

// A command that changes.
fn drawn_change(state: &mut u64) -> Command
    ensures served { IsServed result }
    ensures tables { IsOnTables result }
    ensures numbers { HasNumbers result }
{
    let o = draw(state, 12);
    let name = draw(state, 16);
    match draw(state, 12) {
        0 => Command::New(drawn_proto(state)),
        1 | 2 => Command::SetProto(o, drawn_proto(state)),
        3 | 4 | 5 => Command::Delete(o, name),
        6 | 7 | 8 => Command::Define(o, name, drawn_descriptor(state)),
        _ => Command::Set(o, name, drawn_value(state)),
    }
}

// A command that restricts an object. These are drawn seldom, so that most objects may change for long.
fn drawn_restriction(state: &mut u64) -> Command
    ensures served { IsServed result }
    ensures tables { IsOnTables result }
    ensures numbers { HasNumbers result }
{
    let o = draw(state, 12);
    match draw(state, 3) {
        0 => Command::Lock(o),
        1 => Command::Seal(o),
        _ => Command::Freeze(o),
    }
}

fn drawn(state: &mut u64) -> Command
    ensures served { IsServed result }
    ensures tables { IsOnTables result }
    ensures numbers { HasNumbers result }
{
    match draw(state, 256) {
        0 => drawn_restriction(state),
        1..=128 => drawn_question(state),
        _ => drawn_change(state),
    }
}

// Whether two lists of names are the same.
fn are_same_names(a: &Names32, b: &Names32) -> bool {
    if a.len() != b.len() {
        return false;
    }
    for i in 0..a.len() {
        if a.at(i) != b.at(i) {
            return false;
        }
    }
    true
}

// Whether two replies of these commands are the same.
fn are_same(a: &Reply, b: &Reply) -> bool {
    match (a, b) {
        (Reply::Object(a), Reply::Object(b)) => a == b,
        (Reply::Val(a), Reply::Val(b)) => a == b,
        (Reply::Call(f, a), Reply::Call(g, b)) => f == g && a == b,
        (Reply::CallWith(f, a, v), Reply::CallWith(g, b, w)) => f == g && a == b && v == w,
        (Reply::Flag(a), Reply::Flag(b)) => a == b,
        (Reply::Property(a), Reply::Property(b)) => a == b,
        (Reply::NameList(a), Reply::NameList(b)) => are_same_names(a, b),
        (Reply::Proto(a), Reply::Proto(b)) => a == b,
        (Reply::NoObject, Reply::NoObject) | (Reply::Full, Reply::Full) => true,
        _ => false,
    }
}

// Performs a command on a session and on plain tables, and stops unless they reply the same.
fn perform_both(
    rt: &impl Abort,
    session: &mut Session<Scripted>,
    plain: &mut Plain,
    command: &Command,
    alloc: Global,
) -> Result<(), Fail>
    requires served { IsServed command.now }
    requires tables { IsOnTables command.now }
    requires numbers { HasNumbers command.now }
    requires few { plain.old.limit ≤ NUMBER_LIMIT }
    ensures limit { plain.new.limit ≡ plain.old.limit }
{
    assert!(rt; !session.lacking());
    let reply = session.command(command)?;
    let expected = perform_on_tables(plain, command, alloc)?;
    assert!(rt; are_same(&reply, &expected));
    Ok(())
}

// Performs some thousands of drawn commands on objects of a shape, and on plain tables beside them.
fn run_both(rt: &impl Abort, alloc: Global, shape: Shape, seed: u64) -> Result<(), Fail>
    requires { IsShape shape }
{
    let mut session = Session::scripted(alloc, shape)?;
    let mut plain = Plain::new(alloc, shape.objects);
    let mut state = seed;
    for _ in 0..4000u32 {
        let command = drawn(&mut state);
        perform_both(rt, &mut session, &mut plain, &command, alloc)?;
    }
    Ok(())
}

#[test]
fn objects_answer_as_plain_tables_do(rt: HostRuntime) -> Result<(), Fail> {
    for seed in 1..5u64 {
        run_both(&rt, rt.alloc(), Shape::small(), seed)?;
    }
    run_both(&rt, rt.alloc(), Shape::usual(), 5)?;
    Ok(())
}
