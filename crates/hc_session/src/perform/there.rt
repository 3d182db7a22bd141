//! Whether the objects that a command names are there.
ghost use Rattle.std.specs.Prelude.{◌≡◌};
ghost use Rattle.hc_session.specs.Tables.{IsOnTables, all_among, names_among, given_among, proto_among};

use hc_script::Command;
use hc_value::Value;

/// Whether each object that a command on property tables names is one of so many.
pub fn are_all_there(command: &Command, count: u32) -> bool
    requires { IsOnTables command.now }
    ensures { result ≡ all_among count command.now }
{
    match command {
        Command::New(proto) => is_proto_there(*proto, count),
        Command::Set(o, _, value) => *o < count && is_value_there(*value, count),
        Command::Define(o, _, descriptor) => {
            *o < count && is_given_there(descriptor.value, count)
        }
        Command::SetProto(o, proto) => *o < count && is_proto_there(*proto, count),
        Command::Get(o, _)
        | Command::Has(o, _)
        | Command::Own(o, _)
        | Command::Delete(o, _)
        | Command::Keys(o)
        | Command::Proto(o)
        | Command::Extensible(o)
        | Command::Lock(o)
        | Command::Seal(o)
        | Command::Freeze(o) => *o < count,
        _ => unreachable!(),
    }
}

// Whether a prototype is null or one of so many objects.
fn is_proto_there(proto: Option<u32>, count: u32) -> bool
    ensures { result ≡ proto_among count proto }
{
    match proto {
        Some(o) => o < count,
        None => true,
    }
}

/// Whether the object that a value names is one of so many, if it names one.
pub fn is_value_there(value: Value, count: u32) -> bool
    ensures { result ≡ names_among count value }
{
    match value {
        Value::Obj(o) => o < count,
        _ => true,
    }
}

// The same of a value that a definition may give.
fn is_given_there(value: Option<Value>, count: u32) -> bool
    ensures { result ≡ given_among count value }
{
    match value {
        Some(value) => is_value_there(value, count),
        None => true,
    }
}
