ghost use Rattle.std.specs.Prelude.{◌≡◌, ◌<◌, ◌≤◌, length, IfOk, OnOk, IsErrOf};
ghost use Rattle.std.specs.Str.{IsUtf8};
ghost use Rattle.hc_names.specs.Names.{number_of, with_text};
ghost use Rattle.hc_names.specs.declared.TheConstants.{MAX_NAMES};
ghost use Rattle.hc_commands.specs.Values.{IsWrittenValue, IsGivenValue, value_of, names_behind, maybe_value_of, names_behind_maybe};
ghost use Rattle.hc_commands.specs.Definition.{IsDescription, descriptor_of};
ghost use Rattle.hc_commands.specs.Grammar.{IsForm, property_command, object_command, command_of, names_after};
ghost use Rattle.hc_commands.specs.Request.{form_of, written_of, maybe_written, description_of};

use crate::Command;
use crate::definition::Definition;
use crate::grammar::Request;
use crate::verb::{ObjectVerb, PropertyVerb};
use crate::written::Written;
use hc_names::{NameFault, Names};
use hc_value::{PropDesc, Value};

/// The command of a request, with its names as their numbers.
pub fn command_for(names: &mut Names, request: &Request<'_>) -> Result<Command, NameFault>
    requires room { length names.old ≤ MAX_NAMES }
    requires form { IsForm (form_of request.now) }
    ensures command { IfOk result (λ command. command ≡ command_of names.old (form_of request.now)) }
    ensures names { OnOk result (names.new ≡ names_after names.old (form_of request.now)) }
    ensures room { length names.new ≤ MAX_NAMES }
    ensures full { IsErrOf result NameFault.Full → MAX_NAMES < length (names_after names.old (form_of request.now)) }
{
    match request {
        Request::NewObject(proto) => Ok(Command::New(*proto)),
        Request::LinkPrototype(o, proto) => Ok(Command::SetProto(*o, *proto)),
        Request::AskProperty(verb, o, name) => {
            Ok(property_command(*verb, *o, number_for(names, name)?))
        }
        Request::SetValue(o, name, value) => {
            let number = number_for(names, name)?;
            Ok(Command::Set(*o, number, value_for(names, value)?))
        }
        Request::DefineProperty(o, name, definition) => {
            let number = number_for(names, name)?;
            let descriptor = descriptor_for(names, definition)?;
            Ok(Command::Define(*o, number, descriptor))
        }
        Request::AskObject(verb, o) => Ok(object_command(*verb, *o)),
        Request::CompareObjects(o, p) => Ok(Command::Same(*o, *p)),
        Request::DeclareSite(op, name) => Ok(Command::Declare(*op, number_for(names, name)?)),
        Request::ExecuteSite(s, o, value) => {
            Ok(Command::Exec(*s, *o, maybe_value_for(names, value)?))
        }
        Request::CompileSite(s) => Ok(Command::Compile(*s)),
        Request::StepJob(j, reads) => Ok(Command::Step(*j, *reads)),
        Request::StepDuring(c, j, reads) => Ok(Command::During(*c, *j, *reads)),
        Request::FinishJob(j) => Ok(Command::Finish(*j)),
    }
}

// The command that asks about a property.
fn property_command(verb: PropertyVerb, o: u32, name: u32) -> Command
    ensures { result ≡ property_command verb o name }
{
    match verb {
        PropertyVerb::Get => Command::Get(o, name),
        PropertyVerb::Has => Command::Has(o, name),
        PropertyVerb::Own => Command::Own(o, name),
        PropertyVerb::Delete => Command::Delete(o, name),
    }
}

// The command that asks of an object alone.
fn object_command(verb: ObjectVerb, o: u32) -> Command
    ensures { result ≡ object_command verb o }
{
    match verb {
        ObjectVerb::Keys => Command::Keys(o),
        ObjectVerb::Proto => Command::Proto(o),
        ObjectVerb::Extensible => Command::Extensible(o),
        ObjectVerb::Lock => Command::Lock(o),
        ObjectVerb::Seal => Command::Seal(o),
        ObjectVerb::Freeze => Command::Freeze(o),
        ObjectVerb::Shape => Command::Shape(o),
    }
}

// A definition, with its text as its number.
fn descriptor_for(names: &mut Names, definition: &Definition<'_>) -> Result<PropDesc, NameFault>
    requires room { length names.old ≤ MAX_NAMES }
    requires definition { IsDescription (description_of definition.now) }
    ensures descriptor { IfOk result (λ found. found ≡ descriptor_of names.old (description_of definition.now)) }
    ensures names { OnOk result (names.new ≡ names_behind_maybe names.old (maybe_written definition.now.value)) }
    ensures room { length names.new ≤ MAX_NAMES }
    ensures full { IsErrOf result NameFault.Full → MAX_NAMES < length (names_behind_maybe names.old (maybe_written definition.now.value)) }
{
    Ok(PropDesc {
        value: maybe_value_for(names, &definition.value)?,
        writable: definition.writable,
        getter: definition.getter,
        setter: definition.setter,
        enumerable: definition.enumerable,
        configurable: definition.configurable,
    })
}

// A value that may be given, with its text as its number.
fn maybe_value_for(
    names: &mut Names,
    value: &Option<Written<'_>>,
) -> Result<Option<Value>, NameFault>
    requires room { length names.old ≤ MAX_NAMES }
    requires value { IsGivenValue (maybe_written value.now) }
    ensures value { IfOk result (λ found. found ≡ maybe_value_of names.old (maybe_written value.now)) }
    ensures names { OnOk result (names.new ≡ names_behind_maybe names.old (maybe_written value.now)) }
    ensures room { length names.new ≤ MAX_NAMES }
    ensures full { IsErrOf result NameFault.Full → MAX_NAMES < length (names_behind_maybe names.old (maybe_written value.now)) }
{
    match value {
        Some(value) => Ok(Some(value_for(names, value)?)),
        None => Ok(None),
    }
}

// A value, with its text as its number.
fn value_for(names: &mut Names, value: &Written<'_>) -> Result<Value, NameFault>
    requires room { length names.old ≤ MAX_NAMES }
    requires value { IsWrittenValue (written_of value.now) }
    ensures value { IfOk result (λ found. found ≡ value_of names.old (written_of value.now)) }
    ensures names { OnOk result (names.new ≡ names_behind names.old (written_of value.now)) }
    ensures room { length names.new ≤ MAX_NAMES }
    ensures full { IsErrOf result NameFault.Full → MAX_NAMES < length (names_behind names.old (written_of value.now)) }
{
    match value {
        Written::Undefined => Ok(Value::Undefined),
        Written::Null => Ok(Value::Null),
        Written::Boolean(b) => Ok(Value::Bool(*b)),
        Written::Integer(n) => Ok(Value::Int(*n)),
        Written::Text(text) => Ok(Value::Text(number_for(names, text)?)),
        Written::Object(o) => Ok(Value::Obj(*o)),
    }
}

// The number of a name or a text, which is interned.
fn number_for(names: &mut Names, text: &[u8]) -> Result<u32, NameFault>
    requires room { length names.old ≤ MAX_NAMES }
    requires text { IsUtf8 text.now }
    ensures number { IfOk result (λ n. n ≡ number_of names.old text.now) }
    ensures names { OnOk result (names.new ≡ with_text names.old text.now) }
    ensures room { length names.new ≤ MAX_NAMES }
    ensures full { IsErrOf result NameFault.Full → MAX_NAMES < length (with_text names.old text.now) }
{
    names.intern(unsafe { str::from_utf8_unchecked(text) })
}
