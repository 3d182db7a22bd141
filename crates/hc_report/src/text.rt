//! Pieces of a line. Each is put behind a text, which stays in front of it whatever the answer.
#![tactic(auto, using(crate::proofs::Fronts::fronts))]

ghost use Rattle.std.specs.Prelude.{◌≡◌, ◌<◌, ◌++◌, codes, length, OnOk};
ghost use Rattle.std.specs.Fmt.{decimal, signed_decimal};
ghost use Rattle.hc_report.specs.Front.{BeginsWith};
ghost use Rattle.hc_report.specs.Named.{IsNamedValue};
ghost use Rattle.hc_report.specs.Text.{object_text, value_text, bool_text, named};

use hc_names::Names;
use hc_value::{Memory, Value};
use itoa::Buffer;

pub fn push_text(out: &mut Vec<u8>, text: &[u8]) -> Result<(), Memory>
    ensures ok { OnOk result (out.new.items ≡ out.old.items ++ text.now) }
    ensures kept { BeginsWith out.new.items out.old.items }
{
    out.extend_from_slice(text)?;
    Ok(())
}

pub fn push_number(out: &mut Vec<u8>, n: u64) -> Result<(), Memory>
    ensures ok { OnOk result (out.new.items ≡ out.old.items ++ decimal n) }
    ensures kept { BeginsWith out.new.items out.old.items }
{
    let mut buffer = Buffer::new();
    push_text(out, buffer.format(n).as_bytes())
}

fn push_integer(out: &mut Vec<u8>, n: i64) -> Result<(), Memory>
    ensures ok { OnOk result (out.new.items ≡ out.old.items ++ signed_decimal n) }
    ensures kept { BeginsWith out.new.items out.old.items }
{
    let mut buffer = Buffer::new();
    push_text(out, buffer.format(n).as_bytes())
}

/// A word and a number.
pub fn push_numbered(out: &mut Vec<u8>, word: &[u8], n: u32) -> Result<(), Memory>
    ensures ok { OnOk result (out.new.items ≡ out.old.items ++ (word.now ++ decimal n)) }
    ensures kept { BeginsWith out.new.items out.old.items }
{
    push_text(out, word)?;
    push_number(out, u64::from(n))
}

pub fn push_object(out: &mut Vec<u8>, o: u32) -> Result<(), Memory>
    ensures ok { OnOk result (out.new.items ≡ out.old.items ++ object_text o) }
    ensures kept { BeginsWith out.new.items out.old.items }
{
    push_numbered(out, b"#", o)
}

pub fn push_bool(out: &mut Vec<u8>, b: bool) -> Result<(), Memory>
    ensures ok { OnOk result (out.new.items ≡ out.old.items ++ bool_text b) }
    ensures kept { BeginsWith out.new.items out.old.items }
{
    if b {
        push_text(out, b"true")
    } else {
        push_text(out, b"false")
    }
}

pub fn push_value(out: &mut Vec<u8>, names: &Names, value: Value) -> Result<(), Memory>
    requires { IsNamedValue (length names.now) value }
    ensures ok { OnOk result (out.new.items ≡ out.old.items ++ value_text names.now value) }
    ensures kept { BeginsWith out.new.items out.old.items }
{
    match value {
        Value::Undefined => push_text(out, b"undefined"),
        Value::Null => push_text(out, b"null"),
        Value::Bool(b) => push_bool(out, b),
        Value::Int(n) => push_integer(out, n.get()),
        Value::Text(text) => push_quoted(out, names, text),
        Value::Obj(o) => push_object(out, o),
    }
}

fn push_quoted(out: &mut Vec<u8>, names: &Names, text: u32) -> Result<(), Memory>
    requires { text < length names.now }
    ensures ok { OnOk result (out.new.items ≡ out.old.items ++ (codes "\"" ++ named names.now text ++ codes "\"")) }
    ensures kept { BeginsWith out.new.items out.old.items }
{
    push_text(out, b"\"")?;
    push_name(out, names, text)?;
    push_text(out, b"\"")
}

/// The text of a name's or a text's number.
pub fn push_name(out: &mut Vec<u8>, names: &Names, n: u32) -> Result<(), Memory>
    requires { n < length names.now }
    ensures ok { OnOk result (out.new.items ≡ out.old.items ++ named names.now n) }
    ensures kept { BeginsWith out.new.items out.old.items }
{
    let Some(name) = names.text(n) else {
        unreachable!();
    };
    push_text(out, name.as_bytes())
}
