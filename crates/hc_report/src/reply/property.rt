#![tactic(auto, using(crate::proofs::Fronts::fronts))]

ghost use Rattle.std.specs.Prelude.{◌≡◌, ◌++◌, ◌==◌, not, codes, length, IfSome, OnOk};
ghost use Rattle.std.specs.Int.RustNames.{bit_and};
ghost use Rattle.hc_value.specs.Attrs.{bits_of};
ghost use Rattle.hc_report.specs.Front.{BeginsWith};
ghost use Rattle.hc_report.specs.Named.{IsNamedHeld, IsNamedValue};
ghost use Rattle.hc_report.specs.Text.{value_text, bool_text, function_text, held_text, property_text};

use crate::text::{push_bool, push_numbered, push_text, push_value};
use bitflags::Flags;
use hc_names::Names;
use hc_value::{Attrs, Held, Memory, Prop, Value};

/// A property, or that there is none.
pub fn push_property(
    out: &mut Vec<u8>,
    names: &Names,
    property: &Option<Prop>,
) -> Result<(), Memory>
    requires { IfSome property.now (λ p. IsNamedHeld (length names.now) p.held) }
    ensures ok { OnOk result (out.new.items ≡ out.old.items ++ property_text names.now property.now) }
    ensures kept { BeginsWith out.new.items out.old.items }
{
    let Some(property) = property else {
        return push_text(out, b"undefined");
    };
    push_text(out, b"{")?;
    push_held(out, names, property.attrs, property.held)?;
    push_flag(out, b" enumerable=", is_enumerable(property.attrs))?;
    push_flag(out, b" configurable=", is_configurable(property.attrs))?;
    push_text(out, b"}")
}

fn push_held(out: &mut Vec<u8>, names: &Names, attrs: Attrs, held: Held) -> Result<(), Memory>
    requires { IsNamedHeld (length names.now) held }
    ensures ok { OnOk result (out.new.items ≡ out.old.items ++ held_text names.now attrs held) }
    ensures kept { BeginsWith out.new.items out.old.items }
{
    match held {
        Held::Datum(value) => push_datum(out, names, value, is_writable(attrs)),
        Held::Pair(getter, setter) => push_accessor(out, getter, setter),
    }
}

fn push_datum(out: &mut Vec<u8>, names: &Names, value: Value, writable: bool) -> Result<(), Memory>
    requires { IsNamedValue (length names.now) value }
    ensures ok { OnOk result (out.new.items ≡ out.old.items ++
        (codes "value=" ++ value_text names.now value ++ codes " writable=" ++ bool_text writable)) }
    ensures kept { BeginsWith out.new.items out.old.items }
{
    push_text(out, b"value=")?;
    push_value(out, names, value)?;
    push_flag(out, b" writable=", writable)
}

fn push_accessor(out: &mut Vec<u8>, getter: Option<u32>, setter: Option<u32>) -> Result<(), Memory>
    ensures ok { OnOk result (out.new.items ≡ out.old.items ++
        (codes "get=" ++ function_text getter ++ codes " set=" ++ function_text setter)) }
    ensures kept { BeginsWith out.new.items out.old.items }
{
    push_text(out, b"get=")?;
    push_function(out, getter)?;
    push_text(out, b" set=")?;
    push_function(out, setter)
}

fn push_function(out: &mut Vec<u8>, function: Option<u32>) -> Result<(), Memory>
    ensures ok { OnOk result (out.new.items ≡ out.old.items ++ function_text function) }
    ensures kept { BeginsWith out.new.items out.old.items }
{
    let Some(f) = function else {
        return push_text(out, b"undefined");
    };
    push_numbered(out, b"f", f)
}

// A word and true or false.
fn push_flag(out: &mut Vec<u8>, word: &[u8], flag: bool) -> Result<(), Memory>
    ensures ok { OnOk result (out.new.items ≡ out.old.items ++ (word.now ++ bool_text flag)) }
    ensures kept { BeginsWith out.new.items out.old.items }
{
    push_text(out, word)?;
    push_bool(out, flag)
}

fn is_writable(attrs: Attrs) -> bool
    ensures { result ≡ not (bit_and (bits_of attrs) 1 == 1) }
{
    !attrs.contains(Attrs::READ_ONLY)
}

fn is_enumerable(attrs: Attrs) -> bool
    ensures { result ≡ not (bit_and (bits_of attrs) 2 == 2) }
{
    !attrs.contains(Attrs::DONT_ENUM)
}

fn is_configurable(attrs: Attrs) -> bool
    ensures { result ≡ not (bit_and (bits_of attrs) 4 == 4) }
{
    !attrs.contains(Attrs::DONT_DELETE)
}
