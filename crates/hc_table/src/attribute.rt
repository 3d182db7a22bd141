ghost use Rattle.std.specs.Prelude.{◌≡◌};
ghost use Rattle.hc_table.specs.Attributes.{is_dont_enum, is_dont_delete, attributes_of, is_datum, restricted};
ghost use Rattle.hc_value.specs.Attrs.{is_read_only};

use bitflags::Flags;
use hc_value::{Attrs, Held, Prop};

/// The attributes that are set where the answers say so.
pub fn attributes(read_only: bool, dont_enum: bool, dont_delete: bool) -> Attrs
    ensures { result ≡ attributes_of read_only dont_enum dont_delete }
{
    let mut attrs = Attrs::empty();
    attrs.set(Attrs::READ_ONLY, read_only);
    attrs.set(Attrs::DONT_ENUM, dont_enum);
    attrs.set(Attrs::DONT_DELETE, dont_delete);
    attrs
}

/// Whether ReadOnly is set.
pub fn read_only(attrs: Attrs) -> bool
    ensures { result ≡ is_read_only attrs }
{
    attrs.contains(Attrs::READ_ONLY)
}

/// Whether DontEnum is set.
pub fn dont_enum(attrs: Attrs) -> bool
    ensures { result ≡ is_dont_enum attrs }
{
    attrs.contains(Attrs::DONT_ENUM)
}

/// Whether DontDelete is set.
pub fn dont_delete(attrs: Attrs) -> bool
    ensures { result ≡ is_dont_delete attrs }
{
    attrs.contains(Attrs::DONT_DELETE)
}

// Whether what a property holds is a value.
fn holds_datum(held: Held) -> bool
    ensures { result ≡ is_datum held }
{
    matches!(held, Held::Datum(_))
}

/// A property of an object that is sealed or frozen.
pub fn restrict(p: Prop, frozen: bool) -> Prop
    ensures { result ≡ restricted frozen p }
{
    let fixed = read_only(p.attrs) || frozen && holds_datum(p.held);
    Prop {
        name: p.name,
        attrs: attributes(fixed, dont_enum(p.attrs), true),
        held: p.held,
    }
}
