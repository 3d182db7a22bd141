ghost use Rattle.std.specs.Prelude.{⊤, ◌≡◌, [], ◌∷◌, codes};

use bitflags::{Flag, Flags, bitflag_items};

/// The attributes of a property, each the contrary of one of ECMA-262, 6.1.7.1. Contracts see the number
/// whose bits they are.
#[derive(Clone, Copy, Debug, PartialEq, Eq)]
pub struct Attrs(u8);

bitflag_items! {
    impl Attrs: u8 {
        const READ_ONLY = 1;
        const DONT_ENUM = 2;
        const DONT_DELETE = 4;
    }
}

impl Flags for Attrs {
    ghost use Rattle.hc_value.specs.Attrs.{bits_of};

    type Bits = u8;

    ghost exact = { ⊤ };

    ghost table = { (codes "READ_ONLY", 1) ∷ (codes "DONT_ENUM", 2) ∷ (codes "DONT_DELETE", 4) ∷ [] };

    ghost set_of = { bits_of };

    fn flags<'a>() -> &'a [Flag<Attrs>] {
        Attrs::FLAGS
    }

    fn bits(&self) -> u8 {
        self.0
    }

    fn from_bits_retain(bits: u8) -> Attrs {
        Attrs(bits)
    }
}
