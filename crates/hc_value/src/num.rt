ghost use Rattle.std.specs.Prelude.{◌≡◌, ◌↔◌, ℤ, pos, negsuc, ◌≤ℤ◌, IsSome, IfSome};
ghost use Rattle.hc_value.specs.Num.{IsSafeInteger};

use std::marker::Model;

/// An integer that a Number of the language holds exactly: of absolute value at most 2^53 - 1
/// (ECMA-262, 21.1.2.6 and 21.1.2.8).
#[derive(Clone, Copy, Debug, PartialEq, Eq)]
pub struct Num {
    integer: i64,
}

impl Model for Num {
    ghost use Rattle.std.specs.Prelude.{ℤ};
    ghost use Rattle.hc_value.specs.Num.{IsSafeInteger};

    ghost Value = { ℤ };

    ghost view = { λ n. n.integer };

    ghost invariant = { λ n. IsSafeInteger n.integer };

    ghost inverse = { λ z. record { integer = z } };
}

impl Num {
    /// The greatest integer that a `Num` holds.
    pub const MAX: i64 = 9007199254740991;

    /// The `Num` of an integer in range.
    pub fn new(n: i64) -> Option<Num>
        ensures range { IsSome result ↔ IsSafeInteger n }
        ensures value { IfSome result (λ num. num ≡ n) }
    {
        if -Num::MAX <= n && n <= Num::MAX {
            Some(Num { integer: n })
        } else {
            None
        }
    }

    pub fn get(self) -> i64
        ensures value { result ≡ self }
        ensures range { IsSafeInteger result }
    {
        self.integer
    }
}
