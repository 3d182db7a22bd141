ghost use Rattle.std.specs.Prelude.{◌≡◌, ◌<◌, ◌≤◌, ◌^◌, ◌∷◌, ℕ, ℤ, true, IfSome, IfNone};
ghost use Rattle.std.specs.Fmt.{decimal, signed_decimal};
ghost use Rattle.hc_value.specs.Num.{IsSafeInteger};
ghost use Rattle.hc_commands.specs.Numeral.{begins_plainly, all_digits, value_after};

use hc_value::Num;

/// The number that a word writes, where it is at most `most`.
pub fn number(word: &[u8], most: u64) -> Option<u64>
    requires { most < 10 ^ 16 }
    ensures written { IfSome result (λ n. word.now ≡ decimal n) }
    ensures small { IfSome result (λ n. n ≤ most) }
    ensures none { IfNone result ((n : ℕ) → n ≤ most → word.now ≡ decimal n → ⊥) }
{
    if !begins_as_number(word) {
        return None;
    }
    value_of_digits(word, most)
}

// Whether there is a byte, and no zero in front of another.
fn begins_as_number(word: &[u8]) -> bool
    ensures { result ≡ begins_plainly word.now }
{
    match word {
        [] => false,
        [_] => true,
        [first, ..] => *first != b'0',
    }
}

// The value of digits, where it is at most `most`.
fn value_of_digits(word: &[u8], most: u64) -> Option<u64>
    requires { most < 10 ^ 16 }
    ensures digits { IfSome result (λ n. all_digits word.now ≡ true) }
    ensures value { IfSome result (λ n. value_after 0 word.now ≡ n) }
    ensures small { IfSome result (λ n. n ≤ most) }
    ensures none { IfNone result (all_digits word.now ≡ true → most < value_after 0 word.now) }
{
    let mut value: u64 = 0;
    for digit in word {
        if !digit.is_ascii_digit() {
            return None;
        }
        value = 10 * value + u64::from(*digit - b'0');
        if value > most {
            return None;
        }
    }
    Some(value)
}

/// The integer that a word writes, where a `Num` holds it.
pub fn integer(word: &[u8]) -> Option<Num>
    ensures written { IfSome result (λ z. word.now ≡ signed_decimal z) }
    ensures none { IfNone result ((z : ℤ) → IsSafeInteger z → word.now ≡ signed_decimal z → ⊥) }
{
    match word {
        [b'-', digits @ ..] => negative(digits),
        digits => Num::new(number(digits, Num::MAX as u64)? as i64),
    }
}

// The integer that a minus and these digits write.
fn negative(digits: &[u8]) -> Option<Num>
    ensures written { IfSome result (λ z. 45 ∷ digits.now ≡ signed_decimal z) }
    ensures none { IfNone result ((z : ℤ) → IsSafeInteger z → 45 ∷ digits.now ≡ signed_decimal z → ⊥) }
{
    let n = number(digits, Num::MAX as u64)?;
    if n == 0 { None } else { Num::new(-(n as i64)) }
}
