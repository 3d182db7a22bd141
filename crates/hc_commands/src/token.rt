ghost use Rattle.std.specs.Prelude.{◌≡◌, ◌<◌, ◌≤◌, ◌^◌, ℕ, Bool, Option, IfSome, IfNone};
ghost use Rattle.std.specs.Fmt.{decimal};
ghost use Rattle.hc_commands.specs.Values.{object_word, boolean_word};
ghost use Rattle.hc_commands.specs.Token.{IsPrototype, prototype_word, IsFunction, function_word, IsAccessor, accessor_word, op_word, AreReads, reads_word, IsDistance};

use crate::limits::{MAX_COUNT, MAX_FUNCTION};
use crate::numeral::number;
use crate::{Op, Reads};

/// The number of a site or a job that a word writes.
pub fn plain_number(word: &[u8]) -> Option<u32>
    ensures some { IfSome result (λ n. word.now ≡ decimal n) }
    ensures none { IfNone result ((n : ℕ) → n < 2 ^ 32 → word.now ≡ decimal n → ⊥) }
{
    Some(number(word, u64::from(u32::MAX))? as u32)
}

/// The object that a word names.
pub fn object_number(word: &[u8]) -> Option<u32>
    ensures some { IfSome result (λ o. word.now ≡ object_word o) }
    ensures none { IfNone result ((o : ℕ) → o < 2 ^ 32 → word.now ≡ object_word o → ⊥) }
{
    match word {
        [b'#', digits @ ..] => plain_number(digits),
        _ => None,
    }
}

/// The prototype that a word names.
pub fn written_prototype(word: &[u8]) -> Option<Option<u32>>
    ensures prototype { IfSome result (λ proto. IsPrototype proto) }
    ensures word { IfSome result (λ proto. word.now ≡ prototype_word proto) }
    ensures none { IfNone result ((proto : Option ℕ) → IsPrototype proto → word.now ≡ prototype_word proto → ⊥) }
{
    match word {
        b"null" => Some(None),
        _ => Some(Some(object_number(word)?)),
    }
}

/// The number of the function that a word names.
pub fn written_function(word: &[u8]) -> Option<u32>
    ensures function { IfSome result (λ f. IsFunction f) }
    ensures word { IfSome result (λ f. word.now ≡ function_word f) }
    ensures none { IfNone result ((f : ℕ) → IsFunction f → word.now ≡ function_word f → ⊥) }
{
    match word {
        [b'f', digits @ ..] => match number(digits, MAX_FUNCTION) {
            Some(n) => Some(n as u32),
            None => None,
        },
        _ => None,
    }
}

/// The getter or setter that a word names.
pub fn written_accessor(word: &[u8]) -> Option<Option<u32>>
    ensures accessor { IfSome result (λ f. IsAccessor f) }
    ensures word { IfSome result (λ f. word.now ≡ accessor_word f) }
    ensures none { IfNone result ((f : Option ℕ) → IsAccessor f → word.now ≡ accessor_word f → ⊥) }
{
    match word {
        b"undefined" => Some(None),
        _ => Some(Some(written_function(word)?)),
    }
}

/// The boolean that a word writes.
pub fn written_boolean(word: &[u8]) -> Option<bool>
    ensures word { IfSome result (λ b. word.now ≡ boolean_word b) }
    ensures none { IfNone result ((b : Bool) → word.now ≡ boolean_word b → ⊥) }
{
    match word {
        b"true" => Some(true),
        b"false" => Some(false),
        _ => None,
    }
}

/// What a site does, as a word says.
pub fn written_op(word: &[u8]) -> Option<Op>
    ensures word { IfSome result (λ op. word.now ≡ op_word op) }
    ensures none { IfNone result ((op : Op) → word.now ≡ op_word op → ⊥) }
{
    match word {
        b"load" => Some(Op::Load),
        b"store" => Some(Op::Store),
        _ => None,
    }
}

/// How many reads a word asks for.
pub fn written_reads(word: &[u8]) -> Option<Reads>
    ensures reads { IfSome result (λ reads. AreReads reads) }
    ensures word { IfSome result (λ reads. word.now ≡ reads_word reads) }
    ensures none { IfNone result ((reads : Reads) → AreReads reads → word.now ≡ reads_word reads → ⊥) }
{
    match word {
        b"all" => Some(Reads::All),
        _ => match number(word, MAX_COUNT) {
            Some(n) => Some(Reads::Count(n as u32)),
            None => None,
        },
    }
}

/// How far off a command is, as a word says.
pub fn written_distance(word: &[u8]) -> Option<u32>
    ensures distance { IfSome result (λ n. IsDistance n) }
    ensures word { IfSome result (λ n. word.now ≡ decimal n) }
    ensures none { IfNone result ((n : ℕ) → IsDistance n → word.now ≡ decimal n → ⊥) }
{
    let n = number(word, MAX_COUNT)?;
    if n == 0 { None } else { Some(n as u32) }
}
