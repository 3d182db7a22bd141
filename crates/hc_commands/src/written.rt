ghost use Rattle.std.specs.Prelude.{◌≡◌, ◌<◌, ◌^◌, ◌↔◌, ◌∷◌, ◌++◌, [], List, ℕ, ℤ, IfSome, IfNone, IsTrue};
ghost use Rattle.std.specs.List.{list_all};
ghost use Rattle.std.specs.Fmt.{signed_decimal};
ghost use Rattle.hc_value.specs.Num.{IsSafeInteger};
ghost use Rattle.hc_commands.specs.Values.{is_text_byte, IsText, IsWrittenValue, WritesNoValue, object_word, text_word, value_word};
ghost use Rattle.hc_commands.specs.Request.{written_of};

use crate::limits::MAX_TEXT;
use crate::numeral::integer;
use crate::token::object_number;
use hc_value::Num;

/// A value as its word has it, with a text as its bytes.
#[derive(Clone, Copy)]
pub enum Written<'a> {
    Undefined,
    Null,
    Boolean(bool),
    Integer(Num),
    Text(&'a [u8]),
    Object(u32),
}

/// The value that a word writes.
pub fn written_value(word: &[u8]) -> Option<Written<'_>>
    ensures value { IfSome result (λ value. IsWrittenValue (written_of value)) }
    ensures word { IfSome result (λ value. word.now ≡ value_word (written_of value)) }
    ensures none { IfNone result (WritesNoValue word.now) }
{
    match word {
        b"undefined" => Some(Written::Undefined),
        b"null" => Some(Written::Null),
        b"true" => Some(Written::Boolean(true)),
        b"false" => Some(Written::Boolean(false)),
        _ => text_or_number(word),
    }
}

// The text, object or integer that a word writes.
fn text_or_number(word: &[u8]) -> Option<Written<'_>>
    ensures value { IfSome result (λ value. IsWrittenValue (written_of value)) }
    ensures word { IfSome result (λ value. word.now ≡ value_word (written_of value)) }
    ensures no_text { IfNone result ((text : List ℕ) → IsText text → word.now ≡ text_word text → ⊥) }
    ensures no_object { IfNone result ((o : ℕ) → o < 2 ^ 32 → word.now ≡ object_word o → ⊥) }
    ensures no_integer { IfNone result ((z : ℤ) → IsSafeInteger z → word.now ≡ signed_decimal z → ⊥) }
{
    if let Some(text) = text_between_quotes(word) {
        return Some(Written::Text(text));
    }
    if let Some(o) = object_number(word) {
        return Some(Written::Object(o));
    }
    match integer(word) {
        Some(n) => Some(Written::Integer(n)),
        None => None,
    }
}

// The text that a word writes between its quotes.
fn text_between_quotes(word: &[u8]) -> Option<&[u8]>
    ensures text { IfSome result (λ text. IsText text.now) }
    ensures word { IfSome result (λ text. word.now ≡ text_word text.now) }
    ensures none { IfNone result ((text : List ℕ) → IsText text → word.now ≡ text_word text → ⊥) }
{
    match word {
        [b'"', rest @ ..] => text_before_quote(rest),
        _ => None,
    }
}

// The text that stands before a quote at the end.
fn text_before_quote(bytes: &[u8]) -> Option<&[u8]>
    ensures text { IfSome result (λ text. IsText text.now) }
    ensures word { IfSome result (λ text. bytes.now ≡ text.now ++ 34 ∷ []) }
    ensures none { IfNone result ((text : List ℕ) → IsText text → bytes.now ≡ text ++ 34 ∷ [] → ⊥) }
{
    let n = bytes.len();
    if n == 0 || bytes[n - 1] != b'"' {
        return None;
    }
    let text = &bytes[..n - 1];
    if is_text(text) { Some(text) } else { None }
}

// Whether bytes are a text.
fn is_text(bytes: &[u8]) -> bool
    ensures { IsTrue result ↔ IsText bytes.now }
{
    is_spelled_as_text(bytes) && bytes.len() <= MAX_TEXT
}

fn is_spelled_as_text(bytes: &[u8]) -> bool
    ensures { result ≡ list_all is_text_byte bytes.now }
{
    bytes.iter().all(|byte| may_stand_in_text(*byte))
}

fn may_stand_in_text(byte: u8) -> bool
    ensures { result ≡ is_text_byte byte }
{
    matches!(byte, b' '..=b'~') && byte != b'"' && byte != b'\\'
}
