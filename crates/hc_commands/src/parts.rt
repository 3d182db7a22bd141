ghost use Rattle.std.specs.Prelude.{◌≡◌, ◌<◌, ◌^◌, [], ◌∷◌, List, ℕ, IfSome, IfNone};
ghost use Rattle.std.specs.Fmt.{decimal};
ghost use Rattle.hc_commands.specs.Words.{words_of};
ghost use Rattle.hc_commands.specs.Values.{IsName, object_word};

use crate::limits::MAX_NAME;
use crate::name::{begins_as_name, name_run};
use crate::token::{object_number, plain_number};
use crate::words::{first_word, only_word, without_blanks, word_goes_on};

/// The object that the first word names, and what stands behind it.
pub fn first_object(bytes: &[u8]) -> Option<(u32, &[u8])>
    ensures some { IfSome result (λ found. words_of bytes.now ≡ object_word found.0 ∷ words_of found.1.now) }
    ensures none { IfNone result ((o : ℕ) (words : List (List ℕ)) → o < 2 ^ 32 → words_of bytes.now ≡ object_word o ∷ words → ⊥) }
{
    let (word, rest) = first_word(bytes)?;
    Some((object_number(word)?, rest))
}

/// The object that the one word that there is names.
pub fn only_object(bytes: &[u8]) -> Option<u32>
    ensures some { IfSome result (λ o. words_of bytes.now ≡ object_word o ∷ []) }
    ensures none { IfNone result ((o : ℕ) → o < 2 ^ 32 → words_of bytes.now ≡ object_word o ∷ [] → ⊥) }
{
    object_number(only_word(bytes)?)
}

/// The number that the first word writes, and what stands behind it.
pub fn first_number(bytes: &[u8]) -> Option<(u32, &[u8])>
    ensures some { IfSome result (λ found. words_of bytes.now ≡ decimal found.0 ∷ words_of found.1.now) }
    ensures none { IfNone result ((n : ℕ) (words : List (List ℕ)) → n < 2 ^ 32 → words_of bytes.now ≡ decimal n ∷ words → ⊥) }
{
    let (word, rest) = first_word(bytes)?;
    Some((plain_number(word)?, rest))
}

/// The number that the one word that there is writes.
pub fn only_number(bytes: &[u8]) -> Option<u32>
    ensures some { IfSome result (λ n. words_of bytes.now ≡ decimal n ∷ []) }
    ensures none { IfNone result ((n : ℕ) → n < 2 ^ 32 → words_of bytes.now ≡ decimal n ∷ [] → ⊥) }
{
    plain_number(only_word(bytes)?)
}

/// The name that the first word is, and what stands behind it.
pub fn first_name(bytes: &[u8]) -> Option<(&[u8], &[u8])>
    ensures some { IfSome result (λ found. words_of bytes.now ≡ found.0.now ∷ words_of found.1.now) }
    ensures name { IfSome result (λ found. IsName found.0.now) }
    ensures none { IfNone result ((name : List ℕ) (words : List (List ℕ)) → IsName name → words_of bytes.now ≡ name ∷ words → ⊥) }
{
    let rest = without_blanks(bytes);
    let end = name_run(rest);
    let name = &rest[..end];
    let behind = &rest[end..];
    if word_goes_on(behind) || end > MAX_NAME || !begins_as_name(name) {
        return None;
    }
    Some((name, behind))
}

/// The name that the one word that there is is.
pub fn only_name(bytes: &[u8]) -> Option<&[u8]>
    ensures some { IfSome result (λ name. words_of bytes.now ≡ name.now ∷ []) }
    ensures name { IfSome result (λ name. IsName name.now) }
    ensures none { IfNone result ((name : List ℕ) → IsName name → words_of bytes.now ≡ name ∷ [] → ⊥) }
{
    let (name, rest) = first_name(bytes)?;
    match first_word(rest) {
        Some(_) => None,
        None => Some(name),
    }
}
