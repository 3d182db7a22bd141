//! The words of the program that ask for a script that is made from a number.
ghost use Rattle.std.specs.Prelude.{◌≡◌, ◌<◌, ◌^◌, ℕ, [], ◌∷◌, map, string_bytes, IfSome, IfNone};
ghost use Rattle.std.specs.Fmt.{decimal};
ghost use Rattle.hc_script.specs.GeneratorWords.{AskForScript, AskForCount};

use itoa::Buffer;

/// The fewest commands of a script that is made from a number.
const FEWEST: u64 = 16;

/// The most.
const MOST: u64 = 200_000;

/// The start number where none is given.
const FIRST_START: u64 = 1;

/// How many commands are asked for, and from which number.
#[derive(Clone, Copy)]
pub struct GenRequest {
    pub count: u32,
    pub start: u64,
}

/// What words ask for that are `gen`, a count, and a start number or none.
pub fn gen_request(words: &[String]) -> Option<GenRequest>
    ensures asked { IfSome result (λ request. AskForScript (map string_bytes words.now) request.count request.start) }
    ensures none { IfNone result ((n start : ℕ) → AskForScript (map string_bytes words.now) n start → ⊥) }
{
    match words {
        [verb, count] => counted_request(verb.as_str(), count.as_str()),
        [verb, count, start] => full_request(verb.as_str(), count.as_str(), start.as_str()),
        _ => None,
    }
}

// What two words ask for.
fn counted_request(verb: &str, count: &str) -> Option<GenRequest>
    ensures asked { IfSome result (λ request. AskForScript (verb.now ∷ count.now ∷ []) request.count request.start) }
    ensures none { IfNone result ((n start : ℕ) → AskForScript (verb.now ∷ count.now ∷ []) n start → ⊥) }
{
    request_from(verb, count, FIRST_START)
}

// What three words ask for.
fn full_request(verb: &str, count: &str, start: &str) -> Option<GenRequest>
    ensures asked { IfSome result (λ request.
        AskForScript (verb.now ∷ count.now ∷ start.now ∷ []) request.count request.start) }
    ensures none { IfNone result ((n number : ℕ)
        → AskForScript (verb.now ∷ count.now ∷ start.now ∷ []) n number → ⊥) }
{
    let number = numeral(start)?;
    request_from(verb, count, number)
}

// What a verb and a count ask for, from this number.
fn request_from(verb: &str, count: &str, start: u64) -> Option<GenRequest>
    ensures count { IfSome result (λ request. AskForCount verb.now count.now request.count) }
    ensures start { IfSome result (λ request. request.start ≡ start) }
    ensures none { IfNone result ((n : ℕ) → AskForCount verb.now count.now n → ⊥) }
{
    let count = numeral(count)?;
    if verb == "gen" && FEWEST <= count && count <= MOST {
        Some(GenRequest {
            count: count as u32,
            start,
        })
    } else {
        None
    }
}

// The number that a word writes without a zero in front.
fn numeral(word: &str) -> Option<u64>
    ensures written { IfSome result (λ n. word.now ≡ decimal n) }
    ensures none { IfNone result ((n : ℕ) → n < 2 ^ 64 → word.now ≡ decimal n → ⊥) }
{
    let Ok(n) = word.parse::<u64>() else {
        return None;
    };
    let mut buffer = Buffer::new();
    if buffer.format(n) == word {
        Some(n)
    } else {
        None
    }
}
