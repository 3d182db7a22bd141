//! Values as words.
//!
//! A tagged word has a tag in its low three bits, and the payload above them. Each value has one word, and
//! a word that no value gives stands for none.
ghost use Rattle.std.specs.Prelude.{◌≡◌, ℕ, ◌+◌, ◌*◌, ◌^◌, ◌<◌, ◌≤◌, Some, None, IsSome, IfSome};
ghost use Rattle.hc_value.specs.Word.{unwide_of, untagged_of, unpair_of, constant_of, one_more, one_less, IsInRange};

use crate::{Num, Value};

/// A name or a text that is given to a word is below this.
pub const TEXT_LIMIT: u32 = 1_048_576;
/// The number of an object, a map or a function that is given to a word is below this.
pub const NUMBER_LIMIT: u32 = 1_048_576;

/// What an integer's word is above the integer.
const BIAS: i64 = 1 << 53;
/// The width of a getter or a setter in a pair.
const FUNCTION_BITS: u32 = 21;

const TAG_BITS: u32 = 3;

const INTEGER: u64 = 1;

const TEXT: u64 = 2;

const OBJECT: u64 = 3;

const CONSTANT: u64 = 4;

const PAIR: u64 = 5;

/// The word of an integer in a field that holds integers alone.
pub fn wide(n: Num) -> u64
    ensures form { unwide_of result ≡ Some n }
    ensures alone { (w : ℕ) → unwide_of w ≡ Some n → w ≡ result }
    ensures fits { result < 2 ^ 54 }
{
    (n.get() + BIAS) as u64
}

/// The integer of a wide word.
pub fn unwide(w: u64) -> Option<Num>
    ensures value { result ≡ unwide_of w }
{
    if w < 1 << 54 {
        Num::new(w as i64 - BIAS)
    } else {
        None
    }
}

fn with_tag(payload: u64, tag: u64) -> u64
    requires payload { payload < 2 ^ 61 }
    requires tag { tag < 8 }
    ensures { result ≡ payload * 8 + tag }
{
    (payload << TAG_BITS) + tag
}

/// The tagged word of a value.
#[tactic(auto, unfolding(crate::specs::Word::untagged_of))]
pub fn tagged(v: Value) -> u64
    requires { IsInRange v }
    ensures form { untagged_of result ≡ Some v }
    ensures alone { (w : ℕ) → untagged_of w ≡ Some v → w ≡ result }
{
    match v {
        Value::Int(n) => with_tag(wide(n), INTEGER),
        Value::Text(t) => with_tag(u64::from(t), TEXT),
        Value::Obj(o) => with_tag(u64::from(o), OBJECT),
        Value::Undefined => with_tag(0, CONSTANT),
        Value::Null => with_tag(1, CONSTANT),
        Value::Bool(false) => with_tag(2, CONSTANT),
        Value::Bool(true) => with_tag(3, CONSTANT),
    }
}

/// The value of a tagged word.
#[tactic(auto, unfolding(crate::specs::Word::untagged_of, crate::specs::Word::unpair_of))]
pub fn untagged(w: u64) -> Option<Value>
    ensures value { result ≡ untagged_of w }
    ensures range { IfSome result IsInRange }
    ensures no_pair { IsSome result → unpair_of w ≡ None }
{
    let payload = w >> TAG_BITS;
    match w % (1 << TAG_BITS) {
        INTEGER => match unwide(payload) {
            Some(n) => Some(Value::Int(n)),
            None => None,
        },
        TEXT if payload < u64::from(TEXT_LIMIT) => Some(Value::Text(payload as u32)),
        OBJECT if payload < u64::from(NUMBER_LIMIT) => Some(Value::Obj(payload as u32)),
        CONSTANT => constant(payload),
        _ => None,
    }
}

/// The constant of the language with a payload.
fn constant(payload: u64) -> Option<Value>
    ensures value { result ≡ constant_of payload }
    ensures range { IfSome result IsInRange }
{
    match payload {
        0 => Some(Value::Undefined),
        1 => Some(Value::Null),
        2 => Some(Value::Bool(false)),
        3 => Some(Value::Bool(true)),
        _ => None,
    }
}

/// The word of a getter and a setter, each a function or none.
#[tactic(auto, unfolding(crate::specs::Word::untagged_of, crate::specs::Word::unpair_of))]
pub fn pair(getter: Option<u32>, setter: Option<u32>) -> u64
    requires getter { IfSome getter (λ f. f < NUMBER_LIMIT) }
    requires setter { IfSome setter (λ f. f < NUMBER_LIMIT) }
    ensures form { unpair_of result ≡ Some (getter, setter) }
    ensures alone { (w : ℕ) → unpair_of w ≡ Some (getter, setter) → w ≡ result }
    ensures no_value { untagged_of result ≡ None }
{
    let functions = stand_for(getter) + (stand_for(setter) << FUNCTION_BITS);
    with_tag(functions, PAIR)
}

/// The getter and the setter of a pair word.
#[tactic(auto, unfolding(crate::specs::Word::untagged_of, crate::specs::Word::unpair_of))]
pub fn unpair(w: u64) -> Option<(Option<u32>, Option<u32>)>
    ensures value { result ≡ unpair_of w }
    ensures getter { IfSome result (λ p. IfSome p.0 (λ f. f < NUMBER_LIMIT)) }
    ensures setter { IfSome result (λ p. IfSome p.1 (λ f. f < NUMBER_LIMIT)) }
    ensures no_value { IsSome result → untagged_of w ≡ None }
{
    let functions = w >> TAG_BITS;
    let getter = functions % (1 << FUNCTION_BITS);
    let setter = functions >> FUNCTION_BITS;
    let limit = u64::from(NUMBER_LIMIT);
    if w % (1 << TAG_BITS) == PAIR && getter <= limit && setter <= limit {
        Some((function(getter), function(setter)))
    } else {
        None
    }
}

fn stand_for(function: Option<u32>) -> u64
    requires { IfSome function (λ f. f < NUMBER_LIMIT) }
    ensures { result ≡ one_more function }
{
    match function {
        None => 0,
        Some(f) => u64::from(f) + 1,
    }
}

fn function(number: u64) -> Option<u32>
    requires { number ≤ NUMBER_LIMIT }
    ensures value { result ≡ one_less number }
    ensures range { IfSome result (λ f. f < NUMBER_LIMIT) }
{
    if number == 0 {
        None
    } else {
        Some((number - 1) as u32)
    }
}
