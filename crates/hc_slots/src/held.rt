//! What a slot holds, as its word.
ghost use Rattle.std.specs.Prelude.{ℕ, ◌≡◌};
ghost use Rattle.hc_heap.specs.Lawful.{IsFormOf};
ghost use Rattle.hc_slots.specs.Meaning.{MayHold, held_in, datum_of, pair_of};
ghost use Rattle.hc_table.specs.Ranges.{IsHeldInRange};
ghost use Rattle.hc_value.specs.Prop.{kind_of};
ghost use Rattle.hc_value.specs.Word.{IsInRange, unwide_of, untagged_of, unpair_of, integer_of};
ghost use Rattle.hc_value.specs.declared.field.Rep.TheVariants.{Wide};
ghost use Rattle.hc_value.specs.declared.prop.Held.TheVariants.{Datum};
ghost use Rattle.hc_value.specs.declared.prop.Kind.TheVariants.{DataProp};

use hc_value::{Held, Kind, Rep, Value, pair, tagged, unpair, untagged, unwide, wide};

/// The word of what a slot is to hold, by its field's representation.
pub fn held_word(held: Held, rep: Rep) -> u64
    requires range { IsHeldInRange held }
    requires fits { MayHold rep held }
    ensures form { IsFormOf (kind_of held) rep result }
    ensures holds { held_in (kind_of held) rep result ≡ held }
    ensures alone { (w : ℕ) → IsFormOf (kind_of held) rep w → held_in (kind_of held) rep w ≡ held → w ≡ result }
{
    match held {
        Held::Datum(value) => value_word(value, rep),
        Held::Pair(getter, setter) => pair(getter, setter),
    }
}

// The word of a value, by its field's representation.
fn value_word(value: Value, rep: Rep) -> u64
    requires range { IsInRange value }
    requires fits { MayHold rep (Datum value) }
    ensures form { IsFormOf DataProp rep result }
    ensures holds { held_in DataProp rep result ≡ Datum value }
    ensures alone { (w : ℕ) → IsFormOf DataProp rep w → held_in DataProp rep w ≡ Datum value → w ≡ result }
{
    match rep {
        Rep::Wide => wide_word(value),
        Rep::Smi | Rep::HeapObject | Rep::Tagged => tagged(value),
    }
}

// The word of an integer in a wide field.
fn wide_word(value: Value) -> u64
    requires fits { MayHold Wide (Datum value) }
    ensures form { IsFormOf DataProp Wide result }
    ensures holds { held_in DataProp Wide result ≡ Datum value }
    ensures alone { (w : ℕ) → IsFormOf DataProp Wide w → held_in DataProp Wide w ≡ Datum value → w ≡ result }
{
    let Value::Int(n) = value else { unreachable!() };
    wide(n)
}

// What the word of a slot holds.
pub(crate) fn held_of(kind: Kind, rep: Rep, word: u64) -> Held
    ensures value { result ≡ held_in kind rep word }
    ensures range { IsHeldInRange result }
{
    match kind {
        Kind::AccessorProp => pair_held(word),
        Kind::DataProp => data_held(rep, word),
    }
}

// The getter and setter of a pair's word.
fn pair_held(word: u64) -> Held
    ensures value { result ≡ pair_of (unpair_of word) }
    ensures range { IsHeldInRange result }
{
    match unpair(word) {
        Some((getter, setter)) => Held::Pair(getter, setter),
        None => Held::Pair(None, None),
    }
}

// The value of a word of a data property.
fn data_held(rep: Rep, word: u64) -> Held
    ensures value { result ≡ held_in DataProp rep word }
    ensures range { IsHeldInRange result }
{
    match rep {
        Rep::Wide => wide_held(word),
        Rep::Smi | Rep::HeapObject | Rep::Tagged => tagged_held(word),
    }
}

// The integer of a wide word.
fn wide_held(word: u64) -> Held
    ensures value { result ≡ datum_of (integer_of (unwide_of word)) }
    ensures range { IsHeldInRange result }
{
    match unwide(word) {
        Some(n) => Held::Datum(Value::Int(n)),
        None => Held::Datum(Value::Undefined),
    }
}

// The value of a tagged word.
fn tagged_held(word: u64) -> Held
    ensures value { result ≡ datum_of (untagged_of word) }
    ensures range { IsHeldInRange result }
{
    match untagged(word) {
        Some(value) => Held::Datum(value),
        None => Held::Datum(Value::Undefined),
    }
}
