//! What a field of a map admits: a representation, whether it was ever changed, and a class of objects.
ghost use Rattle.std.specs.Prelude.{◌≡◌, ◌↔◌, ◌<◌, ◌^◌, ℕ, IsTrue, Some, None, IfSome};
ghost use Rattle.hc_value.specs.Field.{rep_of, join_of, in_place_of, is_within, IsJoin, rep_number, rep_at, constness_number, class_number, class_at, joined_detail, is_detail_within, IsDetailJoin, detail_of, IsClassInRange, joined_constness, joined_class};

use crate::word::NUMBER_LIMIT;
use crate::{Num, Value};

/// How the slot of a field holds its value: as a small integer, an integer, anything that is no integer,
/// or anything.
#[derive(Clone, Copy, PartialEq, Eq)]
pub enum Rep {
    Smi,
    Wide,
    HeapObject,
    Tagged,
}

/// Whether a field has only ever had its first value.
#[derive(Clone, Copy, PartialEq, Eq)]
pub enum Constness {
    Const,
    Mutable,
}

/// The objects that a field has had: those of one map, or any value.
#[derive(Clone, Copy, PartialEq, Eq)]
pub enum Class {
    Of(u32),
    Any,
}

/// What a field admits.
#[derive(Clone, Copy, PartialEq, Eq)]
pub struct Detail {
    pub rep: Rep,
    pub constness: Constness,
    pub class: Class,
}

/// A small integer is below this, and at least its contrary.
const SMALL: i64 = 1 << 30;

/// The representation of a value.
pub fn rep_of(v: Value) -> Rep
    ensures { result ≡ rep_of v }
{
    match v {
        Value::Int(n) => rep_of_integer(n),
        _ => Rep::HeapObject,
    }
}

/// The least representation that holds what either holds.
pub fn join(a: Rep, b: Rep) -> Rep
    ensures value { result ≡ join_of a b }
    ensures least { IsJoin a b result }
    ensures order { IsTrue (is_within a b) ↔ (result ≡ b) }
    ensures commutes { join_of b a ≡ result }
    ensures associates { (c : Rep) → join_of result c ≡ join_of a (join_of b c) }
    ensures idempotent { join_of a a ≡ a }
{
    match (a, b) {
        (Rep::Smi, Rep::Smi) => Rep::Smi,
        (Rep::HeapObject, Rep::HeapObject) => Rep::HeapObject,
        (Rep::Smi, Rep::Wide) => Rep::Wide,
        (Rep::Wide, Rep::Smi) => Rep::Wide,
        (Rep::Wide, Rep::Wide) => Rep::Wide,
        _ => Rep::Tagged,
    }
}

/// Whether a field of one representation gets the other where it stands, without a new map.
pub fn in_place(from: Rep, to: Rep) -> bool
    ensures value { result ≡ in_place_of from to }
    ensures within { IsTrue result → IsTrue (is_within from to) }
{
    match (from, to) {
        (Rep::Smi, Rep::Smi) => true,
        (Rep::Wide, Rep::Wide) => true,
        (Rep::HeapObject, Rep::HeapObject) => true,
        (Rep::Tagged, Rep::Tagged) => true,
        (Rep::Smi, Rep::Tagged) => true,
        (Rep::HeapObject, Rep::Tagged) => true,
        _ => false,
    }
}

fn rep_of_integer(n: Num) -> Rep
    ensures { result ≡ rep_of (Value.Int n) }
{
    let n = n.get();
    if -SMALL <= n && n < SMALL {
        Rep::Smi
    } else {
        Rep::Wide
    }
}

impl Rep {
    fn number(self) -> u64
        ensures { result ≡ rep_number self }
    {
        match self {
            Rep::Smi => 0,
            Rep::Wide => 1,
            Rep::HeapObject => 2,
            Rep::Tagged => 3,
        }
    }

    fn of_number(number: u64) -> Rep
        requires { number < 4 }
        ensures { result ≡ rep_at number }
    {
        match number {
            0 => Rep::Smi,
            1 => Rep::Wide,
            2 => Rep::HeapObject,
            _ => Rep::Tagged,
        }
    }
}

impl Constness {
    fn join(self, other: Constness) -> Constness
        ensures { result ≡ joined_constness self other }
    {
        match (self, other) {
            (Constness::Const, Constness::Const) => Constness::Const,
            _ => Constness::Mutable,
        }
    }

    fn number(self) -> u64
        ensures { result ≡ constness_number self }
    {
        match self {
            Constness::Const => 0,
            Constness::Mutable => 1,
        }
    }
}

impl Class {
    fn join(self, other: Class) -> Class
        ensures { result ≡ joined_class self other }
    {
        match (self, other) {
            (Class::Of(m), Class::Of(n)) if m == n => Class::Of(m),
            _ => Class::Any,
        }
    }

    fn number(self) -> u64
        requires { IsClassInRange self }
        ensures value { result ≡ class_number self }
        ensures fits { result < 2 ^ 21 }
    {
        match self {
            Class::Any => 1,
            Class::Of(map) => u64::from(map) << 1,
        }
    }

    fn of_number(number: u64) -> Option<Class>
        ensures value { result ≡ class_at number }
    {
        let map = number >> 1;
        if number == 1 {
            Some(Class::Any)
        } else if number % 2 == 0 && map < u64::from(NUMBER_LIMIT) {
            Some(Class::Of(map as u32))
        } else {
            None
        }
    }
}

impl Detail {
    /// The least detail that admits what either admits.
    pub fn join(self, other: Detail) -> Detail
        ensures value { result ≡ joined_detail self other }
        ensures least { IsDetailJoin self other result }
        ensures order { IsTrue (is_detail_within self other) ↔ (result ≡ other) }
        ensures commutes { joined_detail other self ≡ result }
        ensures associates { (c : Detail) → joined_detail result c ≡ joined_detail self (joined_detail other c) }
        ensures idempotent { joined_detail self self ≡ self }
    {
        Detail {
            rep: join(self.rep, other.rep),
            constness: self.constness.join(other.constness),
            class: self.class.join(other.class),
        }
    }

    /// The word of a field's detail.
    #[tactic(auto, unfolding(crate::specs::Field::detail_of))]
    pub fn pack(self) -> u64
        requires { IsClassInRange self.class }
        ensures form { detail_of result ≡ Some self }
        ensures alone { (w : ℕ) → detail_of w ≡ Some self → w ≡ result }
    {
        1 + (self.rep.number() << 1) + (self.constness.number() << 3) + (self.class.number() << 4)
    }

    /// The detail of a word that is one.
    #[tactic(auto, unfolding(crate::specs::Field::detail_of))]
    pub fn unpack(w: u64) -> Option<Detail>
        ensures value { result ≡ detail_of w }
        ensures range { IfSome result (λ d. IsClassInRange d.class) }
        ensures unwritten { detail_of 0 ≡ None }
    {
        match Class::of_number(w >> 4) {
            Some(class) if w % 2 == 1 => Some(Detail {
                rep: Rep::of_number((w >> 1) % 4),
                constness: if (w >> 3) % 2 == 1 {
                    Constness::Mutable
                } else {
                    Constness::Const
                },
                class,
            }),
            _ => None,
        }
    }
}
