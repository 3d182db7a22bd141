//! The words of the board, each with its form.
//!
//! A word whose form has the bit `Written` is never 0, so it is told from a word that no store gave yet.
//! A bit that no field names is 0. The widths stand here alone: crates above speak of them by name.
ghost use Rattle.std.specs.Prelude.{◌≡◌, ℕ, ◌+◌, ◌-◌, ◌^◌, ◌<◌, ◌≤◌, ◌==◌, false, IfSome};
ghost use Rattle.hc_layout.specs.Words.{gate_of, map_bits_of, array_of, key_of, root_of, store_of, cell_of, number_of, settled_of, one_more, one_less};

use crate::bits::Bits;

/// The width of a count of entries, and of a capacity.
pub const COUNT_BITS: u32 = 7;
/// The width of the attributes of a key.
pub const ATTRIBUTE_BITS: u32 = 3;
/// The width of a name.
pub const NAME_BITS: u32 = 20;
/// The width of one more than a slot's number.
pub const SLOT_BITS: u32 = 24;
/// The width of any other number.
pub const NUMBER_BITS: u32 = 32;

const GATE_ENTRIES: u32 = 1;

const GATE_PRIVATE: u32 = GATE_ENTRIES + COUNT_BITS;

const GATE_LOCKED: u32 = GATE_PRIVATE + 1;

const GATE_END: u32 = GATE_LOCKED + 1;

const MAP_DEPRECATED: u32 = 1;

const MAP_END: u32 = MAP_DEPRECATED + 1;

const ARRAY_CAPACITY: u32 = 1;

const ARRAY_END: u32 = ARRAY_CAPACITY + COUNT_BITS;

const KEY_ACCESSOR: u32 = 1;

const KEY_ATTRIBUTES: u32 = KEY_ACCESSOR + 1;

const KEY_NAME: u32 = KEY_ATTRIBUTES + ATTRIBUTE_BITS;

const KEY_END: u32 = KEY_NAME + NAME_BITS;

const ROOT_MAP: u32 = 1;

const ROOT_END: u32 = ROOT_MAP + NUMBER_BITS;

const STORE_FIRST: u32 = COUNT_BITS;

const STORE_END: u32 = STORE_FIRST + SLOT_BITS;

const CELL_INVALID: u32 = 1;

const CELL_OBJECT: u32 = CELL_INVALID + 1;

const CELL_END: u32 = CELL_OBJECT + NUMBER_BITS;

type Written = Bits<0, 1>;

type GateEntries = Bits<GATE_ENTRIES, COUNT_BITS>;

type GatePrivate = Bits<GATE_PRIVATE, 1>;

type GateLocked = Bits<GATE_LOCKED, 1>;

type MapUnstable = Bits<0, 1>;

type MapDeprecated = Bits<MAP_DEPRECATED, 1>;

type ArrayOwner = Bits<0, 1>;

type ArrayCapacity = Bits<ARRAY_CAPACITY, COUNT_BITS>;

type KeyAccessor = Bits<KEY_ACCESSOR, 1>;

type KeyAttributes = Bits<KEY_ATTRIBUTES, ATTRIBUTE_BITS>;

type KeyName = Bits<KEY_NAME, NAME_BITS>;

type RootIsProto = Bits<0, 1>;

type RootMap = Bits<ROOT_MAP, NUMBER_BITS>;

type StoreCapacity = Bits<0, COUNT_BITS>;

type StoreFirst = Bits<STORE_FIRST, SLOT_BITS>;

type CellInvalid = Bits<CELL_INVALID, 1>;

type CellObject = Bits<CELL_OBJECT, NUMBER_BITS>;

/// The bodies of `pack` and `unpack`, over the fields of a word.
macro_rules! packing {
    (pack $($bits:ty = $value:expr),+ $(,)?) => {{
        let word = 0;
        $(let word = <$bits>::put(word, $value);)+
        word
    }};
    (unpack $word:ident if $form:expr => $name:ident { $($field:ident: $read:ident($bits:ty)),+ $(,)? }) => {
        if $form {
            Some($name { $($field: $read(<$bits>::get($word))),+ })
        } else {
            None
        }
    };
}

fn flag(bit: u64) -> bool
    ensures { result ≡ (bit == 1) }
{
    bit == 1
}

fn count(number: u64) -> u32
    requires { number < 2 ^ NUMBER_BITS }
    ensures { result ≡ number }
{
    number as u32
}

fn optional(number: u64) -> Option<u32>
    requires { number ≤ 2 ^ NUMBER_BITS }
    ensures { result ≡ one_less number }
{
    if number == 0 {
        None
    } else {
        Some((number - 1) as u32)
    }
}

fn stand_for(number: Option<u32>) -> u64
    ensures value { result ≡ one_more number }
    ensures fits { result ≤ 2 ^ NUMBER_BITS }
{
    match number {
        None => 0,
        Some(n) => u64::from(n) + 1,
    }
}

/// The word that opens a map: how many entries it has, and what it is.
#[derive(Clone, Copy)]
pub struct GateWord {
    pub entries: u32,
    pub is_private: bool,
    pub is_locked: bool,
}

impl GateWord {
    #[tactic(auto, unfolding(crate::specs::Words::gate_of))]
    pub fn pack(self) -> u64
        requires { self.entries < 2 ^ COUNT_BITS }
        ensures form { gate_of result ≡ Some self }
        ensures alone { (w : ℕ) → gate_of w ≡ Some self → w ≡ result }
    {
        packing!(pack
            Written = 1,
            GateEntries = u64::from(self.entries),
            GatePrivate = u64::from(self.is_private),
            GateLocked = u64::from(self.is_locked),
        )
    }

    #[tactic(auto, unfolding(crate::specs::Words::gate_of))]
    pub fn unpack(word: u64) -> Option<GateWord>
        ensures value { result ≡ gate_of word }
        ensures fits { IfSome result (λ g. g.entries < 2 ^ COUNT_BITS) }
        ensures unwritten { gate_of 0 ≡ None }
    {
        packing!(unpack word if Written::get(word) == 1 && word < 1 << GATE_END => GateWord {
            entries: count(GateEntries),
            is_private: flag(GatePrivate),
            is_locked: flag(GateLocked),
        })
    }
}

/// What may happen to a map once it is open.
#[derive(Clone, Copy)]
pub struct MapBits {
    pub unstable: bool,
    pub deprecated: bool,
}

impl MapBits {
    #[tactic(auto, unfolding(crate::specs::Words::map_bits_of))]
    pub fn pack(self) -> u64
        ensures form { map_bits_of result ≡ Some self }
        ensures alone { (w : ℕ) → map_bits_of w ≡ Some self → w ≡ result }
    {
        packing!(pack MapUnstable = u64::from(self.unstable), MapDeprecated = u64::from(self.deprecated))
    }

    #[tactic(auto, unfolding(crate::specs::Words::map_bits_of))]
    pub fn unpack(word: u64) -> Option<MapBits>
        ensures value { result ≡ map_bits_of word }
        ensures unwritten { map_bits_of 0 ≡ Some (record { unstable = false; deprecated = false }) }
    {
        packing!(unpack word if word < 1 << MAP_END => MapBits {
            unstable: flag(MapUnstable),
            deprecated: flag(MapDeprecated),
        })
    }
}

/// Whether a map owns the array of its entries, and how many entries the array has room for.
#[derive(Clone, Copy)]
pub struct ArrayWord {
    pub owner: bool,
    pub capacity: u32,
}

impl ArrayWord {
    #[tactic(auto, unfolding(crate::specs::Words::array_of))]
    pub fn pack(self) -> u64
        requires { self.capacity < 2 ^ COUNT_BITS }
        ensures form { array_of result ≡ Some self }
        ensures alone { (w : ℕ) → array_of w ≡ Some self → w ≡ result }
    {
        packing!(pack ArrayOwner = u64::from(self.owner), ArrayCapacity = u64::from(self.capacity))
    }

    #[tactic(auto, unfolding(crate::specs::Words::array_of))]
    pub fn unpack(word: u64) -> Option<ArrayWord>
        ensures value { result ≡ array_of word }
        ensures fits { IfSome result (λ a. a.capacity < 2 ^ COUNT_BITS) }
        ensures unwritten { array_of 0 ≡ Some (record { owner = false; capacity = 0 }) }
    {
        packing!(unpack word if word < 1 << ARRAY_END => ArrayWord {
            owner: flag(ArrayOwner),
            capacity: count(ArrayCapacity),
        })
    }
}

/// The key of an entry or of a link. `hc_heap` turns it into a key of values: kind and attributes are
/// numbers here, since this crate stands on no other.
#[derive(Clone, Copy)]
pub struct KeyWord {
    pub is_accessor: bool,
    pub attributes: u32,
    pub name: u32,
}

impl KeyWord {
    #[tactic(auto, unfolding(crate::specs::Words::key_of))]
    pub fn pack(self) -> u64
        requires attributes { self.attributes < 2 ^ ATTRIBUTE_BITS }
        requires name { self.name < 2 ^ NAME_BITS }
        ensures form { key_of result ≡ Some self }
        ensures alone { (w : ℕ) → key_of w ≡ Some self → w ≡ result }
    {
        packing!(pack
            Written = 1,
            KeyAccessor = u64::from(self.is_accessor),
            KeyAttributes = u64::from(self.attributes),
            KeyName = u64::from(self.name),
        )
    }

    #[tactic(auto, unfolding(crate::specs::Words::key_of))]
    pub fn unpack(word: u64) -> Option<KeyWord>
        ensures value { result ≡ key_of word }
        ensures attributes { IfSome result (λ k. k.attributes < 2 ^ ATTRIBUTE_BITS) }
        ensures name { IfSome result (λ k. k.name < 2 ^ NAME_BITS) }
        ensures unwritten { key_of 0 ≡ None }
    {
        packing!(unpack word if Written::get(word) == 1 && word < 1 << KEY_END => KeyWord {
            is_accessor: flag(KeyAccessor),
            attributes: count(KeyAttributes),
            name: count(KeyName),
        })
    }
}

/// Whether an object is or was a prototype, and the root of the maps whose prototype it is.
#[derive(Clone, Copy)]
pub struct RootWord {
    pub is_proto: bool,
    pub map: Option<u32>,
}

impl RootWord {
    #[tactic(auto, unfolding(crate::specs::Words::root_of))]
    pub fn pack(self) -> u64
        requires { one_more self.map < 2 ^ NUMBER_BITS }
        ensures form { root_of result ≡ Some self }
        ensures alone { (w : ℕ) → root_of w ≡ Some self → w ≡ result }
    {
        packing!(pack RootIsProto = u64::from(self.is_proto), RootMap = stand_for(self.map))
    }

    #[tactic(auto, unfolding(crate::specs::Words::root_of))]
    pub fn unpack(word: u64) -> Option<RootWord>
        ensures value { result ≡ root_of word }
        ensures fits { IfSome result (λ r. one_more r.map < 2 ^ NUMBER_BITS) }
        ensures unwritten { root_of 0 ≡ Some (record { is_proto = false; map = None }) }
    {
        packing!(unpack word if word < 1 << ROOT_END => RootWord {
            is_proto: flag(RootIsProto),
            map: optional(RootMap),
        })
    }
}

/// How many slots an object has, and the first of them.
#[derive(Clone, Copy)]
pub struct StoreWord {
    pub capacity: u32,
    pub first: Option<u32>,
}

impl StoreWord {
    #[tactic(auto, unfolding(crate::specs::Words::store_of))]
    pub fn pack(self) -> u64
        requires capacity { self.capacity < 2 ^ COUNT_BITS }
        requires first { one_more self.first < 2 ^ SLOT_BITS }
        ensures form { store_of result ≡ Some self }
        ensures alone { (w : ℕ) → store_of w ≡ Some self → w ≡ result }
    {
        packing!(pack StoreCapacity = u64::from(self.capacity), StoreFirst = stand_for(self.first))
    }

    #[tactic(auto, unfolding(crate::specs::Words::store_of))]
    pub fn unpack(word: u64) -> Option<StoreWord>
        ensures value { result ≡ store_of word }
        ensures capacity { IfSome result (λ s. s.capacity < 2 ^ COUNT_BITS) }
        ensures first { IfSome result (λ s. one_more s.first < 2 ^ SLOT_BITS) }
        ensures unwritten { store_of 0 ≡ Some (record { capacity = 0; first = None }) }
    {
        packing!(unpack word if word < 1 << STORE_END => StoreWord {
            capacity: count(StoreCapacity),
            first: optional(StoreFirst),
        })
    }
}

/// The validity cell of an object's chain.
#[derive(Clone, Copy)]
pub struct CellWord {
    pub invalid: bool,
    pub object: u32,
}

impl CellWord {
    #[tactic(auto, unfolding(crate::specs::Words::cell_of))]
    pub fn pack(self) -> u64
        ensures form { cell_of result ≡ Some self }
        ensures alone { (w : ℕ) → cell_of w ≡ Some self → w ≡ result }
    {
        packing!(pack
            Written = 1,
            CellInvalid = u64::from(self.invalid),
            CellObject = u64::from(self.object),
        )
    }

    #[tactic(auto, unfolding(crate::specs::Words::cell_of))]
    pub fn unpack(word: u64) -> Option<CellWord>
        ensures value { result ≡ cell_of word }
        ensures unwritten { cell_of 0 ≡ None }
    {
        packing!(unpack word if Written::get(word) == 1 && word < 1 << CELL_END => CellWord {
            invalid: flag(CellInvalid),
            object: count(CellObject),
        })
    }
}

/// A number or none: 0 for none, else the number + 1. So a number that is written once is none before.
#[derive(Clone, Copy)]
pub struct NumberWord {
    pub number: Option<u32>,
}

impl NumberWord {
    #[tactic(auto, unfolding(crate::specs::Words::number_of))]
    pub fn pack(self) -> u64
        ensures form { number_of result ≡ Some self }
        ensures alone { (w : ℕ) → number_of w ≡ Some self → w ≡ result }
    {
        stand_for(self.number)
    }

    #[tactic(auto, unfolding(crate::specs::Words::number_of))]
    pub fn unpack(word: u64) -> Option<NumberWord>
        ensures value { result ≡ number_of word }
        ensures unwritten { number_of 0 ≡ Some (record { number = None }) }
    {
        if word <= 1 << NUMBER_BITS {
            Some(NumberWord {
                number: optional(word),
            })
        } else {
            None
        }
    }
}

/// A number or none, written once: 1 for none, else the number + 2.
#[derive(Clone, Copy)]
pub struct SettledWord {
    pub number: Option<u32>,
}

impl SettledWord {
    #[tactic(auto, unfolding(crate::specs::Words::settled_of))]
    pub fn pack(self) -> u64
        ensures form { settled_of result ≡ Some self }
        ensures alone { (w : ℕ) → settled_of w ≡ Some self → w ≡ result }
    {
        stand_for(self.number) + 1
    }

    #[tactic(auto, unfolding(crate::specs::Words::settled_of))]
    pub fn unpack(word: u64) -> Option<SettledWord>
        ensures value { result ≡ settled_of word }
        ensures unwritten { settled_of 0 ≡ None }
    {
        if word >= 1 && word - 1 <= 1 << NUMBER_BITS {
            Some(SettledWord {
                number: optional(word - 1),
            })
        } else {
            None
        }
    }
}
