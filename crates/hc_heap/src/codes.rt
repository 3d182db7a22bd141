//! Keys and numbers as words.
ghost use Rattle.std.specs.Prelude.{◌≡◌, Some, None};
ghost use Rattle.hc_heap.specs.Decode.{property_kind, key_read, settled_number, optional_number, number_read};
ghost use Rattle.hc_heap.specs.Lawful.{IsKey};

use bitflags::Flags;
use hc_layout::{KeyWord, NumberWord, SettledWord};
use hc_value::{Attrs, Key, Kind};

// The kind of a property, by whether it is an accessor.
fn kind_of_property(is_accessor: bool) -> Kind
    ensures { result ≡ property_kind is_accessor }
{
    if is_accessor {
        Kind::AccessorProp
    } else {
        Kind::DataProp
    }
}

// Whether a property is an accessor.
fn is_accessor(kind: Kind) -> bool
    ensures { property_kind result ≡ kind }
{
    match kind {
        Kind::AccessorProp => true,
        Kind::DataProp => false,
    }
}

/// The key of a word that is one; none for another.
pub fn key_of_word(word: u64) -> Option<Key>
    ensures { result ≡ key_read word }
{
    let key = KeyWord::unpack(word)?;
    Some(Key {
        name: key.name,
        kind: kind_of_property(key.is_accessor),
        attrs: Attrs::from_bits_retain(key.attributes as u8),
    })
}

/// The word of a key.
pub(crate) fn word_of_key(key: Key) -> u64
    requires { IsKey key }
    ensures { key_read result ≡ Some key }
{
    let word = KeyWord {
        is_accessor: is_accessor(key.kind),
        attributes: u32::from(key.attrs.bits()),
        name: key.name,
    };
    word.pack()
}

/// The number, or that there is none, of a word that is written once; none before it is.
pub fn settled(word: u64) -> Option<Option<u32>>
    ensures { result ≡ settled_number word }
{
    Some(SettledWord::unpack(word)?.number)
}

pub(crate) fn settled_word(number: Option<u32>) -> u64
    ensures { settled_number result ≡ Some number }
{
    SettledWord { number }.pack()
}

/// The number, or that there is none, of a word that says so from the start.
pub fn optional(word: u64) -> Option<Option<u32>>
    ensures { result ≡ optional_number word }
{
    Some(NumberWord::unpack(word)?.number)
}

pub(crate) fn optional_word(number: Option<u32>) -> u64
    ensures { optional_number result ≡ Some number }
{
    NumberWord { number }.pack()
}

/// The number of a word that is written once; none before it is.
pub fn number(word: u64) -> Option<u32>
    ensures { result ≡ number_read word }
{
    NumberWord::unpack(word)?.number
}

pub(crate) fn number_word(number: u32) -> u64
    ensures { number_read result ≡ Some number }
{
    optional_word(Some(number))
}
