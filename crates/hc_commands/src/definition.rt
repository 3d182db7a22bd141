ghost use Rattle.std.specs.Prelude.{◌≡◌, ◌++◌, ℕ, List, true, false, IfSome, IfNone, MatchOption};
ghost use Rattle.hc_commands.specs.Words.{words_of};
ghost use Rattle.hc_commands.specs.Definition.{Given, IsGiven, key_of, key_word, given_word, Description, IsDescription, no_fields, gives, Fills, Gives, mixes_kinds};
ghost use Rattle.hc_commands.specs.Request.{description_of};

use crate::token::{written_accessor, written_boolean};
use crate::words::first_word;
use crate::written::{Written, written_value};

/// Which field of a definition it is.
#[derive(Clone, Copy)]
pub enum Key {
    Value,
    Writable,
    Getter,
    Setter,
    Enumerable,
    Configurable,
}

/// What a definition of a property gives, with a text as its bytes.
#[derive(Clone, Copy)]
pub struct Definition<'a> {
    pub value: Option<Written<'a>>,
    pub writable: Option<bool>,
    pub getter: Option<Option<u32>>,
    pub setter: Option<Option<u32>>,
    pub enumerable: Option<bool>,
    pub configurable: Option<bool>,
}

/// The definition whose fields are the words of some bytes.
pub fn definition_of(bytes: &[u8]) -> Option<Definition<'_>>
    ensures fields { IfSome result (λ d. Gives no_fields (words_of bytes.now) (description_of d)) }
    ensures range { IfSome result (λ d. IsDescription (description_of d)) }
    ensures one_kind { IfSome result (λ d. mixes_kinds (description_of d) ≡ false) }
    ensures none { IfNone result ((d : Description) → mixes_kinds d ≡ false → Gives no_fields (words_of bytes.now) d → ⊥) }
{
    let Some(found) = fields_of(bytes) else {
        return None;
    };
    if found.mixes_kinds() {
        None
    } else {
        Some(found)
    }
}

// The fields that the words of some bytes are.
fn fields_of(bytes: &[u8]) -> Option<Definition<'_>>
    ensures fields { IfSome result (λ d. Gives no_fields (words_of bytes.now) (description_of d)) }
    ensures range { IfSome result (λ d. IsDescription (description_of d)) }
    ensures none { IfNone result ((d : Description) → Gives no_fields (words_of bytes.now) d → ⊥) }
{
    let mut found = Definition::empty();
    let mut rest = bytes;
    'fields: loop {
        let Some((word, behind)) = first_word(rest) else {
            return Some(found);
        };
        let Some((key, written)) = key_and_rest(word) else {
            return None;
        };
        if found.gives(key) {
            return None;
        }
        if !found.fills(key, written) {
            return None;
        }
        rest = behind;
    }
}

// The key with which a word begins, and what stands behind it.
fn key_and_rest(word: &[u8]) -> Option<(Key, &[u8])>
    ensures some { IfSome result (λ found. word.now ≡ key_word found.0 ++ found.1.now) }
    ensures none { IfNone result ((key : Key) (rest : List ℕ) → word.now ≡ key_word key ++ rest → ⊥) }
{
    if let Some(rest) = behind(b"value=", word) {
        return Some((Key::Value, rest));
    }
    if let Some(rest) = behind(b"writable=", word) {
        return Some((Key::Writable, rest));
    }
    if let Some(rest) = behind(b"get=", word) {
        return Some((Key::Getter, rest));
    }
    if let Some(rest) = behind(b"set=", word) {
        return Some((Key::Setter, rest));
    }
    if let Some(rest) = behind(b"enumerable=", word) {
        return Some((Key::Enumerable, rest));
    }
    if let Some(rest) = behind(b"configurable=", word) {
        return Some((Key::Configurable, rest));
    }
    None
}

// What stands behind the bytes with which a word begins.
fn behind<'a>(front: &[u8], word: &'a [u8]) -> Option<&'a [u8]>
    ensures { MatchOption result ((rest : List ℕ) → word.now ≡ front.now ++ rest → ⊥) (λ rest. word.now ≡ front.now ++ rest.now) }
{
    word.strip_prefix(front)
}

impl<'a> Definition<'a> {
    // No field is given.
    fn empty() -> Definition<'a>
        ensures { description_of result ≡ no_fields }
    {
        Definition {
            value: None,
            writable: None,
            getter: None,
            setter: None,
            enumerable: None,
            configurable: None,
        }
    }

    // Whether the field of a key is given.
    fn gives(&self, key: Key) -> bool
        ensures { result ≡ gives (description_of self.now) key }
    {
        match key {
            Key::Value => self.value.is_some(),
            Key::Writable => self.writable.is_some(),
            Key::Getter => self.getter.is_some(),
            Key::Setter => self.setter.is_some(),
            Key::Enumerable => self.enumerable.is_some(),
            Key::Configurable => self.configurable.is_some(),
        }
    }

    // Takes the field of a key that is written so.
    fn fills(&mut self, key: Key, word: &'a [u8]) -> bool
        ensures filled { result ≡ true → Fills (description_of self.old) key word.now (description_of self.new) }
        ensures refused { result ≡ false → (given : Given) → key_of given ≡ key → IsGiven given → word.now ≡ given_word given → ⊥ }
    {
        match key {
            Key::Value => self.value = written_value(word),
            Key::Writable => self.writable = written_boolean(word),
            Key::Getter => self.getter = written_accessor(word),
            Key::Setter => self.setter = written_accessor(word),
            Key::Enumerable => self.enumerable = written_boolean(word),
            Key::Configurable => self.configurable = written_boolean(word),
        }
        self.gives(key)
    }

    // Whether fields of both kinds of property are given.
    fn mixes_kinds(&self) -> bool
        ensures { result ≡ mixes_kinds (description_of self.now) }
    {
        (self.value.is_some() || self.writable.is_some())
            && (self.getter.is_some() || self.setter.is_some())
    }
}
