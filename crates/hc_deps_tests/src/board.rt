//! A board with words for every dependency and for every way.
ghost use Rattle.std.specs.Prelude.{◌≡◌, IfOk};
ghost use Rattle.hc_layout.specs.Shape.{words_of};

use hc_board::{Board, Memory, Writer};
use hc_heap::Kind;
use hc_layout::Shape;
use std::alloc::Global;

pub const SHAPE: Shape = Shape {
    maps: 4,
    entries: 1,
    fields: 5,
    links: 1,
    objects: 4,
    slots: 8,
    cells: 1,
};

/// The words that aren't 0.
pub const WORDS: [(Kind, u32, u64); 21] = [
    // Map 1 is unstable, map 2 deprecated; the word of map 3 has no form.
    (Kind::BitsOfMap, 1, 1),
    (Kind::BitsOfMap, 2, 3),
    (Kind::BitsOfMap, 3, 4),
    // Fields: small, constant, of any class; any value, mutable; constant, of objects of map 2; unwritten; of no form.
    (Kind::DetailOfField, 0, 17),
    (Kind::DetailOfField, 1, 31),
    (Kind::DetailOfField, 2, 69),
    (Kind::DetailOfField, 4, 49),
    // Object 0: map 0, and the slots 0 to 3. Object 1: map 1, and the slots 4 to 7.
    (Kind::MapOfObject, 0, 1),
    (Kind::StoreOfObject, 0, 132),
    (Kind::MapOfObject, 1, 2),
    (Kind::StoreOfObject, 1, 644),
    // Object 2: map 1, and no slots. Object 3 is slow; its slots go past the last one.
    (Kind::MapOfObject, 2, 2),
    (Kind::StoreOfObject, 3, 900),
    // The text 5, the integer 7 as a wide word, getter 3 alone, setter 9 alone.
    (Kind::WordOfSlot, 0, 42),
    (Kind::WordOfSlot, 1, 9007199254740999),
    (Kind::WordOfSlot, 2, 37),
    (Kind::WordOfSlot, 3, 167772165),
    // Object 2, getter 6 and setter 8, a word of no form, and the text 1.
    (Kind::WordOfSlot, 4, 19),
    (Kind::WordOfSlot, 5, 150995005),
    (Kind::WordOfSlot, 6, 7),
    (Kind::WordOfSlot, 7, 10),
];

// Writes the word of an item.
fn put(writer: &mut Writer, kind: Kind, item: u32, word: u64)
    requires { writer.old.board.words ≡ words_of SHAPE }
    ensures { writer.new.board ≡ writer.old.board }
{
    let place = kind.place(item);
    if item < SHAPE.items(place.region) {
        writer.store(SHAPE.index(place), word);
    }
}

/// The board.
pub fn written(alloc: Global) -> Result<Writer, Memory>
    ensures { IfOk result (λ w. w.board.words ≡ words_of SHAPE) }
{
    let (_board, mut writer) = Board::make(alloc, SHAPE.words())?;
    for k in 0..WORDS.len() {
        let (kind, item, word) = WORDS[k];
        put(&mut writer, kind, item, word);
    }
    Ok(writer)
}
