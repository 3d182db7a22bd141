//! A board with words for every way and every skip.
ghost use Rattle.std.specs.Prelude.{◌≡◌, IfOk};
ghost use Rattle.hc_layout.specs.Shape.{words_of};

use hc_board::{Board, Memory, Writer};
use hc_heap::Kind;
use hc_layout::Shape;
use std::alloc::Global;

pub const SHAPE: Shape = Shape {
    maps: 30,
    entries: 16,
    fields: 12,
    links: 6,
    objects: 19,
    slots: 8,
    cells: 1,
};

/// The words that aren't 0, but for the slot of a constant and the long chain.
pub const WORDS: [(Kind, u32, u64); 59] = [
    // Map 1, of object 0: four entries, private; its prototype is null.
    (Kind::GateOfMap, 1, 265),
    (Kind::PrototypeOfMap, 1, 1),
    (Kind::BaseOfMap, 1, 1),
    (Kind::KeyOfEntry, 0, 33),
    (Kind::KeyOfEntry, 1, 65),
    (Kind::KeyOfEntry, 2, 99),
    (Kind::KeyOfEntry, 3, 133),
    (Kind::ReferenceOfEntry, 0, 1),
    (Kind::ReferenceOfEntry, 1, 2),
    (Kind::DetailOfField, 0, 17),
    (Kind::DetailOfField, 1, 31),
    (Kind::MapOfObject, 0, 2),
    (Kind::StoreOfObject, 0, 388),
    // Map 2: four entries; its prototype is object 0.
    (Kind::GateOfMap, 2, 9),
    (Kind::PrototypeOfMap, 2, 2),
    (Kind::BaseOfMap, 2, 5),
    (Kind::HeadOfMap, 2, 5),
    (Kind::KeyOfEntry, 4, 161),
    (Kind::KeyOfEntry, 5, 193),
    (Kind::KeyOfEntry, 6, 229),
    (Kind::KeyOfEntry, 7, 259),
    (Kind::ReferenceOfEntry, 4, 5),
    (Kind::ReferenceOfEntry, 5, 6),
    (Kind::DetailOfField, 4, 77),
    (Kind::DetailOfField, 5, 17),
    // Its links, the newest first: an accessor, name 9 twice, name 10, name 2.
    (Kind::KeyOfLink, 4, 355),
    (Kind::NextOfLink, 4, 4),
    (Kind::KeyOfLink, 2, 289),
    (Kind::ChildOfLink, 2, 4),
    (Kind::NextOfLink, 2, 3),
    (Kind::KeyOfLink, 1, 289),
    (Kind::ChildOfLink, 1, 5),
    (Kind::NextOfLink, 1, 2),
    (Kind::KeyOfLink, 0, 321),
    (Kind::ChildOfLink, 0, 6),
    (Kind::NextOfLink, 0, 5),
    (Kind::KeyOfLink, 3, 65),
    (Kind::ChildOfLink, 3, 7),
    (Kind::NextOfLink, 3, 1),
    // The children: map 3 with five entries, map 5 deprecated, map 6 with one entry.
    (Kind::GateOfMap, 3, 11),
    (Kind::BaseOfMap, 3, 9),
    (Kind::ReferenceOfEntry, 12, 9),
    (Kind::DetailOfField, 8, 27),
    (Kind::BitsOfMap, 5, 3),
    (Kind::GateOfMap, 6, 3),
    (Kind::BaseOfMap, 6, 14),
    (Kind::ReferenceOfEntry, 13, 10),
    (Kind::DetailOfField, 9, 37),
    // Map 7 is deprecated; the prototype of map 8 is slow; map 9 is private, map 10 locked.
    (Kind::BitsOfMap, 7, 3),
    (Kind::GateOfMap, 8, 1),
    (Kind::PrototypeOfMap, 8, 3),
    (Kind::GateOfMap, 9, 257),
    (Kind::PrototypeOfMap, 9, 1),
    (Kind::GateOfMap, 10, 513),
    (Kind::PrototypeOfMap, 10, 1),
    // Maps whose prototypes are the first and the second of seventeen objects.
    (Kind::GateOfMap, 11, 1),
    (Kind::PrototypeOfMap, 11, 4),
    (Kind::GateOfMap, 29, 1),
    (Kind::PrototypeOfMap, 29, 5),
];

/// A word of no form.
pub const SPOILT: u64 = u64::MAX;

// Writes the word of an item.
fn put(writer: &mut Writer, kind: Kind, item: u32, word: u64)
    requires { writer.old.board.words ≡ words_of SHAPE }
    ensures { writer.new.board ≡ writer.old.board }
{
    let place = kind.place(item);
    if item < SHAPE.items(place.region) {
        writer.store(SHAPE.index(place), word);
    }
}

/// The board; the word at one place of the table is spoilt, if there is such a place.
pub fn written(alloc: Global, spoilt: usize) -> Result<Writer, Memory>
    ensures { IfOk result (λ w. w.board.words ≡ words_of SHAPE) }
{
    let (_board, mut writer) = Board::make(alloc, SHAPE.words())?;
    for k in 0..WORDS.len() {
        let (kind, item, word) = WORDS[k];
        put(
            &mut writer,
            kind,
            item,
            if k == spoilt { SPOILT } else { word },
        );
    }
    put(&mut writer, Kind::WordOfSlot, 2, 77);
    for object in 2..19u32 {
        let after = if object == 18 {
            1
        } else {
            u64::from(object) + 3
        };
        put(
            &mut writer,
            Kind::MapOfObject,
            object,
            u64::from(object) + 11,
        );
        put(&mut writer, Kind::GateOfMap, object + 10, 257);
        put(&mut writer, Kind::PrototypeOfMap, object + 10, after);
    }
    Ok(writer)
}
