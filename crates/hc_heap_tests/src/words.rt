//! Capacities, sizes, places and words, as numbers.
use hc_layout::{
    ArrayWord, CellWord, GateWord, KeyWord, MapBits, NumberWord, RootWord, SettledWord, Shape,
    StoreWord, cap,
};
use hc_value::{Class, Constness, Detail, Num, Rep, Value, pair, rep_of, tagged, wide};
use std::test::Fail;

#[test]
fn capacities_and_sizes(rt: HostRuntime) {
    for (entries, capacity) in [
        (1, 4),
        (4, 4),
        (5, 8),
        (9, 16),
        (16, 16),
        (17, 32),
        (33, 64),
        (64, 64),
    ] {
        assert!(rt; cap(entries) == capacity);
    }
    assert!(rt; Shape::usual().words() == 7_798_784);
    assert!(rt; Shape::small().words() == 334);
}

// The first and the last word of each region of the small board: its index, its item, and which word of the item it is.
const ENDS: [(u32, u32, u32); 14] = [
    (0, 0, 0),
    (27, 3, 6),
    (28, 0, 0),
    (155, 63, 1),
    (156, 0, 0),
    (187, 15, 1),
    (188, 0, 0),
    (235, 15, 2),
    (236, 0, 0),
    (267, 7, 3),
    (268, 0, 0),
    (331, 63, 0),
    (332, 0, 0),
    (333, 1, 0),
];

#[test]
fn regions_begin_and_end_where_they_should(rt: HostRuntime) -> Result<(), Fail> {
    for (index, item, word) in ENDS {
        let place = Shape::small().place(index).ok_or("on the board")?;
        assert!(rt; [place.item, place.word] == [item, word]);
        assert!(rt; Shape::small().index(place) == index);
    }
    assert!(rt; Shape::small().place(334).is_none());
    Ok(())
}

#[test]
fn words_of_maps_and_entries(rt: HostRuntime) {
    let gate = GateWord {
        entries: 5,
        is_private: true,
        is_locked: false,
    };
    let bits = MapBits {
        unstable: true,
        deprecated: true,
    };
    let array = ArrayWord {
        owner: true,
        capacity: 8,
    };
    let key = KeyWord {
        is_accessor: true,
        attributes: 5,
        name: 3,
    };
    let words = [gate.pack(), bits.pack(), array.pack(), key.pack()];
    assert!(rt; words == [267, 3, 17, 119]);
    assert!(rt; GateWord::unpack(266).is_none());
}

#[test]
fn words_of_objects_and_cells(rt: HostRuntime) {
    let root = RootWord {
        is_proto: true,
        map: Some(6),
    };
    let store = StoreWord {
        capacity: 4,
        first: Some(2),
    };
    let cell = CellWord {
        invalid: true,
        object: 9,
    };
    let settled = SettledWord { number: None };
    let number = NumberWord { number: Some(7) };
    let words = [
        root.pack(),
        store.pack(),
        cell.pack(),
        settled.pack(),
        number.pack(),
    ];
    assert!(rt; words == [15, 388, 39, 1, 8]);
    assert!(rt; SettledWord::unpack(0).is_none());
}

#[test]
fn words_of_values(rt: HostRuntime) -> Result<(), Fail> {
    let zero = Num::new(0).ok_or("zero is in range")?;
    let least = Num::new(-9_007_199_254_740_991).ok_or("the least is in range")?;
    for (value, word) in [
        (Value::Int(zero), 72_057_594_037_927_937),
        (Value::Obj(2), 19),
        (Value::Bool(true), 28),
        (Value::Undefined, 4),
        (Value::Text(5), 42),
    ] {
        assert!(rt; tagged(value) == word);
    }
    assert!(rt; [wide(least), pair(Some(0), None), pair(None, Some(1))] == [1, 13, 33_554_437]);
    Ok(())
}

#[test]
fn words_of_details(rt: HostRuntime) -> Result<(), Fail> {
    for (integer, rep) in [
        (1_073_741_823, Rep::Smi),
        (1_073_741_824, Rep::Wide),
        (-1_073_741_824, Rep::Smi),
        (-1_073_741_825, Rep::Wide),
    ] {
        let num = Num::new(integer).ok_or("in range")?;
        assert!(rt; rep_of(Value::Int(num)) == rep);
    }
    let first = Detail {
        rep: Rep::Smi,
        constness: Constness::Const,
        class: Class::Any,
    };
    let object = Detail {
        rep: Rep::Tagged,
        constness: Constness::Mutable,
        class: Class::Of(3),
    };
    assert!(rt; [first.pack(), object.pack()] == [17, 111]);
    Ok(())
}
