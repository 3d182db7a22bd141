use bitflags::Flags;
use hc_index::{EntryIndex, LinkIndex};
use hc_value::{Attrs, Key, Kind};
use std::test::Fail;

fn key(name: u32, kind: Kind, attrs: Attrs) -> Key {
    Key { name, kind, attrs }
}

#[test]
fn the_child_that_was_told_last_is_found(rt: HostRuntime) -> Result<(), Fail> {
    let plain = key(5, Kind::DataProp, Attrs::empty());
    let hidden = key(5, Kind::DataProp, Attrs::DONT_ENUM);
    let accessor = key(5, Kind::AccessorProp, Attrs::empty());
    let mut links = LinkIndex::new(rt.alloc());
    links.reserve(3)?;
    for (map, key, child) in [
        (1, plain, 10),
        (1, hidden, 11),
        (2, plain, 12),
        (1, plain, 13),
    ] {
        links.tell(map, key, child);
    }
    assert!(rt; links.is_whole());
    let wanted = [
        (1, plain, Some(13)),
        (1, hidden, Some(11)),
        (1, accessor, None),
        (2, plain, Some(12)),
        (2, hidden, None),
    ];
    for (map, key, child) in wanted {
        assert_eq!(rt; links.find(map, key), child);
    }
    Ok(())
}

#[test]
fn without_room_the_index_is_no_longer_whole(rt: HostRuntime) -> Result<(), Fail> {
    let plain = key(5, Kind::DataProp, Attrs::empty());
    let mut links = LinkIndex::new(rt.alloc());
    links.tell(1, plain, 10);
    assert_eq!(rt; links.find(1, plain), None);
    assert!(rt; !links.is_whole());
    Ok(())
}

#[test]
fn an_answer_stands_until_another_takes_its_row(rt: HostRuntime) -> Result<(), Fail> {
    let mut entries = EntryIndex::new(rt.alloc())?;
    entries.note(0, 3, Some(7));
    assert_eq!(rt; entries.find(0, 3), Some(Some(7)));
    assert_eq!(rt; entries.find(1, 3), None);
    entries.note(0, 16_387, None);
    assert_eq!(rt; entries.find(0, 16_387), Some(None));
    assert_eq!(rt; entries.find(0, 3), None);
    Ok(())
}
