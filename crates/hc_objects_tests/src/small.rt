use hc_heap::Free;
use hc_layout::{Region, Shape};
use hc_objects::Objects;
use hc_table::{TableFault, Tables};
use std::test::Fail;

#[test]
fn there_is_no_object_at_first(rt: HostRuntime) -> Result<(), Fail> {
    let objects = Objects::new(rt.alloc(), Shape::small(), Free)?;
    assert!(rt; objects.count() == 0);
    assert!(rt; objects.used(Region::Maps) == 0);
    assert!(rt; objects.writes() == 0);
    assert!(rt; objects.met() == 0);
    Ok(())
}

#[test]
fn a_new_object_takes_a_root_and_is_fast(rt: HostRuntime) -> Result<(), Fail> {
    let mut objects = Objects::new(rt.alloc(), Shape::small(), Free)?;
    assert!(rt; Tables::create(&mut objects, None) == Ok(0));
    assert!(rt; objects.used(Region::Maps) == 1);
    assert!(rt; objects.used(Region::Objects) == 1);
    let count = objects.count();
    assert!(rt; count == 1);
    assert!(rt; objects.map_of(0) == Some(0));
    assert!(rt; objects.len(0) == 0);
    Ok(())
}

#[test]
fn a_new_object_is_slow_where_no_root_fits(rt: HostRuntime) -> Result<(), Fail> {
    let shape = Shape {
        maps: 0,
        entries: 0,
        fields: 0,
        links: 0,
        objects: 1,
        slots: 0,
        cells: 0,
    };
    let mut objects = Objects::new(rt.alloc(), shape, Free)?;
    assert!(rt; Tables::create(&mut objects, None) == Ok(0));
    assert!(rt; objects.writes() == 0);
    let count = objects.count();
    assert!(rt; count == 1);
    assert!(rt; objects.map_of(0) == None);
    assert!(rt; objects.find_own(0, 5) == None);
    assert!(rt; Tables::create(&mut objects, None) == Err(TableFault::Full));
    Ok(())
}
