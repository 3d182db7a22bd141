//! Items that are handed out, and a heap with its readers and its pace.
ghost use Rattle.std.specs.Prelude.{◌≡◌, [], ⊤, IfOk};
ghost use Rattle.hc_heap.specs.States.{no_items};
ghost use Rattle.hc_layout.specs.declared.shape.TheConstants.{SMALL};

use hc_board::{Look, Writer};
use hc_heap::{Free, Heap, Kind, Pace};
use hc_layout::{Region, Shape};
use std::test::Fail;

/// Counts the stores that it is told.
#[derive(Drop)]
struct Counting {
    stores: u64,
}

impl Pace for Counting {
    ghost use Rattle.std.specs.Prelude.{⊤};

    ghost fits = { λ _ _. ⊤ };

    ghost went = { λ _ _ _ _. ⊤ };

    fn wrote(&mut self, _writer: &mut Writer) {
        self.stores = self.stores.saturating_add(1);
    }

    ghost stays = { λ _ _. tt };

    ghost goes_on = { λ _ _ _ _ _ _ _ _. tt };
}

#[test]
fn items_are_handed_out_to_the_end_of_a_region(rt: HostRuntime) -> Result<(), Fail> {
    let mut heap = Heap::new(rt.alloc(), Shape::small(), Free)?;
    assert!(rt; heap.room(Region::Cells, 2));
    assert!(rt; heap.fresh(Region::Cells, 1) == 0);
    assert!(rt; heap.fresh(Region::Cells, 1) == 1);
    assert!(rt; !heap.room(Region::Cells, 1));
    assert!(rt; heap.room(Region::Cells, 0));
    Ok(())
}

#[test]
fn a_pace_is_told_of_each_store(rt: HostRuntime) -> Result<(), Fail> {
    let mut heap = Heap::new(rt.alloc(), Shape::small(), Counting { stores: 0 })?;
    assert!(rt; heap.fresh(Region::Slots, 4) == 0);
    heap.set_slot(3, u64::MAX);
    heap.set_slot(0, 7);
    assert!(rt; [heap.slot(3), heap.slot(0), heap.slot(1)] == [u64::MAX, 7, 0]);
    assert!(rt; heap.trade(Counting { stores: 0 }).stores == 2);
    Ok(())
}

#[test]
fn readers_are_met_and_renewed(rt: HostRuntime) -> Result<(), Fail> {
    let mut heap = Heap::new(rt.alloc(), Shape::small(), Free)?;
    assert!(rt; heap.fresh(Region::Slots, 1) == 0);
    let reader = heap.reader()?;
    heap.set_slot(0, 9);
    let mut reader = heap.renew(reader);
    let index = Shape::small().index(Kind::WordOfSlot.place(0));
    assert!(rt; [heap.look(index), reader.look(index)] == [9, 9]);
    heap.meet(reader);
    assert!(rt; [heap.writes(), heap.met()] == [1, 2]);
    Ok(())
}
