//! Cells follow a change of one object.
ghost use Rattle.std.specs.Prelude.{◌≡◌, ◌<◌, ◌≤◌, length};
ghost use Rattle.hc_cells.specs.Cells.{AreCells};
ghost use Rattle.hc_cells.specs.Watched.{AreWatched};
ghost use Rattle.hc_modes.specs.Validity.{protos_of};
ghost use Rattle.hc_table.specs.Changes.{IsThere};
ghost use Rattle.hc_objects.specs.Came.{world_of};
ghost use Rattle.hc_objects.specs.Following.{AreInvalidatedAt, IsInvalidatedAt, WatchedBut, told_also, told_of};
ghost use Rattle.hc_objects.specs.State.{IsFaithful, IsWatching};

use hc_cells::Watched;
use hc_heap::Pace;
use hc_modes::Objects as Inside;

// Tells the prototypes of an object, and of one that was named, where they are slow.
fn tell<P: Pace>(inside: &Inside<P>, protos: &mut [Option<u32>], o: u32, named: Option<u32>)
    requires object { o < length (world_of inside.now) }
    requires named { IsThere (world_of inside.now) named }
    requires size { length (world_of inside.now) ≤ length protos.old }
    ensures told { protos.new ≡ told_also inside.now (told_of inside.now protos.old o) named }
{
    protos[o as usize] = inside.slow_proto(o);
    if let Some(p) = named {
        protos[p as usize] = inside.slow_proto(p);
    }
}

// Makes those valid cells invalid whose chains go through an object that changed, if there is one.
fn invalidate_at<P: Pace>(
    inside: &mut Inside<P>,
    watched: &mut Watched,
    protos: &[Option<u32>],
    at: Option<u32>,
)
    requires object { IsThere (world_of inside.old) at }
    requires told { protos.now ≡ protos_of inside.old }
    requires size { length watched.old ≡ inside.old.heap.view.shape.objects }
    requires cells { AreCells inside.old.heap.view.trail inside.old.heap.view.used }
    requires watched { WatchedBut at inside.old.heap.view.trail protos.now watched.old }
    requires faithful { IsFaithful inside.old.heap.view.trail }
    ensures invalidated { IsInvalidatedAt P.went inside.old at inside.new }
    ensures watched { AreWatched inside.new.heap.view.trail protos.now watched.new }
    ensures size { length watched.new ≡ length watched.old }
    ensures cells { AreCells inside.new.heap.view.trail inside.new.heap.view.used }
    ensures faithful { IsFaithful inside.new.heap.view.trail }
{
    inside.stands();
    let Some(o) = at else {
        return;
    };
    inside.invalidate(watched, o, protos);
    inside.stands();
}

/// What is told of two objects follows them, and so do cells: those are made invalid whose chains go through one that changed.
pub(crate) fn follow<P: Pace>(
    inside: &mut Inside<P>,
    protos: &mut [Option<u32>],
    watched: &mut Watched,
    o: u32,
    named: Option<u32>,
    here: Option<u32>,
    there: Option<u32>,
)
    requires object { o < length (world_of inside.old) }
    requires named { IsThere (world_of inside.old) named }
    requires here { IsThere (world_of inside.old) here }
    requires there { IsThere (world_of inside.old) there }
    requires told { told_also inside.old (told_of inside.old protos.old o) named ≡ protos_of inside.old }
    requires size { length watched.old ≡ inside.old.heap.view.shape.objects }
    requires room { length protos.old ≡ inside.old.heap.view.shape.objects }
    requires cells { AreCells inside.old.heap.view.trail inside.old.heap.view.used }
    requires watched { WatchedBut here inside.old.heap.view.trail (protos_of inside.old) watched.old }
    requires faithful { IsFaithful inside.old.heap.view.trail }
    ensures follows { AreInvalidatedAt P.went inside.old here there inside.new }
    ensures watching { IsWatching inside.new protos.new watched.new }
{
    inside.stands();
    tell(inside, protos, o, named);
    invalidate_at(inside, watched, protos, here);
    invalidate_at(inside, watched, protos, there);
}
