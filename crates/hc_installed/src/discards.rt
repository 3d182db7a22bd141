//! Plans that are broken lose their sites.
ghost use Rattle.std.specs.Prelude.{◌≡◌, ◌+◌, ◌≤◌, ◌++◌};
ghost use Rattle.hc_board.specs.States.{words_of};
ghost use Rattle.hc_objects.specs.Came.{IsStill};
ghost use Rattle.hc_installed.specs.Discards.{discard_lines, plan_count, unbroken_sites};

use hc_deps::next_broken;
use hc_heap::Pace;
use hc_layout::Shape;
use hc_objects::Objects;
use hc_plan::Dep;
use hc_report::{Line, Log};
use hc_sites::Sites;

/// Each site whose plan is broken loses it, and the log gets a line for it, by rising site. A plan is broken by the first of its
/// dependencies, other than values, that doesn't hold.
pub fn discard_broken<P: Pace>(
    objects: &mut Objects<P>,
    shape: Shape,
    sites: &mut Sites,
    log: &mut Log,
    at: u64,
)
    requires shape { shape ≡ objects.old.heap.view.shape }
    requires room { plan_count sites.old ≤ log.old.room }
    ensures sites { sites.new ≡ unbroken_sites shape (words_of objects.old.heap.desk) sites.old }
    ensures lines { log.new.lines ≡ log.old.lines ++ discard_lines shape (words_of objects.old.heap.desk) at sites.old }
    ensures room { log.new.room + plan_count sites.old ≡ log.old.room + plan_count sites.new }
    ensures still { IsStill objects.old objects.new }
{
    objects.stands();
    // there are fewer than 2^32 sites
    sites.len();
    let mut from = 0;
    while let Some((site, dep)) = next_broken(objects, shape, sites, from) {
        sites.discard(site);
        log.push(at, Line::Discard(site, dep));
        from = site + 1;
    }
}
