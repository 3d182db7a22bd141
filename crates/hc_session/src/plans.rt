//! Plans that commands break lose their sites, and a site's plan answers with its line.
ghost use Rattle.std.specs.Prelude.{◌≡◌, ◌↔◌, ◌+◌, ◌-◌, ◌<◌, ◌≤◌, ◌^◌, [], ◌∷◌, ◌++◌, None, IsSome, IfSome, IsSomeAnd, MatchOption, length, slice_get};
ghost use Rattle.hc_board.specs.States.{counted, words_of};
ghost use Rattle.hc_heap.specs.States.{OnlyLoads};
ghost use Rattle.hc_objects.specs.Came.{IsStill, world_of};
ghost use Rattle.hc_plan.specs.declared.case.Op.TheVariants.{Store};
ghost use Rattle.hc_soundness.specs.Rest.{IsRest};
ghost use Rattle.hc_table.specs.Numbers.{IsNameNumber};
ghost use Rattle.hc_value.specs.Word.{IsInRange};
ghost use Rattle.hc_installed.specs.Answers.{IsGiven, IsMiss};
ghost use Rattle.hc_installed.specs.Discards.{plan_count};
ghost use Rattle.hc_installed.specs.Installed.{AreInstalled};
ghost use Rattle.hc_installed.specs.Laws.{AreUnbroken};
ghost use Rattle.hc_session.specs.Plans.{lines_lost, sites_left};
ghost use Rattle.hc_session.specs.Asking.{HasHit};

use hc_heap::Pace;
use hc_installed::{answer, discard_broken};
use hc_layout::Shape;
use hc_objects::Objects;
use hc_report::{Line, Log};
use hc_sites::Sites;
use hc_value::{Reply, Value};

/// Discards the plans that are broken, by rising site, each with its line. Where nothing was stored since a count nothing is looked
/// at. The count stands still at the end of its type, so there each plan is looked at.
pub fn discard_since<P: Pace>(
    objects: &mut Objects<P>,
    shape: Shape,
    sites: &mut Sites,
    log: &mut Log,
    before: u64,
)
    requires shape { shape ≡ objects.old.heap.view.shape }
    requires room { plan_count sites.old ≤ log.old.room }
    requires quiet { before ≡ counted (length objects.old.heap.desk.trail) → before < 2 ^ 64 - 1
        → AreUnbroken objects.old.heap.view.shape (words_of objects.old.heap.desk) sites.old }
    ensures sites { sites.new ≡ sites_left objects.old sites.old }
    ensures lines { log.new.lines ≡ log.old.lines ++ lines_lost objects.old sites.old }
    ensures room { log.new.room + plan_count sites.old ≡ log.old.room + plan_count sites.new }
    ensures still { IsStill objects.old objects.new }
{
    let at = objects.writes();
    if at == before && at < u64::MAX {
        return;
    }
    discard_broken(objects, shape, sites, log, at);
}

/// What a site's plan answers, with the line of it; `None` where no case admits, or the site has no plan, and then nothing is done.
pub fn answer_by_plan<P: Pace>(
    objects: &mut Objects<P>,
    shape: Shape,
    sites: &Sites,
    log: &mut Log,
    s: u32,
    o: u32,
    value: &Option<Value>,
) -> Option<Reply>
    requires shape { shape ≡ objects.old.heap.view.shape }
    requires room { 0 < log.old.room }
    requires there { o < length (world_of objects.old) }
    requires range { IfSome value.now IsInRange }
    requires given { IfSome (slice_get sites.now s) (λ state. IsSome value.now ↔ (state.site.op ≡ Store)) }
    requires name { IfSome (slice_get sites.now s) (λ state. IsNameNumber state.site.name) }
    requires rest { IsRest objects.old.heap.view objects.old.kept }
    requires installed { AreInstalled objects.old.heap.view.shape objects.old.heap.view.trail sites.now }
    ensures hit { IfSome result (λ reply. HasHit P.went objects.old sites.now log.old.lines s o value.now reply objects.new log.new.lines) }
    ensures miss { result ≡ None → IsMiss objects.old sites.now s o value.now }
    ensures still { result ≡ None → IsStill objects.old objects.new }
    ensures quiet { result ≡ None → log.new ≡ log.old }
    ensures room { log.old.room ≤ log.new.room + 1 }
    ensures loads { value.now ≡ None → OnlyLoads 3 objects.old.heap.desk objects.new.heap.desk }
{
    let at = objects.writes();
    let hit = answer(objects, shape, sites, s, o, *value)?;
    log.push(at, Line::Hit(s, hit.0));
    Some(hit.1)
}
