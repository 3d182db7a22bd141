//! A site's plan answers.
ghost use Rattle.std.specs.List.{AllByRecursion};
ghost use Rattle.std.specs.Prelude.{◌≡◌, ◌↔◌, ◌<◌, None, IsSome, IfSome, IsSomeAnd, MatchOption, length, option_map, slice_get};
ghost use Rattle.hc_value.specs.Word.{IsInRange};
ghost use Rattle.hc_heap.specs.States.{OnlyLoads};
ghost use Rattle.hc_objects.specs.Came.{IsStill, world_of};
ghost use Rattle.hc_plan.specs.declared.case.Op.TheVariants.{Store};
ghost use Rattle.hc_soundness.specs.Applied.{IsAnswerOf};
ghost use Rattle.hc_soundness.specs.Borne.{IsBorne};
ghost use Rattle.hc_soundness.specs.Rest.{IsRest};
ghost use Rattle.hc_table.specs.Numbers.{IsNameNumber};
ghost use Rattle.hc_installed.specs.Answers.{IsCaseOf, IsGiven, IsFirstToAdmit, IsHit, IsMiss, MayApply, RefusesNow, case_number};
ghost use Rattle.hc_installed.specs.Installed.{AreInstalled};

use hc_apply::{Applied, apply};
use hc_board::now_is_image;
use hc_heap::{Pace, forms_are_kept, stores_are_writes, unused_says_nothing, words_say};
use hc_layout::Shape;
use hc_objects::{Objects, loads_come_first};
use hc_plan::Plan;
use hc_sites::Sites;
use hc_soundness::{applied_is_right, borne_can_apply};
use hc_value::{Reply, Value};

// What a plan says of a receiver and, of a store, the value.
fn apply_plan<P: Pace>(
    objects: &mut Objects<P>,
    shape: Shape,
    plan: &Plan,
    o: u32,
    value: &Option<Value>,
) -> Applied
    requires shape { shape ≡ objects.old.heap.view.shape }
    requires rest { IsRest objects.old.heap.view objects.old.kept }
    requires borne { IsBorne objects.old.heap.view.shape objects.old.heap.view.trail plan.now }
    requires given { IsSome value.now ↔ (plan.now.op ≡ Store) }
    ensures case { IsCaseOf objects.old o value.now plan.now.cases result }
    ensures right { IsAnswerOf (world_of objects.old) o plan.now.name value.now result }
    ensures may { MayApply objects.old.heap.view o plan.now.name value.now result }
    ensures still { IsStill objects.old objects.new }
    ensures loads { value.now ≡ None → OnlyLoads 3 objects.old.heap.desk objects.new.heap.desk }
{
    words_say();
    stores_are_writes();
    now_is_image();
    forms_are_kept();
    unused_says_nothing();
    applied_is_right();
    borne_can_apply();
    objects.stands();
    let room = objects.slot_room(shape);
    apply(objects, shape, plan, o, *value, room)
}

// Does what a plan says, and gives the reply.
fn perform<P: Pace>(
    objects: &mut Objects<P>,
    o: u32,
    name: u32,
    value: &Option<Value>,
    applied: Applied,
) -> Option<(u32, Reply)>
    requires there { o < length (world_of objects.old) }
    requires name { IsNameNumber name }
    requires range { IfSome value.now IsInRange }
    requires right { IsAnswerOf (world_of objects.old) o name value.now applied }
    requires may { MayApply objects.old.heap.view o name value.now applied }
    ensures number { option_map (λ hit. hit.0) result ≡ case_number applied }
    ensures given { MatchOption result (IsStill objects.old objects.new) (λ hit. IsGiven P.went objects.old o name value.now hit.1 objects.new) }
    ensures loads { value.now ≡ None → objects.new ≡ objects.old }
{
    match applied {
        Applied::Answer(number, reply) => Some((number, reply)),
        Applied::StoreAt(number, slot) => {
            let Some(value) = value else {
                unreachable!();
            };
            objects.store_at(o, slot, *value);
            Some((number, Reply::Flag(true)))
        }
        Applied::AddBy(number, child) => {
            let Some(value) = value else {
                unreachable!();
            };
            objects.add_by(o, child, name, *value);
            Some((number, Reply::Flag(true)))
        }
        Applied::Miss => None,
    }
}

// What a plan answers for a receiver and, of a store, the value.
fn answer_by<P: Pace>(
    objects: &mut Objects<P>,
    shape: Shape,
    plan: &Plan,
    o: u32,
    value: &Option<Value>,
) -> Option<(u32, Reply)>
    requires shape { shape ≡ objects.old.heap.view.shape }
    requires there { o < length (world_of objects.old) }
    requires range { IfSome value.now IsInRange }
    requires name { IsNameNumber plan.now.name }
    requires rest { IsRest objects.old.heap.view objects.old.kept }
    requires borne { IsBorne objects.old.heap.view.shape objects.old.heap.view.trail plan.now }
    requires given { IsSome value.now ↔ (plan.now.op ≡ Store) }
    ensures answer { MatchOption result (AllByRecursion (RefusesNow objects.old o value.now) plan.now.cases) (λ hit. IsFirstToAdmit objects.old o value.now plan.now.cases hit.0) }
    ensures given { MatchOption result (IsStill objects.old objects.new) (λ hit. IsGiven P.went objects.old o plan.now.name value.now hit.1 objects.new) }
    ensures loads { value.now ≡ None → OnlyLoads 3 objects.old.heap.desk objects.new.heap.desk }
{
    loads_come_first::<P>();
    let applied = apply_plan(objects, shape, plan, o, value);
    perform(objects, o, plan.name, value, applied)
}

/// What a site's plan answers for a receiver and, of a store, the value: the number of the first case that admits them, with the
/// reply of the ordinary operation, which is done. None where no case admits, or the site has no plan; then nothing is done.
pub fn answer<P: Pace>(
    objects: &mut Objects<P>,
    shape: Shape,
    sites: &Sites,
    s: u32,
    o: u32,
    value: Option<Value>,
) -> Option<(u32, Reply)>
    requires shape { shape ≡ objects.old.heap.view.shape }
    requires there { o < length (world_of objects.old) }
    requires range { IfSome value IsInRange }
    requires given { IfSome (slice_get sites.now s) (λ state. IsSome value ↔ (state.site.op ≡ Store)) }
    requires name { IfSome (slice_get sites.now s) (λ state. IsNameNumber state.site.name) }
    requires rest { IsRest objects.old.heap.view objects.old.kept }
    requires installed { AreInstalled objects.old.heap.view.shape objects.old.heap.view.trail sites.now }
    ensures answer { MatchOption result (IsMiss objects.old sites.now s o value) (λ hit. IsHit objects.old sites.now s o value hit.0) }
    ensures still { result ≡ None → IsStill objects.old objects.new }
    ensures given { IfSome result (λ hit. IsSomeAnd (slice_get sites.now s) (λ state. IsGiven P.went objects.old o state.site.name value hit.1 objects.new)) }
    ensures loads { value ≡ None → OnlyLoads 3 objects.old.heap.desk objects.new.heap.desk }
{
    match sites.plan_of(s) {
        Some(plan) => answer_by(objects, shape, plan, o, &value),
        None => None,
    }
}
