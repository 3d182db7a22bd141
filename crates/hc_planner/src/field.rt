//! From the words of a field, and of a constant's slot, to the answer.
#![tactic(auto, unfolding(crate::specs::Machine::rest_at))]

ghost use Rattle.std.specs.Prelude.{◌≡◌, ◌+◌, ◌<◌, ◌≤◌};
ghost use Rattle.hc_question.specs.Question.{held_by, stored_to};
ghost use Rattle.hc_planner.specs.Left.{left_at};
ghost use Rattle.hc_planner.specs.Machine.{Asks, AsksAfter, reference_seen, detail_seen, store_seen, slot_seen};

use crate::at::{At, FieldLook, Purpose};
use crate::own::{found, skipped};
use crate::seeker::Search;
use hc_layout::StoreWord;
use hc_plan::{Skip, Way};
use hc_question::Answer;
use hc_value::{Constness, Detail, Rep};

impl Search {
    pub(crate) fn after_reference(&self, purpose: Purpose, field: Option<u32>) -> At
        ensures asks { AsksAfter self.now result field (reference_seen self.now purpose) }
        ensures fewer { left_at result < 4 }
    {
        match field {
            Some(field) => At::Field(FieldLook::Detail { purpose, field }),
            None => At::Stopped,
        }
    }

    pub(crate) fn after_detail(&self, purpose: Purpose, field: u32, detail: Option<Detail>) -> At
        ensures asks { AsksAfter self.now result detail (λ next. detail_seen self.now purpose next field) }
        ensures fewer { left_at result < 3 }
    {
        let Some(detail) = detail else {
            return At::Stopped;
        };
        let rep = detail.rep;
        let class = detail.class;
        match purpose {
            Purpose::LoadOwn { slot } => found(Way::Own { slot, field, rep }),
            Purpose::LoadHeld { object, slot } => held(detail.constness, object, slot, field, rep),
            Purpose::StoreOwn { slot } => stored(slot, field, detail),
            Purpose::Add { child, slot } => found(Way::Add {
                child,
                slot,
                field,
                rep,
                class,
            }),
        }
    }

    pub(crate) fn after_store(
        &self,
        object: u32,
        slot: u32,
        field: u32,
        rep: Rep,
        store: Option<StoreWord>,
    ) -> At
        ensures asks { AsksAfter self.now result store (store_seen self.now object slot field rep) }
        ensures fewer { left_at result < 2 }
    {
        let Some(store) = store else {
            return At::Stopped;
        };
        match store.first {
            Some(start) => At::Field(FieldLook::Slot {
                object,
                slot,
                field,
                rep,
                start,
            }),
            None => At::Stopped,
        }
    }

    pub(crate) fn after_slot(
        &self,
        object: u32,
        slot: u32,
        field: u32,
        rep: Rep,
        word: Option<u64>,
    ) -> At
        ensures asks { AsksAfter self.now result word (slot_seen self.now object slot field rep) }
        ensures fewer { left_at result < 1 }
    {
        match word {
            Some(word) => found(Way::Constant {
                object,
                slot,
                field,
                rep,
                word,
            }),
            None => At::Stopped,
        }
    }
}

// A load of an object's of the chain: a constant is looked at for its word.
fn held(constness: Constness, object: u32, slot: u32, field: u32, rep: Rep) -> At
    ensures asks { (x : Search) → Asks x result (held_by constness object slot field rep x.chain) }
    ensures fewer { left_at result < 3 }
{
    match constness {
        Constness::Const => At::Field(FieldLook::Store {
            object,
            slot,
            field,
            rep,
        }),
        Constness::Mutable => found(Way::Holder {
            object,
            slot,
            field,
            rep,
        }),
    }
}

// A store to the receiver's own property.
fn stored(slot: u32, field: u32, detail: Detail) -> At
    ensures asks { (x : Search) → Asks x result (stored_to detail.constness slot field detail x.chain) }
    ensures fewer { left_at result < 3 }
{
    match detail.constness {
        Constness::Const => skipped(Skip::ConstField(field)),
        Constness::Mutable => found(Way::StoreOwn {
            slot,
            field,
            rep: detail.rep,
            class: detail.class,
        }),
    }
}
