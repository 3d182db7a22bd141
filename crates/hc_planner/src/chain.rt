//! From the words of an object of the chain to the next look.
#![tactic(auto, unfolding(crate::specs::Machine::rest_at, hc_question::specs::Question::walk))]

ghost use Rattle.std.specs.Prelude.{◌≡◌, if◌then◌else◌, ◌<◌, ◌≤◌, ◌+◌};
ghost use Rattle.hc_plan.specs.declared.lists.TheConstants.{MAX_CHAIN};
ghost use Rattle.hc_planner.specs.Left.{left_at, walk_left, tail_left};
ghost use Rattle.hc_planner.specs.Machine.{Asks, AsksAfter, walk_on, absent_on, held_on, shadowed_on, object_seen, holder_gate_seen, holder_proto_seen};

use crate::at::{At, ChainLook, Purpose, Searched};
use crate::own::{found, read_only, reference, skipped};
use crate::seeker::Search;
use hc_layout::GateWord;
use hc_plan::{MAX_CHAIN, Op, Skip, Way};
use hc_question::Answer;
use hc_value::{Key, Kind};

impl Search {
    pub(crate) fn after_proto(&self, proto: Option<Option<u32>>) -> At
        ensures asks { AsksAfter self.now result proto (walk_on self.now MAX_CHAIN) }
        ensures fewer { left_at result ≤ walk_left 16 }
    {
        let Some(proto) = proto else {
            return At::Stopped;
        };
        self.walked(MAX_CHAIN as u32, proto)
    }

    /// The chain goes on from a prototype, to so many objects at most.
    pub(crate) fn walked(&self, left: u32, proto: Option<u32>) -> At
        ensures asks { Asks self.now result (λ next. walk_on self.now left next proto) }
        ensures fewer { left_at result ≤ walk_left left }
    {
        let Some(object) = proto else {
            return self.absent();
        };
        if left == 0 {
            skipped(Skip::Deep(object))
        } else {
            At::Chain(ChainLook::Object {
                object,
                left: left - 1,
            })
        }
    }

    /// No object has a property of the name.
    fn absent(&self) -> At
        ensures asks { Asks self.now result (absent_on self.now) }
        ensures fewer { left_at result ≤ tail_left }
    {
        match self.what.op {
            Op::Load => found(Way::Absent),
            Op::Store => self.added(),
        }
    }

    pub(crate) fn after_object(&mut self, object: u32, left: u32, on: Option<Option<u32>>) -> At
        ensures asks { AsksAfter self.new result on (object_seen self.old object left) }
        ensures fewer { left_at result < left_at (At.Chain (ChainLook.Object object left)) }
        ensures same { self.new.map ≡ self.old.map }
    {
        let Some(on) = on else {
            return At::Stopped;
        };
        let Some(holder) = on else {
            return skipped(Skip::SlowHolder(object));
        };
        self.chain.push(object, holder);
        At::Chain(ChainLook::Gate {
            object,
            holder,
            left,
        })
    }

    pub(crate) fn after_holder_gate(
        &self,
        object: u32,
        holder: u32,
        left: u32,
        gate: Option<GateWord>,
    ) -> At
        ensures asks { AsksAfter self.now result gate (holder_gate_seen self.now object holder left) }
        ensures fewer { left_at result < left_at (At.Chain (ChainLook.Gate object holder left)) }
    {
        let Some(gate) = gate else {
            return At::Stopped;
        };
        At::Chain(ChainLook::Proto {
            object,
            holder,
            entries: gate.entries,
            left,
        })
    }

    pub(crate) fn after_holder_proto(
        &self,
        object: u32,
        holder: u32,
        entries: u32,
        left: u32,
        proto: Option<Option<u32>>,
    ) -> At
        ensures asks { AsksAfter self.now result proto (holder_proto_seen self.now object holder entries left) }
        ensures fewer { left_at result < left_at (At.Chain (ChainLook.Proto object holder entries left)) }
    {
        let Some(proto) = proto else {
            return At::Stopped;
        };
        let searched = Searched::Holder {
            object,
            proto,
            left,
        };
        self.entries_of(searched, holder, entries)
    }

    /// A property of an object of the chain has the name.
    pub(crate) fn held_found(&self, object: u32, entry: u32, slot: u32, key: Key) -> At
        ensures asks { Asks self.now result (λ next. held_on self.now object next entry slot key) }
        ensures fewer { left_at result ≤ tail_left }
    {
        match (self.what.op, key.kind) {
            (Op::Load, Kind::DataProp) => reference(Purpose::LoadHeld { object, slot }, entry),
            (Op::Load, Kind::AccessorProp) => found(Way::Getter {
                object: Some(object),
                slot,
            }),
            (Op::Store, Kind::DataProp) => self.shadowed(read_only(key.attrs)),
            (Op::Store, Kind::AccessorProp) => found(Way::Setter {
                object: Some(object),
                slot,
            }),
        }
    }

    // A store to a data property of an object of the chain adds one to the receiver (ECMA-262, 10.1.9.2).
    fn shadowed(&self, read_only: bool) -> At
        ensures asks { Asks self.now result (shadowed_on self.now read_only) }
        ensures fewer { left_at result ≤ tail_left }
    {
        if read_only {
            found(Way::Reject)
        } else {
            self.added()
        }
    }
}
