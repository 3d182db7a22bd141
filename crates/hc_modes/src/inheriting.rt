//! Changes of an object's prototype, whether the object is fast or slow.
ghost use Rattle.std.specs.Prelude.{ℕ, ◌≡◌, ◌<◌, true, false, IsTrue, None, Some, IsSome, IfOk, IfSome, OnOk, OnErr, length};
ghost use Rattle.hc_heap.specs.Readings.{root_in};
ghost use Rattle.hc_table.specs.Changes.{IsThere, Linked, reaches};
ghost use Rattle.hc_table.specs.World.{object};
ghost use Rattle.hc_tree.specs.Needs.{HasSpace};
ghost use Rattle.hc_facts.specs.Honest.{IsHonest};
ghost use Rattle.hc_modes.specs.Came.{AreMoves, Came, HowBecame, IsMarked, IsStill, Moves, moves_to_link, world_of};
ghost use Rattle.hc_modes.specs.Inheriting.{IsLinkedNow, IsNamedNow, IsSpareFor, IsSpareOf, NamesSlow, spared_named, spared_need};
ghost use Rattle.hc_modes.specs.Meaning.{kept_of};
ghost use Rattle.hc_modes.specs.Needs.{IsFew};
ghost use Rattle.hc_modes.specs.Modes.{both, link_need};

use crate::objects::Objects;
use hc_dict::{Change, Dictionary};
use hc_facts::{constants_stay_on, honest_after, kept_is_carried};
use hc_heap::{Pace, details_rise, forms_are_kept, gates_are_open, unused_says_nothing};
use hc_slots::fast::map_of;
use hc_tree::{
    NONE, Need, has_space, known_root, maps_are_kept, mark_unstable, of_copy, of_retarget, plus,
    trees_stay,
};
use hc_value::{Cause, Memory};

impl<P: Pace> Objects<P> {
    // What an object needs to be a prototype, for which it makes this dictionary.
    fn need_to_become(&mut self, p: u32, spare: &Option<Dictionary>) -> Need
        requires object { p < length (world_of self.old) }
        ensures need { result ≡ spared_need self.old p spare.now }
        ensures few { IsFew result }
        ensures still { IsStill self.old self.new }
    {
        gates_are_open();
        if spare.is_some() || self.is_slow(p) || self.is_proto(p) {
            return NONE;
        }
        let map = map_of(&mut self.heap, p);
        let n = self.heap.gate(map).unwrap().entries;
        of_copy(true, n)
    }

    // What the prototype needs that is named, for which it makes this dictionary.
    fn need_of_named(&mut self, proto: Option<u32>, spare: &Option<Dictionary>) -> Need
        requires there { IsThere (world_of self.old) proto }
        ensures need { result ≡ spared_named self.old proto spare.now }
        ensures few { IsFew result }
        ensures still { IsStill self.old self.new }
    {
        match proto {
            Some(p) => self.need_to_become(p, spare),
            None => NONE,
        }
    }

    // What a fast object needs to get another prototype.
    fn need_to_link(&mut self, o: u32, proto: Option<u32>) -> Need
        requires object { o < length (world_of self.old) }
        requires fast { kept_of self.old.kept o ≡ None }
        ensures need { result ≡ link_need self.old.heap.view.trail o proto self.old.of_null }
        ensures few { IsFew result }
        ensures still { IsStill self.old self.new }
    {
        gates_are_open();
        let map = map_of(&mut self.heap, o);
        let n = self.heap.gate(map).unwrap().entries;
        if self.is_proto(o) {
            return of_copy(false, n);
        }
        let known = known_root(&mut self.heap, proto, self.of_null);
        of_retarget(n, known)
    }

    // The dictionary of a fast object that is to get another prototype, where there is no room for it to stay fast, after
    // the prototype became one.
    fn link_spare(
        &mut self,
        o: u32,
        proto: Option<u32>,
        spare: &Option<Dictionary>,
    ) -> Result<Option<Dictionary>, Memory>
        requires object { o < length (world_of self.old) }
        requires fast { kept_of self.old.kept o ≡ None }
        requires there { IsThere (world_of self.old) proto }
        ensures spare { IfOk result (λ d. IsSpareFor (HasSpace self.old.heap.view (both (spared_named self.old proto spare.now) (link_need self.old.heap.view.trail o proto self.old.of_null))) (object (world_of self.old) o) d) }
        ensures still { IsStill self.old self.new }
    {
        let named = self.need_of_named(proto, spare);
        let link = self.need_to_link(o, proto);
        if has_space(&self.heap, plus(named, link)) {
            return Ok(None);
        }
        let slow = self.dictionary(o, Cause::Space)?;
        Ok(Some(slow))
    }

    // The dictionary of what is named as prototype, where that is fast, and there is no room for a private map.
    pub(crate) fn spare_of(&mut self, proto: Option<u32>) -> Result<Option<Dictionary>, Memory>
        requires there { IsThere (world_of self.old) proto }
        ensures spare { IfOk result (λ d. IsSpareOf self.old proto d) }
        ensures still { IsStill self.old self.new }
    {
        match proto {
            Some(p) => self.spare(p),
            None => Ok(None),
        }
    }

    // Makes the map of a fast object unstable.
    fn mark_map(&mut self, o: u32)
        requires object { o < length (world_of self.old) }
        requires fast { kept_of self.old.kept o ≡ None }
        ensures marked { IsMarked P.went self.old o self.new }
    {
        maps_are_kept();
        details_rise();
        trees_stay();
        unused_says_nothing();
        forms_are_kept();
        honest_after();
        kept_is_carried();
        let map = map_of(&mut self.heap, o);
        mark_unstable(&mut self.heap, map);
    }

    // Has what is named as prototype be one from now on. It takes no memory.
    pub(crate) fn settle_named(&mut self, proto: Option<u32>, spare: Option<Dictionary>)
        requires there { IsThere (world_of self.old) proto }
        requires spare { IsSpareOf self.old proto spare }
        ensures named { IsNamedNow P.went self.old proto self.new }
        ensures none { proto ≡ None → self.new ≡ self.old }
        ensures how { IfSome proto (λ p. HowBecame self.old p self.new) }
    {
        self.stands();
        if let Some(p) = proto {
            self.settle(p, spare);
        }
    }

    // Whether a slow object is named as prototype.
    fn names_slow(&self, proto: Option<u32>) -> bool
        requires there { IsThere (world_of self.now) proto }
        ensures slow { IsTrue result → NamesSlow self.now proto }
        ensures fast { result ≡ false → (p : ℕ) → proto ≡ Some p → kept_of self.now.kept p ≡ None }
    {
        match proto {
            Some(p) => self.is_slow(p),
            None => false,
        }
    }

    // Has what is named as prototype of a fast object be one from now on. Where that is slow, the object's map is made
    // unstable before.
    fn settle_for(&mut self, o: u32, proto: Option<u32>, spare: Option<Dictionary>)
        requires object { o < length (world_of self.old) }
        requires fast { kept_of self.old.kept o ≡ None }
        requires there { IsThere (world_of self.old) proto }
        requires spare { IsSpareOf self.old proto spare }
        ensures named { IsNamedNow P.went self.old proto self.new }
        ensures moves { AreMoves P.went self.old (moves_to_link self.old o proto) self.new }
    {
        unused_says_nothing();
        constants_stay_on();
        if self.names_slow(proto) {
            self.mark_map(o);
            self.settle_named(proto, spare);
            self.stands();
            return;
        }
        self.settle_named(proto, spare);
        self.stands();
    }

    // Gives a fast object another prototype, which is or was one already, and for which there is room.
    fn link_fast(&mut self, o: u32, proto: Option<u32>)
        requires object { o < length (world_of self.old) }
        requires fast { kept_of self.old.kept o ≡ None }
        requires there { IsThere (world_of self.old) proto }
        requires no_cycle { reaches (world_of self.old) proto o ≡ false }
        requires named { IfSome proto (λ p. IsTrue (root_in self.old.heap.view.trail p).is_proto) }
        requires space { HasSpace self.old.heap.view (link_need self.old.heap.view.trail o proto self.old.of_null) }
        requires honest { IsHonest self.old.heap.view.trail }
        ensures linked { IsLinkedNow P.went self.old o proto self.new }
    {
        if self.is_proto(o) {
            self.link_private(o, proto);
            return;
        }
        self.link_shared(o, proto);
    }

    // Gives a fast object another prototype, which is or was one already: it is slow with this dictionary, where there is
    // no room for it. It takes no memory.
    fn link_with(&mut self, o: u32, proto: Option<u32>, spare: Option<Dictionary>)
        requires object { o < length (world_of self.old) }
        requires fast { kept_of self.old.kept o ≡ None }
        requires there { IsThere (world_of self.old) proto }
        requires no_cycle { reaches (world_of self.old) proto o ≡ false }
        requires named { IfSome proto (λ p. IsTrue (root_in self.old.heap.view.trail p).is_proto) }
        requires spare { IsSpareFor (HasSpace self.old.heap.view (link_need self.old.heap.view.trail o proto self.old.of_null)) (object (world_of self.old) o) spare }
        requires honest { IsHonest self.old.heap.view.trail }
        ensures linked { IsLinkedNow P.went self.old o proto self.new }
    {
        constants_stay_on();
        if let Some(slow) = spare {
            self.leave_with(o, slow);
            self.change_slow(o, Change::Link(proto));
            return;
        }
        self.link_fast(o, proto);
    }

    // Gives a slow object another prototype, which becomes one.
    fn set_of_slow(&mut self, o: u32, proto: Option<u32>) -> Result<(), Memory>
        requires object { o < length (world_of self.old) }
        requires slow { IsSome (kept_of self.old.kept o) }
        requires there { IsThere (world_of self.old) proto }
        requires no_cycle { reaches (world_of self.old) proto o ≡ false }
        ensures did { OnOk result (Came P.went self.old (Linked o proto) self.new) }
        ensures moved { OnErr result (Moves P.went self.old self.new) }
        ensures still { OnErr result (IsStill self.old self.new) }
    {
        unused_says_nothing();
        self.stands();
        let spare = self.spare_of(proto)?;
        self.settle_named(proto, spare);
        self.stands();
        self.change_slow(o, Change::Link(proto));
        Ok(())
    }

    // Gives a fast object another prototype, which becomes one. The object goes slow where there is no room.
    fn set_of_fast(&mut self, o: u32, proto: Option<u32>) -> Result<(), Memory>
        requires object { o < length (world_of self.old) }
        requires fast { kept_of self.old.kept o ≡ None }
        requires there { IsThere (world_of self.old) proto }
        requires no_cycle { reaches (world_of self.old) proto o ≡ false }
        requires honest { IsHonest self.old.heap.view.trail }
        ensures did { OnOk result (Came P.went self.old (Linked o proto) self.new) }
        ensures moved { OnErr result (Moves P.went self.old self.new) }
        ensures still { OnErr result (IsStill self.old self.new) }
    {
        self.stands();
        let spare = self.spare_of(proto)?;
        let slow = self.link_spare(o, proto, &spare)?;
        self.settle_for(o, proto, spare);
        self.stands();
        self.link_with(o, proto, slow);
        Ok(())
    }

    // Gives an object another prototype, whose chain doesn't come to the object. The prototype becomes one first.
    pub fn set_prototype(&mut self, o: u32, proto: Option<u32>) -> Result<(), Memory>
        requires object { o < length (world_of self.old) }
        requires there { IsThere (world_of self.old) proto }
        requires no_cycle { reaches (world_of self.old) proto o ≡ false }
        requires honest { IsHonest self.old.heap.view.trail }
        ensures did { OnOk result (Came P.went self.old (Linked o proto) self.new) }
        ensures moved { OnErr result (Moves P.went self.old self.new) }
        ensures still { OnErr result (IsStill self.old self.new) }
    {
        if self.is_slow(o) {
            return self.set_of_slow(o, proto);
        }
        self.set_of_fast(o, proto)
    }
}
