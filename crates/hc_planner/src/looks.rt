//! A look for a seeker: the word that it asks for, and what follows from it.
ghost use Rattle.std.specs.Prelude.{◌≡◌, ◌<◌};
ghost use Rattle.hc_layout.specs.Shape.{IsShape};
ghost use Rattle.hc_planner.specs.Left.{left_at};
ghost use Rattle.hc_planner.specs.Machine.{rest_at, rest};
ghost use Rattle.hc_planner.specs.Steps.{Steps};

use crate::at::{At, ChainLook, FieldLook, LinkLook, MapLook};
use crate::seeker::Seeker;
use hc_board::Look;
use hc_broker::Peek;

impl Seeker {
    pub(crate) fn look_at_map<L: Look>(&mut self, look: MapLook, peek: &mut Peek<'_, L>)
        requires fits { IsShape peek.old.shape }
        ensures steps { Steps L.looked peek.old.shape peek.old.look.now peek.new.look.now
            (rest_at self.old.search (At.Map look)) (rest self.new) }
        ensures fewer { left_at self.new.at < left_at (At.Map look) }
        ensures same { self.new.search.map ≡ self.old.search.map }
        ensures same_reference { peek.new.look.ghost_name ≡ peek.old.look.ghost_name }
        ensures shape { peek.new.shape ≡ peek.old.shape }
    {
        match look {
            MapLook::Bits => {
                let bits = peek.bits(self.search.map);
                self.at = self.search.after_bits(bits);
            }
            MapLook::Gate => {
                let gate = peek.gate(self.search.map);
                self.at = self.search.after_gate(gate);
            }
            MapLook::Proto => {
                let proto = peek.proto(self.search.map);
                self.at = self.search.after_proto(proto);
            }
            MapLook::Base {
                searched,
                map,
                entries,
            } => {
                let base = peek.base(map);
                self.at = self.search.after_base(searched, entries, base);
            }
            MapLook::Key {
                searched,
                first,
                entry,
                left,
            } => {
                let key = peek.entry_key(entry);
                self.at = self.search.after_key(searched, first, entry, left, key);
            }
        }
    }

    pub(crate) fn look_at_chain<L: Look>(&mut self, look: ChainLook, peek: &mut Peek<'_, L>)
        requires fits { IsShape peek.old.shape }
        ensures steps { Steps L.looked peek.old.shape peek.old.look.now peek.new.look.now
            (rest_at self.old.search (At.Chain look)) (rest self.new) }
        ensures fewer { left_at self.new.at < left_at (At.Chain look) }
        ensures same { self.new.search.map ≡ self.old.search.map }
        ensures same_reference { peek.new.look.ghost_name ≡ peek.old.look.ghost_name }
        ensures shape { peek.new.shape ≡ peek.old.shape }
    {
        match look {
            ChainLook::Object { object, left } => {
                let on = peek.object_map(object);
                self.at = self.search.after_object(object, left, on);
            }
            ChainLook::Gate {
                object,
                holder,
                left,
            } => {
                let gate = peek.gate(holder);
                self.at = self.search.after_holder_gate(object, holder, left, gate);
            }
            ChainLook::Proto {
                object,
                holder,
                entries,
                left,
            } => {
                let proto = peek.proto(holder);
                self.at = self
                    .search
                    .after_holder_proto(object, holder, entries, left, proto);
            }
        }
    }

    pub(crate) fn look_at_field<L: Look>(&mut self, look: FieldLook, peek: &mut Peek<'_, L>)
        requires fits { IsShape peek.old.shape }
        ensures steps { Steps L.looked peek.old.shape peek.old.look.now peek.new.look.now
            (rest_at self.old.search (At.Field look)) (rest self.new) }
        ensures fewer { left_at self.new.at < left_at (At.Field look) }
        ensures same { self.new.search.map ≡ self.old.search.map }
        ensures same_reference { peek.new.look.ghost_name ≡ peek.old.look.ghost_name }
        ensures shape { peek.new.shape ≡ peek.old.shape }
    {
        match look {
            FieldLook::Reference { purpose, entry } => {
                let field = peek.reference(entry);
                self.at = self.search.after_reference(purpose, field);
            }
            FieldLook::Detail { purpose, field } => {
                let detail = peek.detail(field);
                self.at = self.search.after_detail(purpose, field, detail);
            }
            FieldLook::Store {
                object,
                slot,
                field,
                rep,
            } => {
                let store = peek.store(object);
                self.at = self.search.after_store(object, slot, field, rep, store);
            }
            FieldLook::Slot {
                object,
                slot,
                field,
                rep,
                start,
            } => {
                let word = peek.slot(start.saturating_add(slot));
                self.at = self.search.after_slot(object, slot, field, rep, word);
            }
        }
    }

    pub(crate) fn look_at_link<L: Look>(&mut self, look: LinkLook, peek: &mut Peek<'_, L>)
        requires fits { IsShape peek.old.shape }
        ensures steps { Steps L.looked peek.old.shape peek.old.look.now peek.new.look.now
            (rest_at self.old.search (At.Link look)) (rest self.new) }
        ensures fewer { left_at self.new.at < left_at (At.Link look) }
        ensures same { self.new.search.map ≡ self.old.search.map }
        ensures same_reference { peek.new.look.ghost_name ≡ peek.old.look.ghost_name }
        ensures shape { peek.new.shape ≡ peek.old.shape }
    {
        match look {
            LinkLook::Head => {
                let head = peek.head(self.search.map);
                self.at = self.search.after_head(head);
            }
            LinkLook::Key { link, left } => {
                let key = peek.link_key(link);
                self.at = self.search.after_link_key(link, left, key);
            }
            LinkLook::Next { link, left } => {
                let next_link = peek.link_next(link);
                self.at = self.search.after_next(left, next_link);
            }
            LinkLook::Child { link } => {
                let child = peek.link_child(link);
                self.at = self.search.after_child(child);
            }
            LinkLook::Bits { child } => {
                let bits = peek.bits(child);
                self.at = self.search.after_child_bits(child, bits);
            }
            LinkLook::Gate { child } => {
                let gate = peek.gate(child);
                self.at = self.search.after_child_gate(child, gate);
            }
            LinkLook::Base { child, slot } => {
                let base = peek.base(child);
                self.at = self.search.after_child_base(child, slot, base);
            }
            LinkLook::Reference { child, slot, first } => {
                let field = peek.reference(first.saturating_add(slot));
                self.at = self.search.after_child_reference(child, slot, field);
            }
        }
    }
}
