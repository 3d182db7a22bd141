ghost use Rattle.std.specs.Prelude.{◌≡◌, ◌<◌, ◌^◌, Some, [], ◌∷◌, ◌++◌, length, slice_get, slice_set, OnOk, OnErr};
ghost use Rattle.std.specs.List.{AllByRecursion};
ghost use Rattle.hc_table.specs.Attributes.{IsProper};
ghost use Rattle.hc_table.specs.Changes.{removed_at, with_link, locked, restricted_object};
ghost use Rattle.hc_table.specs.Plain.{object_of};
ghost use Rattle.hc_table.specs.World.{IsWorld, object, props_at, with_list, held_at};

use crate::{TableFault, Tables, restrict};
use hc_value::{Held, Memory, Prop};
use std::alloc::Global;
use std::marker::Model;

/// One object of `Plain`.
#[derive(Drop)]
struct PlainObject {
    proto: Option<u32>,
    extensible: bool,
    props: Vec<Prop>,
}

impl PlainObject {
    // Gives the object a new last property.
    fn append(&mut self, p: Prop) -> Result<(), Memory>
        ensures added { OnOk result (object_of self.new ≡ with_list (object_of self.old) (self.old.props.items ++ p ∷ [])) }
        ensures err { OnErr result (object_of self.new ≡ object_of self.old) }
    {
        // The toolchain finds the types inside a property only where a part of it is named.
        let Prop { name, attrs, held } = p;
        self.props.push(Prop { name, attrs, held })?;
        Ok(())
    }

    // Has the property at a place hold something else.
    fn put(&mut self, i: u32, held: Held)
        requires { i < length self.old.props.items }
        ensures { object_of self.new ≡ with_list (object_of self.old) (held_at self.old.props.items i held) }
    {
        self.props[i as usize].held = held;
    }

    // Puts another property at a place.
    fn replace(&mut self, i: u32, p: Prop)
        requires { i < length self.old.props.items }
        ensures { object_of self.new ≡ with_list (object_of self.old) (slice_set self.old.props.items i p) }
    {
        self.props[i as usize] = p;
    }

    // Takes the property at a place away.
    fn take_away(&mut self, i: u32)
        requires { i < length self.old.props.items }
        ensures { object_of self.new ≡ with_list (object_of self.old) (removed_at self.old.props.items i) }
    {
        self.props.remove(i as usize);
    }

    // Gives the object another prototype.
    fn link(&mut self, proto: Option<u32>)
        ensures { object_of self.new ≡ with_link (object_of self.old) proto }
    {
        self.proto = proto;
    }

    // Has the object get no further property.
    fn lock(&mut self)
        ensures { object_of self.new ≡ locked (object_of self.old) }
    {
        self.extensible = false;
    }

    // Seals the object, or freezes it.
    fn restrict(&mut self, frozen: bool)
        ensures { object_of self.new ≡ restricted_object (object_of self.old) frozen }
    {
        self.extensible = false;
        for p in self.props.iter_mut() {
            *p = restrict(*p, frozen);
        }
    }
}

/// Property tables by lists: slow, and plain to read.
#[derive(Drop)]
pub struct Plain {
    objects: Vec<PlainObject>,
    limit: u32,
    alloc: Global,
}

impl Model for Plain {
    ghost use Rattle.hc_table.specs.Kept.{Kept, IsKept};

    ghost Value = { Kept };

    ghost use Rattle.hc_table.specs.Plain.{kept_by};

    ghost view = { λ p. kept_by p.objects.items p.limit };

    ghost invariant = { λ p. IsKept (kept_by p.objects.items p.limit) };
}

impl Plain {
    /// No objects, of which there may be as many as the limit.
    pub fn new(alloc: Global, limit: u32) -> Plain
        ensures empty { result.world ≡ [] }
        ensures limit { result.limit ≡ limit }
    {
        Plain {
            objects: Vec::new(alloc),
            limit,
            alloc,
        }
    }

    // What holds of the objects, each as it is kept.
    fn at(&self, o: u32) -> &PlainObject
        requires { o < length self.now.world }
        ensures object { object_of result.now ≡ object self.now.world o }
        ensures sound { IsWorld self.now.world }
    {
        &self.objects[o as usize]
    }

    // The properties of an object.
    fn props(&self, o: u32) -> &[Prop]
        requires { o < length self.now.world }
        ensures props { result.now ≡ props_at self.now.world o }
        ensures short { length result.now < 2 ^ 32 }
        ensures proper { AllByRecursion IsProper result.now }
        ensures sound { IsWorld self.now.world }
    {
        &self.objects[o as usize].props
    }

    // The property of an object at a place.
    fn prop(&self, o: u32, i: u32) -> Prop
        requires object { o < length self.now.world }
        requires place { i < length (props_at self.now.world o) }
        ensures prop { slice_get (props_at self.now.world o) i ≡ Some result }
        ensures proper { IsProper result }
        ensures sound { IsWorld self.now.world }
    {
        self.props(o)[i as usize]
    }
}

impl Tables for Plain {
    ghost use Rattle.std.specs.Prelude.{refl};
    ghost use Rattle.hc_table.specs.Kept.{Came};

    ghost world = { λ p. p.world };

    ghost limit = { λ p. p.limit };

    ghost came = { Came };

    fn count(&mut self) -> u32 {
        self.objects.len() as u32
    }

    fn create(&mut self, proto: Option<u32>) -> Result<u32, TableFault> {
        let number = self.objects.len() as u32;
        if number >= self.limit {
            return Err(TableFault::Full);
        }
        self.objects.push(PlainObject {
            proto,
            extensible: true,
            props: Vec::new(self.alloc),
        })?;
        Ok(number)
    }

    fn proto(&mut self, o: u32) -> Option<u32> {
        self.at(o).proto
    }

    fn extensible(&mut self, o: u32) -> bool {
        self.at(o).extensible
    }

    fn len(&mut self, o: u32) -> u32 {
        self.props(o).len() as u32
    }

    fn find_own(&mut self, o: u32, name: u32) -> Option<u32> {
        Some(self.props(o).iter().position(|p| p.name == name)? as u32)
    }

    fn prop_at(&mut self, o: u32, i: u32) -> Prop {
        self.prop(o, i)
    }

    fn add(&mut self, o: u32, p: Prop) -> Result<(), Memory> {
        let object = &mut self.objects[o as usize];
        object.append(p)
    }

    fn write(&mut self, o: u32, i: u32, held: Held) -> Result<(), Memory> {
        let object = &mut self.objects[o as usize];
        object.put(i, held);
        Ok(())
    }

    fn reconfigure(&mut self, o: u32, i: u32, p: Prop) -> Result<(), Memory> {
        let object = &mut self.objects[o as usize];
        object.replace(i, p);
        Ok(())
    }

    fn remove(&mut self, o: u32, i: u32) -> Result<(), Memory> {
        let object = &mut self.objects[o as usize];
        object.take_away(i);
        Ok(())
    }

    fn set_proto(&mut self, o: u32, proto: Option<u32>) -> Result<(), Memory> {
        let object = &mut self.objects[o as usize];
        object.link(proto);
        Ok(())
    }

    fn lock(&mut self, o: u32) -> Result<(), Memory> {
        let object = &mut self.objects[o as usize];
        object.lock();
        Ok(())
    }

    fn restrict(&mut self, o: u32, frozen: bool) -> Result<(), Memory> {
        let object = &mut self.objects[o as usize];
        object.restrict(frozen);
        Ok(())
    }

    ghost use Rattle.hc_table.specs.Laws.{came-refl, came-before, came-after, world-after};

    ghost nothing_done = { came-refl };

    ghost nothing_before = { came-before };

    ghost nothing_after = { came-after };

    ghost world_after = { world-after };
}
