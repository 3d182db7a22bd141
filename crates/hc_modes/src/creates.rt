//! Objects without properties, with a prototype or null.
ghost use Rattle.std.specs.Prelude.{◌≡◌, ◌<◌, ◌↔◌, false, Some, length, IfOk, IsErrOf, OnOk, OnErr};
ghost use Rattle.hc_layout.specs.declared.shape.Region.TheVariants.{Objects as ObjectItems};
ghost use Rattle.hc_value.specs.declared.reply.Cause.TheVariants.{Space};
ghost use Rattle.hc_heap.specs.Readings.{root_in};
ghost use Rattle.hc_heap.specs.States.{HasRoom};
ghost use Rattle.hc_tree.specs.Growth.{MayBePrototype};
ghost use Rattle.hc_table.specs.Changes.{Created, IsThere};
ghost use Rattle.hc_table.specs.World.{new_object, object};
ghost use Rattle.hc_modes.specs.Came.{Came, IsStill, Moves, world_of};
ghost use Rattle.hc_modes.specs.Creating.{IsBegun, IsEntered};
ghost use Rattle.hc_modes.specs.Meaning.{cause_in};

use crate::objects::Objects;
use hc_dict::{Dict, Dictionary};
use hc_facts::{constants_stay_on, honest_after, kept_is_carried};
use hc_heap::{Pace, details_rise, forms_are_kept, unused_says_nothing};
use hc_layout::Region;
use hc_table::{TableFault, changes_keep};
use hc_tree::{maps_are_kept, root, trees_stay};
use hc_value::{Cause, Memory};

impl<P: Pace> Objects<P> {
    // Makes a slow object without properties. For want of memory alone nothing is done.
    fn create_slow(&mut self, proto: Option<u32>) -> Result<u32, Memory>
        requires room { HasRoom self.old.heap.view ObjectItems 1 }
        requires there { IsThere (world_of self.old) proto }
        ensures begun { IfOk result (λ o. IsBegun P.went self.old proto o self.new) }
        ensures still { OnErr result (self.new ≡ self.old) }
    {
        maps_are_kept();
        details_rise();
        unused_says_nothing();
        changes_keep();
        let item = Some(Dictionary {
            cause: Cause::Space,
            proto,
            extensible: true,
            props: Dict::new(self.alloc),
        });
        let Ok(()) = self.kept.push(item) else {
            return Err(Memory);
        };
        Ok(self.heap.fresh(Region::Objects, 1))
    }

    // Has a new object be fast, where there is room for the root of its prototype.
    fn enter_root(&mut self, o: u32, proto: Option<u32>)
        requires object { o < length (world_of self.old) }
        requires value { object (world_of self.old) o ≡ new_object proto }
        requires slow { cause_in self.old.kept o ≡ Some Space }
        requires shared { (root_in self.old.heap.view.trail o).is_proto ≡ false }
        requires proto { MayBePrototype self.old.heap.view.used self.old.heap.view.trail proto }
        ensures entered { IsEntered P.went self.old o proto self.new }
    {
        maps_are_kept();
        details_rise();
        trees_stay();
        unused_says_nothing();
        forms_are_kept();
        honest_after();
        kept_is_carried();
        let Ok(root) = root(&mut self.heap, proto, &mut self.of_null) else {
            return;
        };
        self.heap.set_object_map(o, Some(root));
        self.kept[o as usize] = None;
    }

    // Makes an object without properties. All memory is taken first; then the prototype becomes one, and the object is
    // fast where there is room for the root of its prototype.
    pub fn create(&mut self, proto: Option<u32>) -> Result<u32, TableFault>
        requires { IsThere (world_of self.old) proto }
        ensures number { IfOk result (λ o. o ≡ length (world_of self.old)) }
        ensures did { OnOk result (Came P.went self.old (Created proto) self.new) }
        ensures full { IsErrOf result TableFault.Full ↔ (length (world_of self.old) ≡ self.old.heap.view.shape.objects) }
        ensures still { OnErr result (IsStill self.old self.new) }
        ensures moved { IsErrOf result TableFault.Memory → Moves P.went self.old self.new }
    {
        unused_says_nothing();
        constants_stay_on();
        if !self.heap.room(Region::Objects, 1) {
            return Err(TableFault::Full);
        }
        let Ok(spare) = self.spare_of(proto) else {
            return Err(TableFault::Memory);
        };
        let Ok(object) = self.create_slow(proto) else {
            return Err(TableFault::Memory);
        };
        self.settle_named(proto, spare);
        self.stands();
        self.enter_root(object, proto);
        Ok(object)
    }
}
