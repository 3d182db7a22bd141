ghost use Rattle.std.specs.Prelude.{◌≡◌, ◌+◌, ◌*◌, ◌<◌, IsTrue, length, IfSome};
ghost use Rattle.hc_layout.specs.declared.shape.Region.TheVariants.{Links};
ghost use Rattle.hc_heap.specs.Readings.{bits_in};
ghost use Rattle.hc_heap.specs.Lawful.{IsChildBy, IsKey};
ghost use Rattle.hc_heap.specs.States.{IsHeap, Goes, HasRoom, OnlyLoads};
ghost use Rattle.hc_links.specs.Chains.{child_of, is_key, links_in, linked, next_of};
ghost use Rattle.hc_links.specs.Laws.{IsLinked};

use crate::laws::{children_are_open, heads_are_there, linked_is_newest, links_are_chained};
use hc_heap::{Heap, Pace, unused_says_nothing};
use hc_layout::Region;
use hc_value::Key;

/// The newest child of a map for a key.
pub fn child<P: Pace>(h: &mut Heap<P>, map: u32, key: Key) -> Option<u32>
    ensures child { result ≡ child_of h.old.view.trail map key }
    ensures open { IfSome result (λ c. IsChildBy h.old.view.trail map c key) }
    ensures same { h.new ≡ record h.old { desk = h.new.desk } }
    ensures loads { OnlyLoads (2 * length (links_in h.old.view.trail map) + 1) h.old.desk h.new.desk }
    ensures goes { Goes h.old.desk h.new.desk }
    ensures went { P.went h.old.pace h.old.desk.trail h.new.desk.trail h.new.pace }
{
    h.stands();
    links_are_chained();
    children_are_open();
    let mut at = h.head(map);
    while let Some(link) = at {
        if is_key(h.link_key(link), key) {
            return h.link_child(link);
        }
        at = next_of(h.link_next(link));
    }
    None
}

// Whether a key that is written is this one.
fn is_key(written: Option<Key>, key: Key) -> bool
    ensures { result ≡ is_key written key }
{
    written == Some(key)
}

// The link after a link, if there is one.
fn next_of(written: Option<Option<u32>>) -> Option<u32>
    ensures { result ≡ next_of written }
{
    written?
}

/// Writes a link to a child, and puts it before the links of an unstable map.
pub fn link<P: Pace>(h: &mut Heap<P>, map: u32, key: Key, child: u32)
    requires handed { map < h.old.view.used.maps }
    requires room { HasRoom h.old.view Links 1 }
    requires key { IsKey key }
    requires unstable { IsTrue (bits_in h.old.view.trail map).unstable }
    requires child { IsChildBy h.old.view.trail map child key }
    ensures trail { h.new.view.trail ≡ linked h.old.view.trail map h.old.view.used.links key child }
    ensures linked { IsLinked h.old.view.trail h.new.view.trail map h.old.view.used.links key child }
    ensures used { h.new.view.used ≡ record h.old.view.used { links = h.old.view.used.links + 1 } }
    ensures shape { h.new.view.shape ≡ h.old.view.shape }
    ensures heap { IsHeap h.new.view }
    ensures goes { Goes h.old.desk h.new.desk }
    ensures went { P.went h.old.pace h.old.desk.trail h.new.desk.trail h.new.pace }
{
    h.stands();
    unused_says_nothing();
    heads_are_there();
    linked_is_newest();
    let link = h.fresh(Region::Links, 1);
    h.set_link_key(link, key);
    h.set_link_child(link, child);
    let head = h.head(map);
    h.set_link_next(link, head);
    h.set_head(map, Some(link));
}
