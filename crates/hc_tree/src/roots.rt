ghost use Rattle.std.specs.Prelude.{◌≡◌, ◌+◌, ◌<◌, ℕ, Option, IsTrue, None, Some, Ok, IfOk, IfSome};
ghost use Rattle.hc_layout.specs.declared.shape.Region.TheVariants.{Maps};
ghost use Rattle.hc_heap.specs.Readings.{root_in};
ghost use Rattle.hc_heap.specs.States.{IsHeap, Goes, HasRoom};
ghost use Rattle.hc_tree.specs.Tree.{IsRoot, IsTree};
ghost use Rattle.hc_tree.specs.Needs.{IsSpaceExact, used_after};
ghost use Rattle.hc_tree.specs.Growth.{MayBePrototype, IsStill, IsUnmoved, root_of, root_need, with_root, with_named_root, of_null_after};

use crate::laws::maps_are_kept;
use crate::need::{has_space, of_root};
use hc_heap::{Heap, Pace, Space, forms_are_kept, unused_says_nothing};
use hc_layout::{GateWord, Region, RootWord};
use hc_links::links_are_chained;

/// The root of the maps that have a prototype, or of those that have null; it is made where there is none.
pub fn root<P: Pace>(
    h: &mut Heap<P>,
    proto: Option<u32>,
    of_null: &mut Option<u32>,
) -> Result<u32, Space>
    requires tree { IsTree h.old.view.trail }
    requires null { IfSome of_null.old (λ r. IsRoot h.old.view.trail None r) }
    requires proto { MayBePrototype h.old.view.used h.old.view.trail proto }
    ensures root { IfOk result (λ r. IsRoot h.new.view.trail proto r) }
    ensures found { (r : ℕ) → root_of h.old.view.trail proto of_null.old ≡ Some r → result ≡ Ok r }
    ensures space { IsSpaceExact h.old.view (root_need (root_of h.old.view.trail proto of_null.old)) result }
    ensures used { h.new.view.used ≡ used_after result (root_need (root_of h.old.view.trail proto of_null.old)) h.old.view.used }
    ensures still { IsStill (root_of h.old.view.trail proto of_null.old) result → IsUnmoved h.old h.new }
    ensures null_still { IsStill (root_of h.old.view.trail proto of_null.old) result → of_null.new ≡ of_null.old }
    ensures number { IfOk result (λ r. root_of h.old.view.trail proto of_null.old ≡ None → r ≡ h.old.view.used.maps) }
    ensures made { IfOk result (λ r. root_of h.old.view.trail proto of_null.old ≡ None → h.new.view.trail ≡ with_named_root h.old.view.trail proto r) }
    ensures null { IfOk result (λ r. root_of h.old.view.trail proto of_null.old ≡ None → of_null.new ≡ of_null_after proto of_null.old r) }
    ensures null_root { IfSome of_null.new (λ r. IsRoot h.new.view.trail None r) }
    ensures shape { h.new.view.shape ≡ h.old.view.shape }
    ensures tree { IsTree h.new.view.trail }
    ensures heap { IsHeap h.new.view }
    ensures goes { Goes h.old.desk h.new.desk }
    ensures went { P.went h.old.pace h.old.desk.trail h.new.desk.trail h.new.pace }
{
    match proto {
        Some(object) => root_of_object(h, object),
        None => root_of_null(h, of_null),
    }
}

/// The root that the maps with a prototype, or null, have so far.
pub fn known_root<P: Pace>(h: &mut Heap<P>, proto: Option<u32>, of_null: Option<u32>) -> Option<u32>
    ensures value { result ≡ root_of h.old.view.trail proto of_null }
    ensures still { IsUnmoved h.old h.new }
    ensures goes { Goes h.old.desk h.new.desk }
    ensures went { P.went h.old.pace h.old.desk.trail h.new.desk.trail h.new.pace }
{
    match proto {
        Some(object) => h.object_root(object).map,
        None => of_null,
    }
}

// The root of the maps that have an object as prototype.
fn root_of_object<P: Pace>(h: &mut Heap<P>, object: u32) -> Result<u32, Space>
    requires tree { IsTree h.old.view.trail }
    requires proto { MayBePrototype h.old.view.used h.old.view.trail (Some object) }
    ensures roots { (p : Option ℕ) (r : ℕ) → IsRoot h.old.view.trail p r → IsRoot h.new.view.trail p r }
    ensures root { IfOk result (λ r. IsRoot h.new.view.trail (Some object) r) }
    ensures found { (r : ℕ) → (root_in h.old.view.trail object).map ≡ Some r → result ≡ Ok r }
    ensures space { IsSpaceExact h.old.view (root_need (root_in h.old.view.trail object).map) result }
    ensures used { h.new.view.used ≡ used_after result (root_need (root_in h.old.view.trail object).map) h.old.view.used }
    ensures still { IsStill (root_in h.old.view.trail object).map result → IsUnmoved h.old h.new }
    ensures number { IfOk result (λ r. (root_in h.old.view.trail object).map ≡ None → r ≡ h.old.view.used.maps) }
    ensures made { IfOk result (λ r. (root_in h.old.view.trail object).map ≡ None → h.new.view.trail ≡ with_named_root h.old.view.trail (Some object) r) }
    ensures shape { h.new.view.shape ≡ h.old.view.shape }
    ensures tree { IsTree h.new.view.trail }
    ensures heap { IsHeap h.new.view }
    ensures goes { Goes h.old.desk h.new.desk }
    ensures went { P.went h.old.pace h.old.desk.trail h.new.desk.trail h.new.pace }
{
    maps_are_kept();
    h.stands();
    let word = h.object_root(object);
    if let Some(root) = word.map {
        return Ok(root);
    }
    if !has_space(h, of_root(None)) {
        return Err(Space);
    }
    let root = make_root(h, Some(object));
    h.set_object_root(
        object,
        RootWord {
            is_proto: word.is_proto,
            map: Some(root),
        },
    );
    Ok(root)
}

// The root of the maps that have no prototype.
fn root_of_null<P: Pace>(h: &mut Heap<P>, of_null: &mut Option<u32>) -> Result<u32, Space>
    requires tree { IsTree h.old.view.trail }
    requires null { IfSome of_null.old (λ r. IsRoot h.old.view.trail None r) }
    ensures root { IfOk result (λ r. IsRoot h.new.view.trail None r) }
    ensures found { (r : ℕ) → of_null.old ≡ Some r → result ≡ Ok r }
    ensures space { IsSpaceExact h.old.view (root_need of_null.old) result }
    ensures used { h.new.view.used ≡ used_after result (root_need of_null.old) h.old.view.used }
    ensures still { IsStill of_null.old result → IsUnmoved h.old h.new }
    ensures null_still { IsStill of_null.old result → of_null.new ≡ of_null.old }
    ensures number { IfOk result (λ r. of_null.old ≡ None → r ≡ h.old.view.used.maps) }
    ensures made { IfOk result (λ r. of_null.old ≡ None → h.new.view.trail ≡ with_root h.old.view.trail None r) }
    ensures null { IfOk result (λ r. of_null.old ≡ None → of_null.new ≡ Some r) }
    ensures shape { h.new.view.shape ≡ h.old.view.shape }
    ensures tree { IsTree h.new.view.trail }
    ensures heap { IsHeap h.new.view }
    ensures goes { Goes h.old.desk h.new.desk }
    ensures went { P.went h.old.pace h.old.desk.trail h.new.desk.trail h.new.pace }
{
    h.stands();
    if let Some(root) = *of_null {
        return Ok(root);
    }
    if !has_space(h, of_root(None)) {
        return Err(Space);
    }
    let root = make_root(h, None);
    *of_null = Some(root);
    Ok(root)
}

// Makes a map without an entry that is nobody's child.
fn make_root<P: Pace>(h: &mut Heap<P>, proto: Option<u32>) -> u32
    requires tree { IsTree h.old.view.trail }
    requires proto { MayBePrototype h.old.view.used h.old.view.trail proto }
    requires room { HasRoom h.old.view Maps 1 }
    ensures fresh { result ≡ h.old.view.used.maps }
    ensures view { h.new.view ≡ record h.old.view { trail = with_root h.old.view.trail proto result; used = record h.old.view.used { maps = h.old.view.used.maps + 1 } } }
    ensures root { IsRoot h.new.view.trail proto result }
    ensures tree { IsTree h.new.view.trail }
    ensures heap { IsHeap h.new.view }
    ensures goes { Goes h.old.desk h.new.desk }
    ensures went { P.went h.old.pace h.old.desk.trail h.new.desk.trail h.new.pace }
{
    maps_are_kept();
    links_are_chained();
    unused_says_nothing();
    h.stands();
    let root = h.fresh(Region::Maps, 1);
    h.set_parent(root, None);
    h.set_proto(root, proto);
    h.set_gate(
        root,
        GateWord {
            entries: 0,
            is_private: false,
            is_locked: false,
        },
    );
    root
}
