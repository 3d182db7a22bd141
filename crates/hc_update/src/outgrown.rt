//! Stores that aren't in place: the maps that have the field die, and others stand in their place.
ghost use Rattle.std.specs.Prelude.{◌≡◌, ◌<◌, true, false, Some, IfErr, IfOk, IsSomeAnd};
ghost use Rattle.hc_layout.specs.declared.words.GateWord.{GateWord};
ghost use Rattle.hc_heap.specs.Readings.{bits_in, gate_in};
ghost use Rattle.hc_heap.specs.States.{Goes};
ghost use Rattle.hc_tree.specs.Tree.{IsTree, gate_with};
ghost use Rattle.hc_tree.specs.Needs.{HasSpace, IsSpaceExact, build_need, own_need};
ghost use Rattle.hc_tree.specs.Growth.{IsUnmoved};
ghost use Rattle.hc_tree.specs.Walking.{IsDetail};
ghost use Rattle.hc_update.specs.Renewing.{HasGeneralised, IsGeneralised, IsGeneralisedAlone, generalise_need};

use crate::cutting::cut;
use hc_heap::{Heap, Pace, Space, gates_are_open, set_is_kept, unused_says_nothing};
use hc_links::links_are_kept;
use hc_tree::{
    Wanted, build, deprecate, exchange_field, has_space, maps_are_kept, of_build, of_own,
};
use hc_value::Detail;

/// A map with the keys of a live one, whose i-th field is to admit a detail too. Of a shared map the one that owns the field is
/// deprecated with all maps under it, and from its parent on new maps are made. A private map is deprecated alone, and a new one
/// is made, which has its fields but for the i-th.
pub fn generalise<P: Pace>(h: &mut Heap<P>, map: u32, i: u32, detail: Detail) -> Result<u32, Space>
    requires tree { IsTree h.old.view.trail }
    requires entry { IsSomeAnd (gate_in h.old.view.trail map) (λ g. i < g.entries) }
    requires live { (bits_in h.old.view.trail map).deprecated ≡ false }
    requires detail { IsDetail h.old.view.shape h.old.view.trail detail }
    ensures made { IfOk result (λ c. (g : GateWord) → gate_in h.old.view.trail map ≡ Some g → HasGeneralised g.is_private h.old.view h.new.view map g.entries i c detail) }
    ensures space { (g : GateWord) → gate_in h.old.view.trail map ≡ Some g → IsSpaceExact h.old.view (generalise_need g i) result }
    ensures still { IfErr result (λ e. IsUnmoved h.old h.new) }
    ensures goes { Goes h.old.desk h.new.desk }
    ensures went { P.went h.old.pace h.old.desk.trail h.new.desk.trail h.new.pace }
{
    h.stands();
    let gate = h.gate(map).unwrap();
    if gate.is_private {
        generalise_private(h, map, gate.entries, i, detail)
    } else {
        generalise_shared(h, map, gate.entries, i, detail)
    }
}

// Generalises a shared map.
fn generalise_shared<P: Pace>(
    h: &mut Heap<P>,
    map: u32,
    n: u32,
    i: u32,
    detail: Detail,
) -> Result<u32, Space>
    requires tree { IsTree h.old.view.trail }
    requires map { gate_in h.old.view.trail map ≡ Some (gate_with n false) }
    requires live { (bits_in h.old.view.trail map).deprecated ≡ false }
    requires entry { i < n }
    requires detail { IsDetail h.old.view.shape h.old.view.trail detail }
    ensures made { IfOk result (λ c. IsGeneralised h.old.view h.new.view map n i c detail) }
    ensures space { IsSpaceExact h.old.view (build_need i n) result }
    ensures still { IfErr result (λ e. IsUnmoved h.old h.new) }
    ensures goes { Goes h.old.desk h.new.desk }
    ensures went { P.went h.old.pace h.old.desk.trail h.new.desk.trail h.new.pace }
{
    maps_are_kept();
    gates_are_open();
    links_are_kept();
    set_is_kept();
    unused_says_nothing();
    h.stands();
    if !has_space(h, of_build(i, n)) {
        return Err(Space);
    }
    let base = cut(h, map, n, i);
    Ok(build(h, base, map, i, n, Wanted::With(detail)))
}

// Generalises a private map.
fn generalise_private<P: Pace>(
    h: &mut Heap<P>,
    map: u32,
    n: u32,
    i: u32,
    detail: Detail,
) -> Result<u32, Space>
    requires tree { IsTree h.old.view.trail }
    requires map { gate_in h.old.view.trail map ≡ Some (gate_with n true) }
    requires entry { i < n }
    requires detail { IsDetail h.old.view.shape h.old.view.trail detail }
    ensures made { IfOk result (λ c. IsGeneralisedAlone h.old.view h.new.view map n i c detail) }
    ensures space { IsSpaceExact h.old.view (own_need n) result }
    ensures still { IfErr result (λ e. IsUnmoved h.old h.new) }
    ensures goes { Goes h.old.desk h.new.desk }
    ensures went { P.went h.old.pace h.old.desk.trail h.new.desk.trail h.new.pace }
{
    gates_are_open();
    h.stands();
    if !has_space(h, of_own(n)) {
        return Err(Space);
    }
    Ok(replace(h, map, n, i, detail))
}

// Makes a private map in the place of one that dies, for which there is room.
fn replace<P: Pace>(h: &mut Heap<P>, map: u32, n: u32, i: u32, detail: Detail) -> u32
    requires tree { IsTree h.old.view.trail }
    requires map { gate_in h.old.view.trail map ≡ Some (gate_with n true) }
    requires entry { i < n }
    requires detail { IsDetail h.old.view.shape h.old.view.trail detail }
    requires space { HasSpace h.old.view (own_need n) }
    ensures made { IsGeneralisedAlone h.old.view h.new.view map n i result detail }
    ensures goes { Goes h.old.desk h.new.desk }
    ensures went { P.went h.old.pace h.old.desk.trail h.new.desk.trail h.new.pace }
{
    maps_are_kept();
    unused_says_nothing();
    h.stands();
    deprecate(h, map);
    exchange_field(h, map, n, i, detail)
}
