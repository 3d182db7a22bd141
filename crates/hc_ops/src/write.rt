ghost use Rattle.std.specs.Prelude.{◌≡◌, ◌<◌, ℕ, true, None, Some, length, slice_get, IfOk, OnOk, OnErr};
ghost use Rattle.hc_table.specs.Attributes.{is_datum};
ghost use Rattle.hc_table.specs.Changes.{Moved, after};
ghost use Rattle.hc_table.specs.Numbers.{IsNameNumber};
ghost use Rattle.hc_table.specs.World.{props_at, place_of};
ghost use Rattle.hc_value.specs.Word.{IsInRange};
ghost use Rattle.hc_ops.specs.Set.{set_act, create_act, nearest_act};

use crate::walk::{Spot, nearest};
use bitflags::Flags;
use hc_table::{Tables, read_only};
use hc_value::{Attrs, Held, Memory, Prop, Reply, Value};

/// What writing a property does (ECMA-262, 10.1.9.2).
pub fn set<T: Tables>(t: &mut T, o: u32, name: u32, value: Value) -> Result<Reply, Memory>
    requires object { o < length (T.world t.old) }
    requires name { IsNameNumber name }
    requires range { IsInRange value }
    ensures reply { IfOk result (λ reply. reply ≡ (set_act (T.world t.old) o name value).reply) }
    ensures world { OnOk result (T.world t.new ≡ after (set_act (T.world t.old) o name value).did (T.world t.old)) }
    ensures did { OnOk result (T.came t.old (set_act (T.world t.old) o name value).did t.new) }
    ensures err { OnErr result (T.world t.new ≡ T.world t.old) }
    ensures moved { OnErr result (T.came t.old Moved t.new) }
    ensures same_limit { T.limit t.new ≡ T.limit t.old }
{
    let Some(spot) = nearest(t, o, name) else {
        return create(t, o, name, value);
    };
    match spot.property.held {
        Held::Pair(_, Some(setter)) => Ok(Reply::CallWith(setter, o, value)),
        Held::Pair(_, None) => Ok(Reply::Flag(false)),
        Held::Datum(_) => set_datum(t, o, name, value, &spot),
    }
}

// Gives an extensible object a property that it lacks.
fn create<T: Tables>(t: &mut T, o: u32, name: u32, value: Value) -> Result<Reply, Memory>
    requires object { o < length (T.world t.old) }
    requires name { IsNameNumber name }
    requires range { IsInRange value }
    requires absent { place_of (props_at (T.world t.old) o) name ≡ None }
    ensures reply { IfOk result (λ reply. reply ≡ (create_act (T.world t.old) o name value).reply) }
    ensures world { OnOk result (T.world t.new ≡ after (create_act (T.world t.old) o name value).did (T.world t.old)) }
    ensures did { OnOk result (T.came t.old (create_act (T.world t.old) o name value).did t.new) }
    ensures err { OnErr result (T.world t.new ≡ T.world t.old) }
    ensures moved { OnErr result (T.came t.old Moved t.new) }
    ensures same_limit { T.limit t.new ≡ T.limit t.old }
{
    if !t.extensible(o) {
        return Ok(Reply::Flag(false));
    }
    t.add(
        o,
        Prop {
            name,
            attrs: Attrs::empty(),
            held: Held::Datum(value),
        },
    )?;
    Ok(Reply::Flag(true))
}

// Writes where the nearest property holds a value: an own one gets the new value, and one of a prototype is hidden.
fn set_datum<T: Tables>(
    t: &mut T,
    o: u32,
    name: u32,
    value: Value,
    spot: &Spot,
) -> Result<Reply, Memory>
    requires object { o < length (T.world t.old) }
    requires name { IsNameNumber name }
    requires range { IsInRange value }
    requires holder { spot.now.holder < length (T.world t.old) }
    requires place { place_of (props_at (T.world t.old) spot.now.holder) name ≡ Some spot.now.place }
    requires at { slice_get (props_at (T.world t.old) spot.now.holder) spot.now.place ≡ Some spot.now.property }
    requires datum { is_datum spot.now.property.held ≡ true }
    requires others { (spot.now.holder ≡ o → ⊥) → place_of (props_at (T.world t.old) o) name ≡ None }
    ensures reply { IfOk result (λ reply. reply
        ≡ (nearest_act (T.world t.old) o name value spot.now.holder spot.now.property.attrs spot.now.property.held).reply) }
    ensures world { OnOk result (T.world t.new
        ≡ after (nearest_act (T.world t.old) o name value spot.now.holder spot.now.property.attrs spot.now.property.held).did (T.world t.old)) }
    ensures did { OnOk result (T.came t.old
        (nearest_act (T.world t.old) o name value spot.now.holder spot.now.property.attrs spot.now.property.held).did t.new) }
    ensures err { OnErr result (T.world t.new ≡ T.world t.old) }
    ensures moved { OnErr result (T.came t.old Moved t.new) }
    ensures same_limit { T.limit t.new ≡ T.limit t.old }
{
    if read_only(spot.property.attrs) {
        return Ok(Reply::Flag(false));
    }
    if spot.holder == o {
        t.write(o, spot.place, Held::Datum(value))?;
        return Ok(Reply::Flag(true));
    }
    create(t, o, name, value)
}
