ghost use Rattle.std.specs.Prelude.{◌≡◌, ◌<◌, ℕ, Some, IfSome, length, option_map, slice_get};
ghost use Rattle.hc_table.specs.Attributes.{IsProper};
ghost use Rattle.hc_table.specs.Changes.{Nothing, IsThere, reaches};
ghost use Rattle.hc_table.specs.World.{props_at, place_of};
ghost use Rattle.hc_ops.specs.Found.{found_in};
ghost use Rattle.hc_ops.specs.Nearest.{nearest as nearest_in};
ghost use Rattle.hc_ops.specs.Spots.{nearest_of};

use hc_table::Tables;
use hc_value::Prop;

/// An own property, and its place.
#[derive(Clone, Copy, Debug)]
pub struct Found {
    pub place: u32,
    pub property: Prop,
}

/// The nearest property of a name, the object that holds it, and its place there.
#[derive(Clone, Copy, Debug)]
pub struct Spot {
    pub holder: u32,
    pub place: u32,
    pub property: Prop,
}

/// An object's own property of a name, with its place.
pub fn own_property<T: Tables>(t: &mut T, o: u32, name: u32) -> Option<Found>
    requires { o < length (T.world t.old) }
    ensures found { result ≡ found_in (props_at (T.world t.old) o) name }
    ensures place { option_map (λ f. f.place) result ≡ place_of (props_at (T.world t.old) o) name }
    ensures at { IfSome result (λ f. slice_get (props_at (T.world t.old) o) f.place ≡ Some f.property) }
    ensures proper { IfSome result (λ f. IsProper f.property) }
    ensures same { T.world t.new ≡ T.world t.old }
    ensures same_limit { T.limit t.new ≡ T.limit t.old }
    ensures still { T.came t.old Nothing t.new }
{
    let place = t.find_own(o, name)?;
    let property = t.prop_at(o, place);
    Some(Found { place, property })
}

/// The nearest property of a name: the first on the object and then along its prototypes.
pub fn nearest<T: Tables>(t: &mut T, o: u32, name: u32) -> Option<Spot>
    requires { o < length (T.world t.old) }
    ensures nearest { option_map nearest_of result ≡ nearest_in (T.world t.old) o name }
    ensures there { IfSome result (λ s. s.holder < length (T.world t.old)) }
    ensures place { IfSome result (λ s. place_of (props_at (T.world t.old) s.holder) name ≡ Some s.place) }
    ensures at { IfSome result (λ s. slice_get (props_at (T.world t.old) s.holder) s.place ≡ Some s.property) }
    ensures same { T.world t.new ≡ T.world t.old }
    ensures same_limit { T.limit t.new ≡ T.limit t.old }
    ensures still { T.came t.old Nothing t.new }
{
    let mut at = Some(o);
    while let Some(holder) = at {
        if let Some(own) = own_property(t, holder, name) {
            return Some(Spot {
                holder,
                place: own.place,
                property: own.property,
            });
        }
        at = t.proto(holder);
    }
    None
}

/// Whether the chain that begins with a prototype comes to an object.
pub fn comes_to<T: Tables>(t: &mut T, proto: Option<u32>, o: u32) -> bool
    requires { IsThere (T.world t.old) proto }
    ensures reaches { result ≡ reaches (T.world t.old) proto o }
    ensures same { T.world t.new ≡ T.world t.old }
    ensures same_limit { T.limit t.new ≡ T.limit t.old }
    ensures still { T.came t.old Nothing t.new }
{
    let mut at = proto;
    while let Some(q) = at {
        let next = t.proto(q);
        if q == o {
            return true;
        }
        at = next;
    }
    false
}
