//! Which receivers and values a case admits.
ghost use Rattle.std.specs.Prelude.{◌≡◌, ◌↔◌, ◌<◌, IsTrue, ⊤, None, Some};
ghost use Rattle.std.specs.Option.{ForSome};
ghost use Rattle.hc_layout.specs.Shape.{IsShape};
ghost use Rattle.hc_layout.specs.declared.capacity.TheConstants.{MAX_FAST};
ghost use Rattle.hc_value.specs.Field.{joined_class, rep_of, join_of};
ghost use Rattle.hc_deps.specs.Looks.{MadeLooks};
ghost use Rattle.hc_apply.specs.Admits.{class_by, class_on, AdmitsValue, HasSlot, AdmitsAdd, AdmitsBy, IsPlaceOf};
ghost use Rattle.hc_apply.specs.Answers.{value_looks};

use hc_board::Look;
use hc_broker::Peek;
use hc_deps::map_of;
use hc_layout::{MAX_FAST, MapBits, cap};
use hc_plan::Way;
use hc_value::{Class, Rep, Value, join, rep_of};

/// Whether a way that adds a property gives it a place that a fast object may have.
pub fn is_place(way: Way) -> bool
    ensures { IsTrue result ↔ IsPlaceOf way }
{
    match way {
        Way::Add { slot, .. } => slot < MAX_FAST,
        _ => true,
    }
}

// The class of the objects of a map with these bits.
fn class_by(map: u32, bits: Option<MapBits>) -> Class
    ensures { result ≡ class_by map bits }
{
    let Some(bits) = bits else {
        return Class::Any;
    };
    if bits.unstable {
        Class::Any
    } else {
        Class::Of(map)
    }
}

// The class of a value.
fn class_of<L: Look>(peek: &mut Peek<'_, L>, value: &Value) -> Class
    requires fits { IsShape peek.old.shape }
    ensures class { ForSome (L.image peek.old.look.now)
        (λ words. result ≡ class_on peek.old.shape words value.now) }
    ensures looks { MadeLooks L.image L.looked 0 2 peek.old.look.now peek.new.look.now }
    ensures same_reference { peek.new.look.ghost_name ≡ peek.old.look.ghost_name }
    ensures shape { peek.new.shape ≡ peek.old.shape }
{
    let Value::Obj(object) = *value else {
        return Class::Any;
    };
    let Some(map) = map_of(peek, object) else {
        return Class::Any;
    };
    let bits = peek.bits(map);
    class_by(map, bits)
}

// Whether a value's class leaves that of a field as it is.
fn fits_class<L: Look>(peek: &mut Peek<'_, L>, class: Class, value: &Value) -> bool
    requires fits { IsShape peek.old.shape }
    ensures answer { ForSome (L.image peek.old.look.now)
        (λ words. IsTrue result ↔
        (joined_class class (class_on peek.old.shape words value.now) ≡ class)) }
    ensures looks { MadeLooks L.image L.looked 0 2 peek.old.look.now peek.new.look.now }
    ensures same_reference { peek.new.look.ghost_name ≡ peek.old.look.ghost_name }
    ensures shape { peek.new.shape ≡ peek.old.shape }
{
    match class {
        Class::Any => true,
        Class::Of(_) => class_of(peek, value) == class,
    }
}

// Whether a field of this representation and class admits a value.
fn admits_value<L: Look>(peek: &mut Peek<'_, L>, rep: Rep, class: Class, value: &Value) -> bool
    requires fits { IsShape peek.old.shape }
    ensures answer { ForSome (L.image peek.old.look.now)
        (λ words. IsTrue result ↔ AdmitsValue peek.old.shape words rep class value.now) }
    ensures looks { MadeLooks L.image L.looked 0 2 peek.old.look.now peek.new.look.now }
    ensures same_reference { peek.new.look.ghost_name ≡ peek.old.look.ghost_name }
    ensures shape { peek.new.shape ≡ peek.old.shape }
{
    if join(rep_of(*value), rep) != rep {
        return false;
    }
    fits_class(peek, class, value)
}

// Whether an object has a slot, or there is room for more slots.
fn has_slot<L: Look>(peek: &mut Peek<'_, L>, room: u32, object: u32, slot: u32) -> bool
    requires fits { IsShape peek.old.shape }
    requires place { slot < MAX_FAST }
    ensures answer { ForSome (L.image peek.old.look.now)
        (λ words. IsTrue result ↔ HasSlot peek.old.shape words room object slot) }
    ensures looks { MadeLooks L.image L.looked 1 1 peek.old.look.now peek.new.look.now }
    ensures same_reference { peek.new.look.ghost_name ≡ peek.old.look.ghost_name }
    ensures shape { peek.new.shape ≡ peek.old.shape }
{
    let Some(store) = peek.store(object) else {
        return false;
    };
    slot < store.capacity || cap(slot + 1) <= room
}

// Whether a store that adds a property is admitted.
fn admits_add<L: Look>(
    peek: &mut Peek<'_, L>,
    room: u32,
    object: u32,
    slot: u32,
    rep: Rep,
    class: Class,
    value: &Value,
) -> bool
    requires fits { IsShape peek.old.shape }
    requires place { slot < MAX_FAST }
    ensures answer { ForSome (L.image peek.old.look.now)
        (λ words. IsTrue result ↔
        AdmitsAdd peek.old.shape words room object slot rep class value.now) }
    ensures looks { MadeLooks L.image L.looked 0 3 peek.old.look.now peek.new.look.now }
    ensures same_reference { peek.new.look.ghost_name ≡ peek.old.look.ghost_name }
    ensures shape { peek.new.shape ≡ peek.old.shape }
{
    if !admits_value(peek, rep, class, value) {
        return false;
    }
    has_slot(peek, room, object, slot)
}

// Whether a way admits a value.
fn admits_store<L: Look>(
    peek: &mut Peek<'_, L>,
    room: u32,
    object: u32,
    value: &Value,
    way: Way,
) -> bool
    requires fits { IsShape peek.old.shape }
    requires place { IsPlaceOf way }
    ensures answer { ForSome (L.image peek.old.look.now)
        (λ words. IsTrue result ↔ AdmitsBy peek.old.shape words room object (Some value.now) way) }
    ensures looks { MadeLooks L.image L.looked 0 3 peek.old.look.now peek.new.look.now }
    ensures same_reference { peek.new.look.ghost_name ≡ peek.old.look.ghost_name }
    ensures shape { peek.new.shape ≡ peek.old.shape }
{
    match way {
        Way::StoreOwn { rep, class, .. } => admits_value(peek, rep, class, value),
        Way::Add {
            slot,
            rep,
            class,
            ..
        } => admits_add(peek, room, object, slot, rep, class, value),
        _ => true,
    }
}

// Whether a way admits an access without a value, which no store to a field is.
fn admits_none(way: Way) -> bool
    ensures { (s : _) (words : _) (room object : _) →
        IsTrue result ↔ AdmitsBy s words room object None way }
{
    match way {
        Way::StoreOwn { .. } => false,
        Way::Add { .. } => false,
        _ => true,
    }
}

/// Whether a way admits the value of an access, if it has one.
pub(crate) fn admits<L: Look>(
    peek: &mut Peek<'_, L>,
    room: u32,
    object: u32,
    value: &Option<Value>,
    way: Way,
) -> bool
    requires fits { IsShape peek.old.shape }
    requires place { IsPlaceOf way }
    ensures answer { ForSome (L.image peek.old.look.now)
        (λ words. IsTrue result ↔ AdmitsBy peek.old.shape words room object value.now way) }
    ensures looks { MadeLooks L.image L.looked 0 (value_looks value.now)
        peek.old.look.now peek.new.look.now }
    ensures same_reference { peek.new.look.ghost_name ≡ peek.old.look.ghost_name }
    ensures shape { peek.new.shape ≡ peek.old.shape }
{
    match value {
        Some(value) => admits_store(peek, room, object, value, way),
        None => admits_none(way),
    }
}
