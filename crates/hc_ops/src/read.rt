ghost use Rattle.std.specs.Prelude.{◌≡◌, ◌<◌, IfOk, length};
ghost use Rattle.hc_table.specs.Changes.{Nothing};
ghost use Rattle.hc_ops.specs.Found.{own_reply};
ghost use Rattle.hc_ops.specs.Get.{get_reply, read_of};
ghost use Rattle.hc_ops.specs.Has.{has_reply};
ghost use Rattle.hc_ops.specs.Keys.{keys_reply};

use crate::walk::{nearest, own_property};
use hc_table::Tables;
use hc_value::{Held, Memory, Names32, Prop, Reply, Value};
use std::alloc::Global;

/// What reading a property gives (ECMA-262, 10.1.8.1).
pub fn get<T: Tables>(t: &mut T, o: u32, name: u32) -> Reply
    requires { o < length (T.world t.old) }
    ensures reply { result ≡ get_reply (T.world t.old) o name }
    ensures same { T.world t.new ≡ T.world t.old }
    ensures same_limit { T.limit t.new ≡ T.limit t.old }
    ensures still { T.came t.old Nothing t.new }
{
    let Some(spot) = nearest(t, o, name) else {
        return Reply::Val(Value::Undefined);
    };
    read_held(o, spot.property.held)
}

/// What reading what a property holds gives, where an object was asked.
pub fn read_held(o: u32, held: Held) -> Reply
    ensures { result ≡ read_of o held }
{
    match held {
        Held::Datum(value) => Reply::Val(value),
        Held::Pair(Some(getter), _) => Reply::Call(getter, o),
        Held::Pair(None, _) => Reply::Val(Value::Undefined),
    }
}

/// Whether an object or one of its prototypes has a property (ECMA-262, 10.1.7.1).
pub fn has<T: Tables>(t: &mut T, o: u32, name: u32) -> Reply
    requires { o < length (T.world t.old) }
    ensures reply { result ≡ has_reply (T.world t.old) o name }
    ensures same { T.world t.new ≡ T.world t.old }
    ensures same_limit { T.limit t.new ≡ T.limit t.old }
    ensures still { T.came t.old Nothing t.new }
{
    let Some(_spot) = nearest(t, o, name) else {
        return Reply::Flag(false);
    };
    Reply::Flag(true)
}

/// An object's own property of a name (ECMA-262, 10.1.5.1).
pub fn own<T: Tables>(t: &mut T, o: u32, name: u32) -> Reply
    requires { o < length (T.world t.old) }
    ensures reply { result ≡ own_reply (T.world t.old) o name }
    ensures same { T.world t.new ≡ T.world t.old }
    ensures same_limit { T.limit t.new ≡ T.limit t.old }
    ensures still { T.came t.old Nothing t.new }
{
    let Some(found) = own_property(t, o, name) else {
        return Reply::Property(None);
    };
    let Prop { name, attrs, held } = found.property;
    Reply::Property(Some(Prop { name, attrs, held }))
}

/// The names of an object's own properties, in order (ECMA-262, 10.1.11.1).
pub fn keys<T: Tables>(t: &mut T, o: u32, alloc: Global) -> Result<Reply, Memory>
    requires { o < length (T.world t.old) }
    ensures reply { IfOk result (λ reply. reply ≡ keys_reply (T.world t.old) o) }
    ensures same { T.world t.new ≡ T.world t.old }
    ensures same_limit { T.limit t.new ≡ T.limit t.old }
    ensures still { T.came t.old Nothing t.new }
{
    let len = t.len(o);
    let mut names = Vec::new(alloc);
    for i in 0..len {
        let p = t.prop_at(o, i);
        names.push(p.name)?;
    }
    Ok(Reply::NameList(Names32::from_vec(names)))
}
