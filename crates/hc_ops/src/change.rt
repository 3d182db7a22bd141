ghost use Rattle.std.specs.Prelude.{◌≡◌, ◌<◌, length, IfOk, OnOk, OnErr};
ghost use Rattle.hc_table.specs.Changes.{Moved, IsThere, after};
ghost use Rattle.hc_ops.specs.Delete.{delete_act};
ghost use Rattle.hc_ops.specs.Integrity.{same_proto as are_same, set_proto_act, lock_act, seal_act, freeze_act};

use crate::walk::{comes_to, own_property};
use hc_table::{Tables, dont_delete};
use hc_value::{Memory, Reply};

/// What deleting a property does (ECMA-262, 10.1.10.1).
pub fn delete<T: Tables>(t: &mut T, o: u32, name: u32) -> Result<Reply, Memory>
    requires { o < length (T.world t.old) }
    ensures reply { IfOk result (λ reply. reply ≡ (delete_act (T.world t.old) o name).reply) }
    ensures world { OnOk result (T.world t.new ≡ after (delete_act (T.world t.old) o name).did (T.world t.old)) }
    ensures did { OnOk result (T.came t.old (delete_act (T.world t.old) o name).did t.new) }
    ensures err { OnErr result (T.world t.new ≡ T.world t.old) }
    ensures moved { OnErr result (T.came t.old Moved t.new) }
    ensures same_limit { T.limit t.new ≡ T.limit t.old }
{
    let Some(own) = own_property(t, o, name) else {
        return Ok(Reply::Flag(true));
    };
    if dont_delete(own.property.attrs) {
        return Ok(Reply::Flag(false));
    }
    t.remove(o, own.place)?;
    Ok(Reply::Flag(true))
}

/// What changing the prototype does (ECMA-262, 10.1.2.1).
pub fn set_proto<T: Tables>(t: &mut T, o: u32, proto: Option<u32>) -> Result<Reply, Memory>
    requires object { o < length (T.world t.old) }
    requires there { IsThere (T.world t.old) proto }
    ensures reply { IfOk result (λ reply. reply ≡ (set_proto_act (T.world t.old) o proto).reply) }
    ensures world { OnOk result (T.world t.new ≡ after (set_proto_act (T.world t.old) o proto).did (T.world t.old)) }
    ensures did { OnOk result (T.came t.old (set_proto_act (T.world t.old) o proto).did t.new) }
    ensures err { OnErr result (T.world t.new ≡ T.world t.old) }
    ensures moved { OnErr result (T.came t.old Moved t.new) }
    ensures same_limit { T.limit t.new ≡ T.limit t.old }
{
    let now = t.proto(o);
    if same_proto(proto, now) {
        return Ok(Reply::Flag(true));
    }
    let extensible = t.extensible(o);
    if !extensible {
        return Ok(Reply::Flag(false));
    }
    let cycle = comes_to(t, proto, o);
    if cycle {
        return Ok(Reply::Flag(false));
    }
    t.set_proto(o, proto)?;
    Ok(Reply::Flag(true))
}

// Whether two prototypes are the same.
fn same_proto(a: Option<u32>, b: Option<u32>) -> bool
    ensures { result ≡ are_same a b }
{
    a == b
}

/// Has an object get no further property (ECMA-262, 10.1.4.1).
pub fn lock<T: Tables>(t: &mut T, o: u32) -> Result<Reply, Memory>
    requires { o < length (T.world t.old) }
    ensures reply { IfOk result (λ reply. reply ≡ (lock_act (T.world t.old) o).reply) }
    ensures world { OnOk result (T.world t.new ≡ after (lock_act (T.world t.old) o).did (T.world t.old)) }
    ensures did { OnOk result (T.came t.old (lock_act (T.world t.old) o).did t.new) }
    ensures err { OnErr result (T.world t.new ≡ T.world t.old) }
    ensures moved { OnErr result (T.came t.old Moved t.new) }
    ensures same_limit { T.limit t.new ≡ T.limit t.old }
{
    if !t.extensible(o) {
        return Ok(Reply::Flag(true));
    }
    t.lock(o)?;
    Ok(Reply::Flag(true))
}

/// Seals an object (ECMA-262, 7.3.16).
pub fn seal<T: Tables>(t: &mut T, o: u32) -> Result<Reply, Memory>
    requires { o < length (T.world t.old) }
    ensures reply { IfOk result (λ reply. reply ≡ (seal_act o).reply) }
    ensures world { OnOk result (T.world t.new ≡ after (seal_act o).did (T.world t.old)) }
    ensures did { OnOk result (T.came t.old (seal_act o).did t.new) }
    ensures err { OnErr result (T.world t.new ≡ T.world t.old) }
    ensures moved { OnErr result (T.came t.old Moved t.new) }
    ensures same_limit { T.limit t.new ≡ T.limit t.old }
{
    t.restrict(o, false)?;
    Ok(Reply::Flag(true))
}

/// Freezes an object (ECMA-262, 7.3.16).
pub fn freeze<T: Tables>(t: &mut T, o: u32) -> Result<Reply, Memory>
    requires { o < length (T.world t.old) }
    ensures reply { IfOk result (λ reply. reply ≡ (freeze_act o).reply) }
    ensures world { OnOk result (T.world t.new ≡ after (freeze_act o).did (T.world t.old)) }
    ensures did { OnOk result (T.came t.old (freeze_act o).did t.new) }
    ensures err { OnErr result (T.world t.new ≡ T.world t.old) }
    ensures moved { OnErr result (T.came t.old Moved t.new) }
    ensures same_limit { T.limit t.new ≡ T.limit t.old }
{
    t.restrict(o, true)?;
    Ok(Reply::Flag(true))
}
