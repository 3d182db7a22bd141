ghost use Rattle.std.specs.Prelude.{◌≡◌, ◌<◌, false, None, length, IfOk, OnOk, OnErr};
ghost use Rattle.hc_table.specs.Changes.{Moved, after};
ghost use Rattle.hc_table.specs.Numbers.{IsNameNumber};
ghost use Rattle.hc_table.specs.World.{props_at, place_of};
ghost use Rattle.hc_ops.specs.Define.{changed as changed_by, blank as blank_of, is_data, is_accessor, mixes_kinds, IsDescInRange, held_after as held_then, read_only_after as read_only_then, same_value as are_same_values, same_function as are_same_functions, asks_flag as is_flag_asked, asks_value as is_value_asked, asks_function as is_function_asked, conflicts as conflicts_with, is_refused as refuses, define_new as define_new_act, define_act};

use crate::walk::own_property;
use hc_table::{Tables, attributes, dont_delete, dont_enum, read_only};
use hc_value::{Held, Memory, Prop, PropDesc, Reply, Value};

/// What defining a property does (ECMA-262, 10.1.6.3).
pub fn define<T: Tables>(t: &mut T, o: u32, name: u32, d: &PropDesc) -> Result<Reply, Memory>
    requires object { o < length (T.world t.old) }
    requires name { IsNameNumber name }
    requires one_kind { mixes_kinds d.now ≡ false }
    requires range { IsDescInRange d.now }
    ensures reply { IfOk result (λ reply. reply ≡ (define_act (T.world t.old) o name d.now).reply) }
    ensures world { OnOk result (T.world t.new ≡ after (define_act (T.world t.old) o name d.now).did (T.world t.old)) }
    ensures did { OnOk result (T.came t.old (define_act (T.world t.old) o name d.now).did t.new) }
    ensures err { OnErr result (T.world t.new ≡ T.world t.old) }
    ensures moved { OnErr result (T.came t.old Moved t.new) }
    ensures same_limit { T.limit t.new ≡ T.limit t.old }
{
    let Some(own) = own_property(t, o, name) else {
        return define_new(t, o, name, d);
    };
    if is_refused(&own.property, d) {
        return Ok(Reply::Flag(false));
    }
    t.reconfigure(o, own.place, changed(&own.property, d))?;
    Ok(Reply::Flag(true))
}

// Gives an extensible object a property that it lacks.
fn define_new<T: Tables>(t: &mut T, o: u32, name: u32, d: &PropDesc) -> Result<Reply, Memory>
    requires object { o < length (T.world t.old) }
    requires name { IsNameNumber name }
    requires absent { place_of (props_at (T.world t.old) o) name ≡ None }
    requires range { IsDescInRange d.now }
    ensures reply { IfOk result (λ reply. reply ≡ (define_new_act (T.world t.old) o name d.now).reply) }
    ensures world { OnOk result (T.world t.new ≡ after (define_new_act (T.world t.old) o name d.now).did (T.world t.old)) }
    ensures did { OnOk result (T.came t.old (define_new_act (T.world t.old) o name d.now).did t.new) }
    ensures err { OnErr result (T.world t.new ≡ T.world t.old) }
    ensures moved { OnErr result (T.came t.old Moved t.new) }
    ensures same_limit { T.limit t.new ≡ T.limit t.old }
{
    if !t.extensible(o) {
        return Ok(Reply::Flag(false));
    }
    let p = changed(&blank(name), d);
    t.add(o, p)?;
    Ok(Reply::Flag(true))
}

// A new property before its fields are given.
fn blank(name: u32) -> Prop
    ensures { result ≡ blank_of name }
{
    Prop {
        name,
        attrs: attributes(true, true, true),
        held: Held::Datum(Value::Undefined),
    }
}

// The property after a definition.
fn changed(p: &Prop, d: &PropDesc) -> Prop
    ensures { result ≡ changed_by p.now d.now }
{
    let fixed = read_only_after(p.held, read_only(p.attrs), d);
    let enumerable = d.enumerable.unwrap_or(!dont_enum(p.attrs));
    let configurable = d.configurable.unwrap_or(!dont_delete(p.attrs));
    Prop {
        name: p.name,
        attrs: attributes(fixed, !enumerable, !configurable),
        held: held_after(p.held, d),
    }
}

// Whether a definition is one of a data property.
fn defines_data(d: &PropDesc) -> bool
    ensures { result ≡ is_data d.now }
{
    d.value.is_some() || d.writable.is_some()
}

// Whether a definition is one of an accessor.
fn defines_accessor(d: &PropDesc) -> bool
    ensures { result ≡ is_accessor d.now }
{
    d.getter.is_some() || d.setter.is_some()
}

// What a property holds after a definition.
fn held_after(held: Held, d: &PropDesc) -> Held
    ensures { result ≡ held_then held d.now }
{
    match held {
        Held::Datum(value) => {
            if defines_accessor(d) {
                Held::Pair(d.getter.unwrap_or(None), d.setter.unwrap_or(None))
            } else {
                Held::Datum(d.value.unwrap_or(value))
            }
        }
        Held::Pair(getter, setter) => {
            if defines_data(d) {
                Held::Datum(d.value.unwrap_or(Value::Undefined))
            } else {
                Held::Pair(d.getter.unwrap_or(getter), d.setter.unwrap_or(setter))
            }
        }
    }
}

// Whether a property is read-only after a definition.
fn read_only_after(held: Held, fixed: bool, d: &PropDesc) -> bool
    ensures { result ≡ read_only_then held fixed d.now }
{
    match held {
        Held::Datum(_) => !defines_accessor(d) && !d.writable.unwrap_or(!fixed),
        Held::Pair(_, _) => defines_data(d) && !d.writable.unwrap_or(false),
    }
}

// Whether a property that isn't configurable refuses a definition.
fn is_refused(p: &Prop, d: &PropDesc) -> bool
    ensures { result ≡ refuses p.now d.now }
{
    dont_delete(p.attrs)
        && (asks_flag(d.configurable, false)
            || asks_flag(d.enumerable, !dont_enum(p.attrs))
            || conflicts(p.held, read_only(p.attrs), d))
}

// Whether a definition asks another kind, other functions, or of read-only data another value.
fn conflicts(held: Held, fixed: bool, d: &PropDesc) -> bool
    ensures { result ≡ conflicts_with held fixed d.now }
{
    match held {
        Held::Datum(value) => {
            defines_accessor(d)
                || fixed && (asks_flag(d.writable, false) || asks_value(d.value, value))
        }
        Held::Pair(getter, setter) => {
            defines_data(d) || asks_function(d.getter, getter) || asks_function(d.setter, setter)
        }
    }
}

// Whether another flag is asked than there is.
fn asks_flag(asked: Option<bool>, now: bool) -> bool
    ensures { result ≡ is_flag_asked asked now }
{
    match asked {
        Some(flag) => flag != now,
        None => false,
    }
}

// Whether another value is asked than there is.
fn asks_value(asked: Option<Value>, now: Value) -> bool
    ensures { result ≡ is_value_asked asked now }
{
    match asked {
        Some(value) => !same_value(value, now),
        None => false,
    }
}

// Whether another function is asked than there is.
fn asks_function(asked: Option<Option<u32>>, now: Option<u32>) -> bool
    ensures { result ≡ is_function_asked asked now }
{
    match asked {
        Some(function) => !same_function(function, now),
        None => false,
    }
}

// Whether two values are the same.
fn same_value(a: Value, b: Value) -> bool
    ensures { result ≡ are_same_values a b }
{
    a == b
}

// Whether two functions are the same, or there is none.
fn same_function(a: Option<u32>, b: Option<u32>) -> bool
    ensures { result ≡ are_same_functions a b }
{
    a == b
}
