//! The answer of a way.
ghost use Rattle.std.specs.Prelude.{◌≡◌, ◌↔◌, IsTrue, Some, None, IsSome, option_map};
ghost use Rattle.std.specs.Option.{ForSome};
ghost use Rattle.hc_layout.specs.Shape.{IsShape};
ghost use Rattle.hc_deps.specs.Looks.{MadeLooks};
ghost use Rattle.hc_apply.specs.Answers.{value_by, accessed, got_by, set_by, value_on, pair_on, reply_on, answer_on, IsReadable};

use crate::applied::Applied;
use hc_board::Look;
use hc_broker::Peek;
use hc_deps::slot_word;
use hc_layout::Shape;
use hc_plan::Way;
use hc_value::{Rep, Reply, Value, unpair, untagged, unwide};

// The value of a slot's word, by the representation of its field.
fn value_by(rep: Rep, word: u64) -> Option<Value>
    ensures { result ≡ value_by rep word }
{
    match rep {
        Rep::Wide => Some(Value::Int(unwide(word)?)),
        _ => untagged(word),
    }
}

fn accessed(object: u32, holder: Option<u32>) -> u32
    ensures { result ≡ accessed object holder }
{
    match holder {
        Some(holder) => holder,
        None => object,
    }
}

fn got_by(object: u32, getter: Option<u32>) -> Reply
    ensures { result ≡ got_by object getter }
{
    match getter {
        Some(getter) => Reply::Call(getter, object),
        None => Reply::Val(Value::Undefined),
    }
}

fn set_by(object: u32, value: Value, setter: Option<u32>) -> Reply
    ensures { result ≡ set_by object value setter }
{
    match setter {
        Some(setter) => Reply::CallWith(setter, object, value),
        None => Reply::Flag(false),
    }
}

// The reply of a load of an object's slot.
fn value_reply<L: Look>(peek: &mut Peek<'_, L>, rep: Rep, object: u32, slot: u32) -> Option<Reply>
    requires fits { IsShape peek.old.shape }
    ensures reply { ForSome (L.image peek.old.look.now)
        (λ words. result ≡ option_map Reply.Val (value_on peek.old.shape words rep object slot)) }
    ensures looks { MadeLooks L.image L.looked 0 2 peek.old.look.now peek.new.look.now }
    ensures same_reference { peek.new.look.ghost_name ≡ peek.old.look.ghost_name }
    ensures shape { peek.new.shape ≡ peek.old.shape }
{
    let word = slot_word(peek, object, slot)?;
    Some(Reply::Val(value_by(rep, word)?))
}

// The reply of a constant.
fn constant_reply(rep: Rep, word: u64) -> Option<Reply>
    ensures { result ≡ option_map Reply.Val (value_by rep word) }
{
    Some(Reply::Val(value_by(rep, word)?))
}

// The getter and the setter of an object's slot.
fn pair_at<L: Look>(
    peek: &mut Peek<'_, L>,
    object: u32,
    slot: u32,
) -> Option<(Option<u32>, Option<u32>)>
    requires fits { IsShape peek.old.shape }
    ensures pair { ForSome (L.image peek.old.look.now)
        (λ words. result ≡ pair_on peek.old.shape words object slot) }
    ensures looks { MadeLooks L.image L.looked 0 2 peek.old.look.now peek.new.look.now }
    ensures same_reference { peek.new.look.ghost_name ≡ peek.old.look.ghost_name }
    ensures shape { peek.new.shape ≡ peek.old.shape }
{
    let word = slot_word(peek, object, slot)?;
    unpair(word)
}

// The reply of a load of an accessor.
fn getter_reply<L: Look>(
    peek: &mut Peek<'_, L>,
    object: u32,
    holder: Option<u32>,
    slot: u32,
) -> Option<Reply>
    requires fits { IsShape peek.old.shape }
    ensures reply { ForSome (L.image peek.old.look.now)
        (λ words. result ≡ reply_on peek.old.shape words object None (Way.Getter holder slot)) }
    ensures looks { MadeLooks L.image L.looked 0 2 peek.old.look.now peek.new.look.now }
    ensures same_reference { peek.new.look.ghost_name ≡ peek.old.look.ghost_name }
    ensures shape { peek.new.shape ≡ peek.old.shape }
{
    let pair = pair_at(peek, accessed(object, holder), slot)?;
    Some(got_by(object, pair.0))
}

// The reply of a store to an accessor.
fn setter_reply<L: Look>(
    peek: &mut Peek<'_, L>,
    object: u32,
    value: &Option<Value>,
    holder: Option<u32>,
    slot: u32,
) -> Option<Reply>
    requires fits { IsShape peek.old.shape }
    ensures reply { ForSome (L.image peek.old.look.now)
        (λ words. result ≡ reply_on peek.old.shape words object value.now (Way.Setter holder slot)) }
    ensures looks { MadeLooks L.image L.looked 0 2 peek.old.look.now peek.new.look.now }
    ensures same_reference { peek.new.look.ghost_name ≡ peek.old.look.ghost_name }
    ensures shape { peek.new.shape ≡ peek.old.shape }
{
    let Some(value) = value else {
        return None;
    };
    let pair = pair_at(peek, accessed(object, holder), slot)?;
    Some(set_by(object, *value, pair.1))
}

// The reply of a way that stores nothing.
fn reply<L: Look>(
    peek: &mut Peek<'_, L>,
    object: u32,
    value: &Option<Value>,
    way: Way,
) -> Option<Reply>
    requires fits { IsShape peek.old.shape }
    ensures reply { ForSome (L.image peek.old.look.now)
        (λ words. result ≡ reply_on peek.old.shape words object value.now way) }
    ensures looks { MadeLooks L.image L.looked 0 2 peek.old.look.now peek.new.look.now }
    ensures same_reference { peek.new.look.ghost_name ≡ peek.old.look.ghost_name }
    ensures shape { peek.new.shape ≡ peek.old.shape }
{
    match way {
        Way::Own { slot, rep, .. } => value_reply(peek, rep, object, slot),
        Way::Holder {
            object: holder,
            slot,
            rep,
            ..
        } => value_reply(peek, rep, holder, slot),
        Way::Constant { rep, word, .. } => constant_reply(rep, word),
        Way::Absent => Some(Reply::Val(Value::Undefined)),
        Way::Getter {
            object: holder,
            slot,
        } => getter_reply(peek, object, holder, slot),
        Way::Setter {
            object: holder,
            slot,
        } => setter_reply(peek, object, value, holder, slot),
        Way::Reject => Some(Reply::Flag(false)),
        Way::StoreOwn { .. } => None,
        Way::Add { .. } => None,
    }
}

// Whether a way's answer can be read.
fn can_reply<L: Look>(peek: &mut Peek<'_, L>, object: u32, value: &Option<Value>, way: Way) -> bool
    requires fits { IsShape peek.old.shape }
    ensures answer { ForSome (L.image peek.old.look.now)
        (λ words. IsTrue result ↔ IsReadable peek.old.shape words object value.now way) }
    ensures looks { MadeLooks L.image L.looked 0 2 peek.old.look.now peek.new.look.now }
    ensures same_reference { peek.new.look.ghost_name ≡ peek.old.look.ghost_name }
    ensures shape { peek.new.shape ≡ peek.old.shape }
{
    match way {
        Way::StoreOwn { .. } => true,
        Way::Add { .. } => true,
        _ => reply(peek, object, value, way).is_some(),
    }
}

/// Whether each word that a way's answer reads is there, and of its form.
pub fn is_readable<L: Look>(
    look: &mut L,
    shape: Shape,
    object: u32,
    value: &Option<Value>,
    way: Way,
) -> bool
    requires fits { IsShape shape }
    ensures answer { ForSome (L.image look.old)
        (λ words. IsTrue result ↔ IsReadable shape words object value.now way) }
    ensures looks { MadeLooks L.image L.looked 0 2 look.old look.new }
{
    let mut peek = Peek::new(look, shape);
    can_reply(&mut peek, object, value, way)
}

// What the case of a number answers by its way; none where a word can't be read.
fn answer<L: Look>(
    peek: &mut Peek<'_, L>,
    object: u32,
    value: &Option<Value>,
    number: u32,
    way: Way,
) -> Option<Applied>
    requires fits { IsShape peek.old.shape }
    ensures answer { ForSome (L.image peek.old.look.now)
        (λ words. result ≡ answer_on peek.old.shape words object value.now number way) }
    ensures looks { MadeLooks L.image L.looked 0 2 peek.old.look.now peek.new.look.now }
    ensures same_reference { peek.new.look.ghost_name ≡ peek.old.look.ghost_name }
    ensures shape { peek.new.shape ≡ peek.old.shape }
{
    match way {
        Way::StoreOwn { slot, .. } => Some(Applied::StoreAt(number, slot)),
        Way::Add { child, .. } => Some(Applied::AddBy(number, child)),
        _ => Some(Applied::Answer(number, reply(peek, object, value, way)?)),
    }
}

/// The same, of a case whose answer can be read.
pub(crate) fn answered<L: Look>(
    peek: &mut Peek<'_, L>,
    object: u32,
    value: &Option<Value>,
    number: u32,
    way: Way,
) -> Applied
    requires fits { IsShape peek.old.shape }
    requires told { IsSome (L.image peek.old.look.now) }
    requires readable { ForSome (L.image peek.old.look.now)
        (λ words. IsReadable peek.old.shape words object value.now way) }
    ensures answer { ForSome (L.image peek.old.look.now)
        (λ words. answer_on peek.old.shape words object value.now number way ≡ Some result) }
    ensures looks { MadeLooks L.image L.looked 0 2 peek.old.look.now peek.new.look.now }
    ensures same_reference { peek.new.look.ghost_name ≡ peek.old.look.ghost_name }
    ensures shape { peek.new.shape ≡ peek.old.shape }
{
    let Some(applied) = answer(peek, object, value, number, way) else {
        unreachable!()
    };
    applied
}
