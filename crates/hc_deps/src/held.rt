//! Whether a dependency holds on the words of the board.
ghost use Rattle.std.specs.Prelude.{◌≡◌, ◌↔◌, IsSome, IsTrue};
ghost use Rattle.std.specs.Option.{ForSome};
ghost use Rattle.hc_layout.specs.Shape.{IsShape};
ghost use Rattle.hc_deps.specs.Looks.{MadeLooks};
ghost use Rattle.hc_deps.specs.Holds.{Holds, most_looks};

use crate::words::{map_of, slot_word};
use hc_board::Look;
use hc_broker::Peek;
use hc_layout::Shape;
use hc_plan::Dep;
use hc_value::{Class, Constness, Rep};

fn is_live<L: Look>(peek: &mut Peek<'_, L>, map: u32) -> bool
    requires fits { IsShape peek.old.shape }
    ensures answer { ForSome (L.image peek.old.look.now)
        (λ words. IsTrue result ↔ Holds peek.old.shape words (Dep.Live map)) }
    ensures looks { MadeLooks L.image L.looked 1 1 peek.old.look.now peek.new.look.now }
    ensures same_reference { peek.new.look.ghost_name ≡ peek.old.look.ghost_name }
    ensures shape { peek.new.shape ≡ peek.old.shape }
{
    match peek.bits(map) {
        Some(bits) => !bits.deprecated,
        None => false,
    }
}

fn is_stable<L: Look>(peek: &mut Peek<'_, L>, map: u32) -> bool
    requires fits { IsShape peek.old.shape }
    ensures answer { ForSome (L.image peek.old.look.now)
        (λ words. IsTrue result ↔ Holds peek.old.shape words (Dep.Stable map)) }
    ensures looks { MadeLooks L.image L.looked 1 1 peek.old.look.now peek.new.look.now }
    ensures same_reference { peek.new.look.ghost_name ≡ peek.old.look.ghost_name }
    ensures shape { peek.new.shape ≡ peek.old.shape }
{
    match peek.bits(map) {
        Some(bits) => !bits.unstable,
        None => false,
    }
}

fn has_rep<L: Look>(peek: &mut Peek<'_, L>, field: u32, rep: Rep) -> bool
    requires fits { IsShape peek.old.shape }
    ensures answer { ForSome (L.image peek.old.look.now)
        (λ words. IsTrue result ↔ Holds peek.old.shape words (Dep.Rep field rep)) }
    ensures looks { MadeLooks L.image L.looked 1 1 peek.old.look.now peek.new.look.now }
    ensures same_reference { peek.new.look.ghost_name ≡ peek.old.look.ghost_name }
    ensures shape { peek.new.shape ≡ peek.old.shape }
{
    match peek.detail(field) {
        Some(detail) => detail.rep == rep,
        None => false,
    }
}

fn is_const<L: Look>(peek: &mut Peek<'_, L>, field: u32) -> bool
    requires fits { IsShape peek.old.shape }
    ensures answer { ForSome (L.image peek.old.look.now)
        (λ words. IsTrue result ↔ Holds peek.old.shape words (Dep.Const field)) }
    ensures looks { MadeLooks L.image L.looked 1 1 peek.old.look.now peek.new.look.now }
    ensures same_reference { peek.new.look.ghost_name ≡ peek.old.look.ghost_name }
    ensures shape { peek.new.shape ≡ peek.old.shape }
{
    match peek.detail(field) {
        Some(detail) => detail.constness == Constness::Const,
        None => false,
    }
}

fn has_class<L: Look>(peek: &mut Peek<'_, L>, field: u32, class: Class) -> bool
    requires fits { IsShape peek.old.shape }
    ensures answer { ForSome (L.image peek.old.look.now)
        (λ words. IsTrue result ↔ Holds peek.old.shape words (Dep.Class field class)) }
    ensures looks { MadeLooks L.image L.looked 1 1 peek.old.look.now peek.new.look.now }
    ensures same_reference { peek.new.look.ghost_name ≡ peek.old.look.ghost_name }
    ensures shape { peek.new.shape ≡ peek.old.shape }
{
    match peek.detail(field) {
        Some(detail) => detail.class == class,
        None => false,
    }
}

fn has_value<L: Look>(peek: &mut Peek<'_, L>, object: u32, slot: u32, word: u64) -> bool
    requires fits { IsShape peek.old.shape }
    ensures answer { ForSome (L.image peek.old.look.now)
        (λ words. IsTrue result ↔ Holds peek.old.shape words (Dep.Value object slot word)) }
    ensures looks { MadeLooks L.image L.looked 1 3 peek.old.look.now peek.new.look.now }
    ensures same_reference { peek.new.look.ghost_name ≡ peek.old.look.ghost_name }
    ensures shape { peek.new.shape ≡ peek.old.shape }
{
    if map_of(peek, object).is_none() {
        return false;
    }
    match slot_word(peek, object, slot) {
        Some(held) => held == word,
        None => false,
    }
}

fn holds_there<L: Look>(peek: &mut Peek<'_, L>, dep: Dep) -> bool
    requires fits { IsShape peek.old.shape }
    ensures answer { ForSome (L.image peek.old.look.now)
        (λ words. IsTrue result ↔ Holds peek.old.shape words dep) }
    ensures looks { MadeLooks L.image L.looked 1 (most_looks dep)
        peek.old.look.now peek.new.look.now }
    ensures same_reference { peek.new.look.ghost_name ≡ peek.old.look.ghost_name }
    ensures shape { peek.new.shape ≡ peek.old.shape }
{
    match dep {
        Dep::Live(map) => is_live(peek, map),
        Dep::Stable(map) => is_stable(peek, map),
        Dep::Rep(field, rep) => has_rep(peek, field, rep),
        Dep::Const(field) => is_const(peek, field),
        Dep::Class(field, class) => has_class(peek, field, class),
        Dep::Value(object, slot, word) => has_value(peek, object, slot, word),
    }
}

/// Whether a dependency holds: a value by at most three looks, and each other by exactly one.
pub fn holds<L: Look>(look: &mut L, shape: Shape, dep: &Dep) -> bool
    requires fits { IsShape shape }
    requires told { IsSome (L.image look.old) }
    ensures answer { ForSome (L.image look.old)
        (λ words. IsTrue result ↔ Holds shape words dep.now) }
    ensures looks { MadeLooks L.image L.looked 1 (most_looks dep.now) look.old look.new }
{
    let mut peek = Peek::new(look, shape);
    holds_there(&mut peek, *dep)
}
