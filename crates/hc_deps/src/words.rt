//! What the words of an object say.
ghost use Rattle.std.specs.Prelude.{◌≡◌};
ghost use Rattle.std.specs.Option.{ForSome};
ghost use Rattle.hc_layout.specs.Shape.{IsShape};
ghost use Rattle.hc_deps.specs.Image.{map_on, slot_word_on};
ghost use Rattle.hc_deps.specs.Looks.{MadeLooks};

use hc_board::Look;
use hc_broker::Peek;

/// The map of a fast object; none where the object is slow or isn't there.
pub fn map_of<L: Look>(peek: &mut Peek<'_, L>, object: u32) -> Option<u32>
    requires fits { IsShape peek.old.shape }
    ensures map { ForSome (L.image peek.old.look.now)
        (λ words. result ≡ map_on peek.old.shape words object) }
    ensures looks { MadeLooks L.image L.looked 1 1 peek.old.look.now peek.new.look.now }
    ensures same_reference { peek.new.look.ghost_name ≡ peek.old.look.ghost_name }
    ensures shape { peek.new.shape ≡ peek.old.shape }
{
    peek.object_map(object)?
}

/// The word of an object's slot, counted from its first, by at most two looks.
pub fn slot_word<L: Look>(peek: &mut Peek<'_, L>, object: u32, slot: u32) -> Option<u64>
    requires fits { IsShape peek.old.shape }
    ensures word { ForSome (L.image peek.old.look.now)
        (λ words. result ≡ slot_word_on peek.old.shape words object slot) }
    ensures looks { MadeLooks L.image L.looked 1 2 peek.old.look.now peek.new.look.now }
    ensures same_reference { peek.new.look.ghost_name ≡ peek.old.look.ghost_name }
    ensures shape { peek.new.shape ≡ peek.old.shape }
{
    let store = peek.store(object)?;
    let first = store.first?;
    let at = first.checked_add(slot)?;
    peek.slot(at)
}
