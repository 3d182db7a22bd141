//! The use of a plan.
ghost use Rattle.std.specs.Prelude.{◌≡◌, ◌↔◌, ◌+◌, ◌*◌, IsTrue, IsSome, length};
ghost use Rattle.std.specs.Option.{ForSome};
ghost use Rattle.std.specs.List.{AllByRecursion};
ghost use Rattle.hc_layout.specs.Shape.{IsShape};
ghost use Rattle.hc_deps.specs.Image.{map_on};
ghost use Rattle.hc_deps.specs.Looks.{MadeLooks};
ghost use Rattle.hc_apply.specs.Admits.{Admits, IsPlaceOf};
ghost use Rattle.hc_apply.specs.Answers.{CanAnswer, IsApplied, value_looks, plan_looks};

use crate::admits::admits;
use crate::answer::answered;
use hc_board::Look;
use hc_broker::Peek;
use hc_deps::map_of;
use hc_layout::Shape;
use hc_plan::{Case, Cases, Op, Plan};
use hc_value::{Reply, Value};

/// What a plan answers for a receiver and a value. The first number is that of the case.
#[derive(Drop)]
pub enum Applied {
    /// This reply; nothing is stored.
    Answer(u32, Reply),
    /// The value is to be stored to the receiver's property of this number.
    StoreAt(u32, u32),
    /// The receiver is to get a property with this map.
    AddBy(u32, u32),
    /// No case admits them.
    Miss,
}

// Whether a case admits a receiver of a map, and the value.
fn admits_case<L: Look>(
    peek: &mut Peek<'_, L>,
    room: u32,
    object: u32,
    value: &Option<Value>,
    map: u32,
    case: &Case,
) -> bool
    requires fits { IsShape peek.old.shape }
    requires place { IsPlaceOf case.now.way }
    requires map { ForSome (L.image peek.old.look.now)
        (λ words. map_on peek.old.shape words object ≡ Some map) }
    ensures answer { ForSome (L.image peek.old.look.now)
        (λ words. IsTrue result ↔ Admits peek.old.shape words room object value.now case.now) }
    ensures looks { MadeLooks L.image L.looked 0 (value_looks value.now)
        peek.old.look.now peek.new.look.now }
    ensures same_reference { peek.new.look.ghost_name ≡ peek.old.look.ghost_name }
    ensures shape { peek.new.shape ≡ peek.old.shape }
{
    if case.map != map {
        return false;
    }
    admits(peek, room, object, value, case.way)
}

// What the first case that admits answers to a receiver of a map.
fn first_answer<L: Look>(
    peek: &mut Peek<'_, L>,
    room: u32,
    object: u32,
    value: &Option<Value>,
    map: u32,
    cases: &Cases,
) -> Applied
    requires fits { IsShape peek.old.shape }
    requires told { IsSome (L.image peek.old.look.now) }
    requires places { AllByRecursion (λ case. IsPlaceOf case.way) cases.now }
    requires map { ForSome (L.image peek.old.look.now)
        (λ words. map_on peek.old.shape words object ≡ Some map) }
    requires readable { ForSome (L.image peek.old.look.now)
        (λ words. AllByRecursion (CanAnswer peek.old.shape words room object value.now) cases.now) }
    ensures answer { ForSome (L.image peek.old.look.now)
        (λ words. IsApplied peek.old.shape words room object value.now cases.now result) }
    ensures looks { MadeLooks L.image L.looked 0 (length cases.now * value_looks value.now + 2)
        peek.old.look.now peek.new.look.now }
    ensures same_reference { peek.new.look.ghost_name ≡ peek.old.look.ghost_name }
    ensures shape { peek.new.shape ≡ peek.old.shape }
{
    let items = cases.as_slice();
    for number in 0..cases.len() {
        let case = &items[number as usize];
        if admits_case(peek, room, object, value, map, case) {
            return answered(peek, object, value, number, case.way);
        }
    }
    Applied::Miss
}

fn plan_answer<L: Look>(
    peek: &mut Peek<'_, L>,
    plan: &Plan,
    object: u32,
    value: &Option<Value>,
    room: u32,
) -> Applied
    requires fits { IsShape peek.old.shape }
    requires told { IsSome (L.image peek.old.look.now) }
    requires places { AllByRecursion (λ case. IsPlaceOf case.way) plan.now.cases }
    requires readable { ForSome (L.image peek.old.look.now)
        (λ words. AllByRecursion (CanAnswer peek.old.shape words room object value.now)
        plan.now.cases) }
    ensures answer { ForSome (L.image peek.old.look.now)
        (λ words. IsApplied peek.old.shape words room object value.now plan.now.cases result) }
    ensures looks { MadeLooks L.image L.looked 1
        (length plan.now.cases * value_looks value.now + 3)
        peek.old.look.now peek.new.look.now }
    ensures same_reference { peek.new.look.ghost_name ≡ peek.old.look.ghost_name }
    ensures shape { peek.new.shape ≡ peek.old.shape }
{
    let Some(map) = map_of(peek, object) else {
        return Applied::Miss;
    };
    first_answer(peek, room, object, value, map, &plan.cases)
}

/// What a plan answers for a receiver and, of a store, the value; `room` is how many slots the board has left.
///
/// The receiver's map is looked at once, whatever the number of cases.
pub fn apply<L: Look>(
    look: &mut L,
    shape: Shape,
    plan: &Plan,
    object: u32,
    value: Option<Value>,
    room: u32,
) -> Applied
    requires fits { IsShape shape }
    requires told { IsSome (L.image look.old) }
    requires given { IsSome value ↔ (plan.now.op ≡ Op.Store) }
    requires places { AllByRecursion (λ case. IsPlaceOf case.way) plan.now.cases }
    requires readable { ForSome (L.image look.old)
        (λ words. AllByRecursion (CanAnswer shape words room object value) plan.now.cases) }
    ensures answer { ForSome (L.image look.old)
        (λ words. IsApplied shape words room object value plan.now.cases result) }
    ensures looks { MadeLooks L.image L.looked 1 (plan_looks plan.now.op (length plan.now.cases))
        look.old look.new }
{
    let mut peek = Peek::new(look, shape);
    plan_answer(&mut peek, plan, object, &value, room)
}
