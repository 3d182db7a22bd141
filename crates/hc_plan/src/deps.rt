//! What a plan depends on.
ghost use Rattle.std.specs.Prelude.{◌≡◌, ◌+◌, ◌*◌, ◌<◌, ◌≤◌, [], ◌++◌, length, vec_len, vec_capacity};
ghost use Rattle.hc_plan.specs.Deps.{case_deps, way_deps, field_deps, stables, deps_of};

use crate::case::{Case, Way};
use crate::lists::{Cases, Deps, MAX_CHAIN};
use hc_value::{Class, Rep};

/// One fact on the words of the board.
#[derive(Clone, Copy, PartialEq, Eq)]
pub enum Dep {
    /// A map isn't deprecated.
    Live(u32),
    /// A map isn't unstable.
    Stable(u32),
    /// A field has this representation.
    Rep(u32, Rep),
    /// A field has only ever had its first values.
    Const(u32),
    /// A field has this class.
    Class(u32, Class),
    /// A slot of a fast object holds this word.
    Value(u32, u32, u64),
}

/// How many dependencies a case has at most.
pub const MOST_DEPS: usize = MAX_CHAIN + 4;

// Puts the dependencies of a way last.
fn push_way(deps: &mut Vec<Dep>, way: Way)
    requires room { vec_len deps.old + 3 ≤ vec_capacity deps.old }
    ensures items { deps.new.items ≡ deps.old.items ++ way_deps way }
    ensures capacity { vec_capacity deps.new ≡ vec_capacity deps.old }
    ensures most { vec_len deps.new ≤ vec_len deps.old + 3 }
{
    match way {
        Way::Own { field, rep, .. } => deps.push_reserved(Dep::Rep(field, rep)),
        Way::Holder { field, rep, .. } => deps.push_reserved(Dep::Rep(field, rep)),
        Way::Constant {
            object,
            slot,
            field,
            rep,
            word,
        } => {
            deps.push_reserved(Dep::Rep(field, rep));
            deps.push_reserved(Dep::Const(field));
            deps.push_reserved(Dep::Value(object, slot, word));
        }
        Way::StoreOwn {
            field,
            rep,
            class,
            ..
        } => push_field(deps, field, rep, class),
        Way::Add {
            child,
            field,
            rep,
            class,
            ..
        } => {
            deps.push_reserved(Dep::Live(child));
            push_field(deps, field, rep, class);
        }
        Way::Getter { .. } => {}
        Way::Setter { .. } => {}
        Way::Absent => {}
        Way::Reject => {}
    }
}

// Puts what a store depends on of its field last.
fn push_field(deps: &mut Vec<Dep>, field: u32, rep: Rep, class: Class)
    requires room { vec_len deps.old + 2 ≤ vec_capacity deps.old }
    ensures items { deps.new.items ≡ deps.old.items ++ field_deps field rep class }
    ensures capacity { vec_capacity deps.new ≡ vec_capacity deps.old }
    ensures most { vec_len deps.new ≤ vec_len deps.old + 2 }
{
    deps.push_reserved(Dep::Rep(field, rep));
    match class {
        Class::Of(_) => deps.push_reserved(Dep::Class(field, class)),
        Class::Any => {}
    }
}

// Puts the maps of a chain last, each as stable.
fn push_stables(deps: &mut Vec<Dep>, chain: &[(u32, u32)])
    requires room { vec_len deps.old + length chain.now ≤ vec_capacity deps.old }
    ensures items { deps.new.items ≡ deps.old.items ++ stables chain.now }
    ensures capacity { vec_capacity deps.new ≡ vec_capacity deps.old }
    ensures len { vec_len deps.new ≡ vec_len deps.old + length chain.now }
{
    for hop in chain {
        deps.push_reserved(Dep::Stable(hop.1));
    }
}

// Puts the dependencies of a case last.
fn push_case(deps: &mut Vec<Dep>, case: &Case)
    requires room { vec_len deps.old + MOST_DEPS ≤ vec_capacity deps.old }
    ensures items { deps.new.items ≡ deps.old.items ++ case_deps case.now }
    ensures capacity { vec_capacity deps.new ≡ vec_capacity deps.old }
    ensures most { vec_len deps.new ≤ vec_len deps.old + MOST_DEPS }
{
    deps.push_reserved(Dep::Live(case.map));
    push_stables(deps, case.chain.as_slice());
    push_way(deps, case.way);
}

impl Deps {
    /// The dependencies of these cases, kept in a vector that has room for them.
    pub fn of_cases(room: Vec<Dep>, cases: &Cases) -> Deps
        requires empty { room.items ≡ [] }
        requires room { length cases.now * MOST_DEPS ≤ vec_capacity room }
        requires few { length cases.now ≤ 4 }
        ensures { result ≡ deps_of cases.now }
    {
        let mut deps = room;
        for case in cases.as_slice() {
            push_case(&mut deps, case);
        }
        Deps::from_vec(deps)
    }
}
