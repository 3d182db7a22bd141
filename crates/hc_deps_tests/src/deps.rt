//! Each dependency: holding, broken, unwritten, of no form, and past its region.
use crate::board::{SHAPE, written};
use hc_deps::holds;
use hc_plan::Dep;
use hc_value::{Class, Rep};
use std::test::Fail;

const DEPS: [(Dep, bool); 34] = [
    (Dep::Live(0), true),
    (Dep::Live(1), true),
    (Dep::Live(2), false),
    (Dep::Live(3), false),
    (Dep::Live(4), false),
    (Dep::Stable(0), true),
    (Dep::Stable(1), false),
    (Dep::Stable(2), false),
    (Dep::Stable(3), false),
    (Dep::Stable(4), false),
    (Dep::Rep(0, Rep::Smi), true),
    (Dep::Rep(0, Rep::Wide), false),
    (Dep::Rep(1, Rep::Tagged), true),
    (Dep::Rep(3, Rep::Smi), false),
    (Dep::Rep(4, Rep::Smi), false),
    (Dep::Rep(5, Rep::Smi), false),
    (Dep::Const(0), true),
    (Dep::Const(1), false),
    (Dep::Const(3), false),
    (Dep::Const(5), false),
    (Dep::Class(2, Class::Of(2)), true),
    (Dep::Class(2, Class::Any), false),
    (Dep::Class(0, Class::Any), true),
    (Dep::Class(0, Class::Of(2)), false),
    (Dep::Class(3, Class::Any), false),
    (Dep::Value(0, 0, 42), true),
    (Dep::Value(0, 0, 43), false),
    (Dep::Value(1, 0, 19), true),
    (Dep::Value(1, 1, 19), false),
    // No slots; slow; no such object; no such slot, near and far.
    (Dep::Value(2, 0, 42), false),
    (Dep::Value(3, 0, 7), false),
    (Dep::Value(4, 0, 0), false),
    (Dep::Value(1, 4, 0), false),
    (Dep::Value(1, u32::MAX, 0), false),
];

#[test]
fn each_dependency_holds_exactly_where_its_words_say_so(rt: HostRuntime) -> Result<(), Fail> {
    let mut writer = written(rt.alloc())?;
    for k in 0..DEPS.len() {
        let (dep, held) = DEPS[k];
        assert!(rt; holds(&mut writer, SHAPE, &dep) == held, "row {k}");
    }
    Ok(())
}
