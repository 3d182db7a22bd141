use hc_plan::{Dep, Skip, SkipList, Why};
use hc_report::{Line, render_log};
use hc_value::{Class, Rep};
use std::alloc::Global;
use std::process::Abort;
use std::test::Fail;

// No plan, for the first four of these skips.
fn skipped(skips: &[Skip]) -> Line {
    let mut list = SkipList::new();
    for skip in skips {
        if list.len() < 4 {
            list.push(*skip);
        }
    }
    Line::NoPlan(7, Why::Skips(list))
}

fn check(rt: &impl Abort, alloc: Global, line: &Line, text: &str) -> Result<(), Fail> {
    let mut out = Vec::new(alloc);
    render_log(&mut out, line)?;
    assert_eq!(rt; out.as_slice(), text.as_bytes(), "{}", text);
    Ok(())
}

#[test]
fn accesses_and_plans_are_told(rt: HostRuntime) -> Result<(), Fail> {
    let alloc = rt.alloc();
    let cases = [
        (Line::Hit(3, 0), "~ hit 3 0\n"),
        (Line::Hit(0, 2), "~ hit 0 2\n"),
        (Line::Cache(0), "~ cache 0\n"),
        (Line::Slow(12), "~ slow 12\n"),
        (Line::Install(1, 0), "~ install 1 0\n"),
        (Line::NoPlan(0, Why::NoMaps), "~ noplan 0 empty\n"),
        (Line::NoPlan(1, Why::Mega), "~ noplan 1 mega\n"),
    ];
    for (line, text) in cases.iter() {
        check(&rt, alloc, line, text)?;
    }
    Ok(())
}

#[test]
fn a_dependency_is_told_by_its_word(rt: HostRuntime) -> Result<(), Fail> {
    let alloc = rt.alloc();
    let cases = [
        (Line::Refuse(1, Dep::Live(4)), "~ refuse 1 live\n"),
        (Line::Refuse(1, Dep::Stable(5)), "~ refuse 1 stable\n"),
        (Line::Refuse(2, Dep::Rep(6, Rep::Smi)), "~ refuse 2 rep\n"),
        (Line::Refuse(2, Dep::Const(6)), "~ refuse 2 const\n"),
        (
            Line::Refuse(3, Dep::Class(6, Class::Of(9))),
            "~ refuse 3 class\n",
        ),
        (Line::Refuse(3, Dep::Value(0, 1, 2)), "~ refuse 3 value\n"),
        (Line::Discard(0, Dep::Stable(5)), "~ discard 0 stable\n"),
        (
            Line::Discard(10, Dep::Rep(6, Rep::Wide)),
            "~ discard 10 rep\n",
        ),
    ];
    for (line, text) in cases.iter() {
        check(&rt, alloc, line, text)?;
    }
    Ok(())
}

#[test]
fn skips_are_parted_by_one_space(rt: HostRuntime) -> Result<(), Fail> {
    let alloc = rt.alloc();
    let cases = [
        (skipped(&[Skip::Dead(1)]), "~ noplan 7 dead\n"),
        (
            skipped(&[Skip::SlowHolder(1), Skip::Deep(2)]),
            "~ noplan 7 slow deep\n",
        ),
        (
            skipped(&[
                Skip::ConstField(1),
                Skip::NoLink(2),
                Skip::PrototypeMap(3),
                Skip::Dead(4),
            ]),
            "~ noplan 7 constfield nolink protomap dead\n",
        ),
    ];
    for (line, text) in cases.iter() {
        check(&rt, alloc, line, text)?;
    }
    Ok(())
}
