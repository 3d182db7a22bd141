use hc_plan::{Dep, Why};
use hc_report::{Line, Log, is_true, render_summary};
use hc_value::{Reply, Value};
use std::test::Fail;

const LINES: [Line; 12] = [
    Line::Slow(0),
    Line::Cache(0),
    Line::Slow(1),
    Line::Install(0, 0),
    Line::Hit(0, 0),
    Line::Slow(0),
    Line::Discard(0, Dep::Live(3)),
    Line::Refuse(1, Dep::Stable(4)),
    Line::NoPlan(2, Why::Mega),
    Line::Slow(1),
    Line::Cache(1),
    Line::NoPlan(3, Why::NoMaps),
];

#[test]
fn each_kind_of_line_is_counted(rt: HostRuntime) -> Result<(), Fail> {
    let mut log = Log::new(rt.alloc());
    log.reserve(12)?;
    let mut out = Vec::new(rt.alloc());
    render_summary(&mut out, 16, 0, &log)?;
    for line in LINES {
        log.reserve(1)?;
        log.push(0, line);
    }
    render_summary(&mut out, 200_000, 34_567, &log)?;
    let wanted =
        "= commands 16\n= trues 0\n= hits 0\n= caches 0\n= slows 0\n= installs 0\n= refusals 0\n= noplans 0\n= discards 0\n= commands 200000\n= trues 34567\n= hits 1\n= caches 2\n= slows 4\n= installs 1\n= refusals 1\n= noplans 2\n= discards 1\n";
    assert_eq!(rt; out.as_slice(), wanted.as_bytes());
    Ok(())
}

#[test]
fn flags_and_values_may_be_true(rt: HostRuntime) {
    let cases = [
        (Reply::Flag(true), true),
        (Reply::Val(Value::Bool(true)), true),
        (Reply::Flag(false), false),
        (Reply::Val(Value::Bool(false)), false),
        (Reply::Val(Value::Text(0)), false),
        (Reply::CallWith(0, 0, Value::Bool(true)), false),
        (Reply::Fine, false),
    ];
    for (reply, wanted) in cases.iter() {
        assert_eq!(rt; is_true(reply), *wanted);
    }
}
