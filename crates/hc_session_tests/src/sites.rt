ghost use Rattle.std.specs.Prelude.{◌<◌, ◌-◌, ◌^◌};

use hc_layout::Shape;
use hc_report::{Mark, Marks};
use hc_script::{Command, Op};
use hc_session::{Scripted, Session};
use hc_value::Reply;
use std::process::Abort;
use std::test::Fail;

// Declares a site, and stops unless it gets this number.
fn declare(
    rt: &impl Abort,
    session: &mut Session<Scripted>,
    op: Op,
    number: u32,
) -> Result<(), Fail> {
    assert!(rt; session.sites() < u32::MAX);
    assert!(rt; !session.lacking());
    let reply = session.command(&Command::Declare(op, 0))?;
    assert!(rt; matches!(reply, Reply::Site(n) if n == number));
    Ok(())
}

// Whether a mark is of a moment at which nothing was done.
fn is_untouched(mark: Option<&Mark>) -> bool {
    match mark {
        Some(mark) => mark.at == 0 && mark.met == 0 && mark.lines == 0 && mark.slots == 0,
        None => false,
    }
}

// Whether two marks are there, something was stored before them, and nothing between them.
fn are_same(a: Option<&Mark>, b: Option<&Mark>) -> bool {
    match (a, b) {
        (Some(a), Some(b)) => {
            0 < a.at && a.at == b.at && a.met == b.met && a.lines == b.lines && a.slots == b.slots
        }
        _ => false,
    }
}

// Three commands and a fourth began where nothing was stored; three came after the fourth, and stored nothing.
fn check_marks(rt: &impl Abort, marks: &Marks) {
    assert_eq!(rt; marks.len(), 7);
    for i in 0..7u64 {
        let right = if i < 4 {
            is_untouched(marks.at(i))
        } else {
            are_same(marks.at(4), marks.at(i))
        };
        assert!(rt; right);
    }
}

// Declares three sites, from a number on.
fn declare_three(
    rt: &impl Abort,
    session: &mut Session<Scripted>,
    op: Op,
    first: u32,
) -> Result<(), Fail>
    requires { first < 2 ^ 32 - 3 }
{
    for number in first..first + 3 {
        declare(rt, session, op, number)?;
    }
    Ok(())
}

fn make(rt: &impl Abort, session: &mut Session<Scripted>) -> Result<(), Fail> {
    assert!(rt; !session.lacking());
    let made = session.command(&Command::New(None))?;
    assert!(rt; matches!(made, Reply::Object(0)));
    Ok(())
}

fn perform(rt: &impl Abort, session: &mut Session<Scripted>) -> Result<(), Fail> {
    declare_three(rt, session, Op::Load, 0)?;
    make(rt, session)?;
    declare_three(rt, session, Op::Store, 3)
}

// Sites are numbered from 0 on, also where two are alike, whatever comes between; each command has its mark, and a site stores
// nothing.
#[test]
fn sites_are_numbered_and_commands_marked(rt: HostRuntime) -> Result<(), Fail> {
    let mut session = Session::scripted(rt.alloc(), Shape::small())?;
    perform(&rt, &mut session)?;
    check_marks(&rt, session.marks());
    Ok(())
}
