use hc_layout::Shape;
use hc_script::{Command, Op};
use hc_session::{Begun, Scripted, Session};
use hc_value::Reply;
use std::process::Abort;
use std::test::Fail;

fn declare(rt: &impl Abort, session: &mut Session<Scripted>) -> Result<(), Fail> {
    assert!(rt; session.sites() < u32::MAX);
    assert!(rt; !session.lacking());
    let reply = session.command(&Command::Declare(Op::Load, 0))?;
    assert!(rt; matches!(reply, Reply::Site(0)));
    Ok(())
}

// Asks for a job of site 0: its number, where one is started.
fn begin(rt: &impl Abort, session: &mut Session<Scripted>) -> Result<Option<u32>, Fail> {
    assert!(rt; session.started() < u32::MAX);
    match session.begin(0)? {
        Begun::Started(job, _) => Ok(Some(job.id())),
        Begun::NoSite | Begun::NoRoom => Ok(None),
    }
}

// Begins a job, which gets this number, and which the caller has from then on.
fn begin_one(rt: &impl Abort, session: &mut Session<Scripted>, number: u32) -> Result<(), Fail> {
    let begun = begin(rt, session)?;
    assert_eq!(rt; begun, Some(number));
    assert!(rt; session.lent(number));
    Ok(())
}

// Begins two jobs, and has them, and no third.
fn begin_two(rt: &impl Abort, session: &mut Session<Scripted>) -> Result<(), Fail> {
    begin_one(rt, session, 0)?;
    begin_one(rt, session, 1)?;
    assert!(rt; !session.lent(2));
    Ok(())
}

// A caller has the jobs that it began, which are numbered from 0 on, and no other; none is begun for a site that isn't there.
#[test]
fn jobs_are_lent(rt: HostRuntime) -> Result<(), Fail> {
    let mut session = Session::scripted(rt.alloc(), Shape::small())?;
    assert_eq!(rt; begin(&rt, &mut session)?, None);
    declare(&rt, &mut session)?;
    begin_two(&rt, &mut session)
}
