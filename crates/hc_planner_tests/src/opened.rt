//! Jobs of a table: put in, read some at a time, and finished; and a table that is full.
use crate::board::{SHAPE, written};
use crate::jobs::{NONE, SKIPS, skips};
use hc_board::{Writer, renew_keeps_reads};
use hc_jobs::{JobTable, MOST_JOBS, NoGate, Reads, make_reads, work};
use hc_plan::{Op, Site, Skip};
use hc_planner::{Job, Outcome};
use std::alloc::Global;
use std::test::Fail;

// Puts in a job with a new reader, unless there is no room or such a job is open.
fn put_in(
    alloc: Global,
    writer: &mut Writer,
    table: &mut JobTable,
    number: u32,
    what: Site,
    map: u32,
) -> Result<bool, Fail> {
    if !table.has_room() || table.is_open(number) {
        return Ok(false);
    }
    let reader = writer.reader()?;
    let job = Job::new(alloc, number, 3, what, &[map], false, SHAPE)?;
    table.start(job, reader);
    Ok(true)
}

// Makes reads of an open job.
fn read_on(table: &mut JobTable, number: u32, n: Reads) -> bool {
    if !table.is_open(number) {
        return false;
    }
    let (mut job, mut reader) = table.take(number);
    make_reads(&mut job, &mut reader, n);
    table.start(job, reader);
    true
}

// What an open job finds out, once it has made the reads that are left.
fn finished(table: &mut JobTable, number: u32) -> Option<Outcome> {
    if !table.is_open(number) {
        return None;
    }
    let (mut job, mut reader) = table.take(number);
    make_reads(&mut job, &mut reader, Reads::All);
    Some(job.finish(reader).outcome)
}

// Whether an open job ends with this skip.
fn ends(table: &mut JobTable, number: u32, skip: Skip) -> bool {
    match finished(table, number) {
        Some(outcome) => skips(&outcome, Some(skip)),
        None => false,
    }
}

#[test]
fn each_job_ends_with_its_own_skip(rt: HostRuntime) -> Result<(), Fail> {
    let mut writer = written(rt.alloc(), NONE)?;
    let mut table = JobTable::new(rt.alloc())?;
    let mut number = 0u32;
    for (op, map, name, _looks, _skip) in SKIPS {
        let what = Site { op, name };
        assert!(rt; put_in(rt.alloc(), &mut writer, &mut table, number, what, map)?);
        number = number.saturating_add(1);
    }
    for reads in 0..7u32 {
        assert!(rt;
            read_on(&mut table, 6 - reads, Reads::Count(reads)),
            "job {reads}"
        );
    }
    number = 0;
    for (_op, _map, _name, _looks, skip) in SKIPS {
        assert!(rt; ends(&mut table, number, skip), "job {number}");
        assert!(rt; !table.is_open(number), "job {number}");
        number = number.saturating_add(1);
    }
    Ok(())
}

#[test]
fn a_table_has_sixty_four_jobs(rt: HostRuntime) -> Result<(), Fail> {
    let mut writer = written(rt.alloc(), NONE)?;
    let mut table = JobTable::new(rt.alloc())?;
    let what = Site {
        op: Op::Load,
        name: 1,
    };
    for number in 0..64u32 {
        assert!(rt;
            put_in(rt.alloc(), &mut writer, &mut table, number, what, 8)?,
            "job {number}"
        );
    }
    assert!(rt; !put_in(rt.alloc(), &mut writer, &mut table, 64, what, 8)?);
    assert!(rt; ends(&mut table, 10, Skip::SlowHolder(1)));
    assert!(rt; finished(&mut table, 10).is_none());
    assert!(rt; !read_on(&mut table, 10, Reads::All));
    assert!(rt; put_in(rt.alloc(), &mut writer, &mut table, 64, what, 8)?);
    assert!(rt; !table.has_room() && table.is_open(64) && MOST_JOBS == 64);
    Ok(())
}

// What a job finds out: some reads in one batch, the others in a second one.
fn in_batches(alloc: Global, what: Site, map: u32, first: u32) -> Result<Outcome, Fail> {
    let mut writer = written(alloc, NONE)?;
    let mut reader = writer.reader()?;
    let mut job = Job::new(alloc, 0, 3, what, &[map], false, SHAPE)?;
    make_reads(&mut job, &mut reader, Reads::Count(first));
    renew_keeps_reads();
    let reader = writer.renew(reader);
    Ok(work(job, reader, &NoGate).outcome)
}

#[test]
fn a_job_goes_on_after_each_batch(rt: HostRuntime) -> Result<(), Fail> {
    for (op, map, name, looks, skip) in SKIPS {
        for first in 0..4u32 {
            let outcome = in_batches(rt.alloc(), Site { op, name }, map, first)?;
            assert!(rt; skips(&outcome, Some(skip)), "map {map}, {looks} looks");
        }
    }
    Ok(())
}
