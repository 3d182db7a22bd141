//! Jobs over the board: a table of plans, one of skips, and both with each word spoilt in turn.
ghost use Rattle.std.specs.Prelude.{◌≡◌, ◌≤◌, length};
ghost use Rattle.hc_layout.specs.Shape.{words_of};

use crate::board::{SHAPE, WORDS, written};
use hc_board::Writer;
use hc_plan::{Case, Dep, Op, Plan, Site, Skip, Way, Why};
use hc_planner::{Job, Outcome};
use hc_value::{Class, Memory, Rep};
use std::alloc::Global;
use std::test::Fail;

type Deps = [Option<Dep>; 6];

pub const NONE: usize = usize::MAX;

// A row: the operation, the map and the name; the number of looks; the way and the dependencies.
const PLANS: [(Op, u32, u32, u64, Way, Deps); 16] = [
    (
        Op::Load,
        2,
        5,
        6,
        Way::Own {
            slot: 0,
            field: 4,
            rep: Rep::HeapObject,
        },
        [
            Some(Dep::Live(2)),
            Some(Dep::Rep(4, Rep::HeapObject)),
            None,
            None,
            None,
            None,
        ],
    ),
    (
        Op::Load,
        2,
        8,
        7,
        Way::Getter {
            object: None,
            slot: 3,
        },
        [Some(Dep::Live(2)), None, None, None, None, None],
    ),
    (
        Op::Load,
        2,
        1,
        17,
        Way::Constant {
            object: 0,
            slot: 0,
            field: 0,
            rep: Rep::Smi,
            word: 77,
        },
        [
            Some(Dep::Live(2)),
            Some(Dep::Stable(1)),
            Some(Dep::Rep(0, Rep::Smi)),
            Some(Dep::Const(0)),
            Some(Dep::Value(0, 0, 77)),
            None,
        ],
    ),
    (
        Op::Load,
        2,
        2,
        16,
        Way::Holder {
            object: 0,
            slot: 1,
            field: 1,
            rep: Rep::Tagged,
        },
        [
            Some(Dep::Live(2)),
            Some(Dep::Stable(1)),
            Some(Dep::Rep(1, Rep::Tagged)),
            None,
            None,
            None,
        ],
    ),
    (
        Op::Load,
        2,
        3,
        15,
        Way::Getter {
            object: Some(0),
            slot: 2,
        },
        [
            Some(Dep::Live(2)),
            Some(Dep::Stable(1)),
            None,
            None,
            None,
            None,
        ],
    ),
    (
        Op::Load,
        2,
        12,
        16,
        Way::Absent,
        [
            Some(Dep::Live(2)),
            Some(Dep::Stable(1)),
            None,
            None,
            None,
            None,
        ],
    ),
    (
        Op::Load,
        9,
        1,
        3,
        Way::Absent,
        [Some(Dep::Live(9)), None, None, None, None, None],
    ),
    (
        Op::Store,
        2,
        5,
        6,
        Way::StoreOwn {
            slot: 0,
            field: 4,
            rep: Rep::HeapObject,
            class: Class::Of(2),
        },
        [
            Some(Dep::Live(2)),
            Some(Dep::Rep(4, Rep::HeapObject)),
            Some(Dep::Class(4, Class::Of(2))),
            None,
            None,
            None,
        ],
    ),
    (
        Op::Store,
        2,
        7,
        6,
        Way::Reject,
        [Some(Dep::Live(2)), None, None, None, None, None],
    ),
    (
        Op::Store,
        2,
        8,
        7,
        Way::Setter {
            object: None,
            slot: 3,
        },
        [Some(Dep::Live(2)), None, None, None, None, None],
    ),
    (
        Op::Store,
        2,
        3,
        15,
        Way::Setter {
            object: Some(0),
            slot: 2,
        },
        [
            Some(Dep::Live(2)),
            Some(Dep::Stable(1)),
            None,
            None,
            None,
            None,
        ],
    ),
    (
        Op::Store,
        2,
        4,
        16,
        Way::Reject,
        [
            Some(Dep::Live(2)),
            Some(Dep::Stable(1)),
            None,
            None,
            None,
            None,
        ],
    ),
    (
        Op::Store,
        2,
        2,
        30,
        Way::Add {
            child: 6,
            slot: 0,
            field: 9,
            rep: Rep::HeapObject,
            class: Class::Of(1),
        },
        [
            Some(Dep::Live(2)),
            Some(Dep::Stable(1)),
            Some(Dep::Live(6)),
            Some(Dep::Rep(9, Rep::HeapObject)),
            Some(Dep::Class(9, Class::Of(1))),
            None,
        ],
    ),
    (
        Op::Store,
        2,
        9,
        26,
        Way::Add {
            child: 3,
            slot: 4,
            field: 8,
            rep: Rep::Wide,
            class: Class::Any,
        },
        [
            Some(Dep::Live(2)),
            Some(Dep::Stable(1)),
            Some(Dep::Live(3)),
            Some(Dep::Rep(8, Rep::Wide)),
            None,
            None,
        ],
    ),
    (
        Op::Store,
        10,
        1,
        3,
        Way::Reject,
        [Some(Dep::Live(10)), None, None, None, None, None],
    ),
    (
        Op::Load,
        29,
        1,
        51,
        Way::Absent,
        [
            Some(Dep::Live(29)),
            Some(Dep::Stable(13)),
            Some(Dep::Stable(14)),
            Some(Dep::Stable(15)),
            Some(Dep::Stable(16)),
            Some(Dep::Stable(17)),
        ],
    ),
];

// A row: the operation, the map and the name; the number of looks; the skip.
pub const SKIPS: [(Op, u32, u32, u64, Skip); 7] = [
    (Op::Load, 7, 1, 1, Skip::Dead(7)),
    (Op::Load, 8, 1, 4, Skip::SlowHolder(1)),
    (Op::Load, 11, 1, 51, Skip::Deep(18)),
    (Op::Store, 2, 6, 7, Skip::ConstField(5)),
    (Op::Store, 2, 10, 26, Skip::Dead(5)),
    (Op::Store, 2, 11, 27, Skip::NoLink(2)),
    (Op::Store, 9, 1, 3, Skip::PrototypeMap(9)),
];

// What a job finds out, and how many looks it makes.
fn found(
    alloc: Global,
    writer: &mut Writer,
    what: Site,
    maps: &[u32],
    mega: bool,
) -> Result<(Outcome, u64), Fail>
    requires { length maps.now ≤ 4 }
    ensures { writer.new.board ≡ writer.old.board }
{
    let mut reader = writer.reader()?;
    let mut job = Job::new(alloc, 0, 3, what, maps, mega, SHAPE)?;
    let mut looks = 0u64;
    while !job.is_done() {
        job.step(&mut reader);
        looks = looks.saturating_add(1);
    }
    Ok((job.finish(reader).outcome, looks))
}

// Whether a case has this way, and these are the dependencies from the front.
fn answers(plan: &Plan, way: Way, deps: &Deps) -> bool {
    let Some(case) = plan.cases.at(0) else {
        return false;
    };
    let mut same = case.way == way && plan.cases.len() == 1;
    for i in 0..6u32 {
        same = same && plan.deps.at(i).copied() == deps[i as usize];
    }
    same
}

// Whether these are the skips.
pub fn skips(outcome: &Outcome, skip: Option<Skip>) -> bool {
    match outcome {
        Outcome::NoPlan(Why::Skips(list)) => list.at(0).copied() == skip && list.at(1).is_none(),
        _ => false,
    }
}

fn plans(outcome: &Outcome, way: Way, deps: &Deps) -> bool {
    match outcome {
        Outcome::Planned(plan) => answers(plan, way, deps),
        Outcome::NoPlan(_) => false,
    }
}

// The maps of the first three cases.
fn cases(outcome: &Outcome) -> [Option<u32>; 3] {
    let Outcome::Planned(plan) = outcome else {
        return [None; 3];
    };
    [map_at(plan, 0), map_at(plan, 1), map_at(plan, 2)]
}

fn map_at(plan: &Plan, i: u32) -> Option<u32> {
    Some(plan.cases.at(i)?.map)
}

#[test]
fn every_way_has_its_looks_and_its_dependencies(rt: HostRuntime) -> Result<(), Fail> {
    let mut writer = written(rt.alloc(), NONE)?;
    for (op, map, name, looks, way, deps) in PLANS {
        let (outcome, made) = found(rt.alloc(), &mut writer, Site { op, name }, &[map], false)?;
        assert!(rt; plans(&outcome, way, &deps), "map {map}, name {name}");
        assert!(rt; made == looks, "map {map}, name {name}");
    }
    Ok(())
}

#[test]
fn every_skip_has_its_looks(rt: HostRuntime) -> Result<(), Fail> {
    let mut writer = written(rt.alloc(), NONE)?;
    for (op, map, name, looks, skip) in SKIPS {
        let (outcome, made) = found(rt.alloc(), &mut writer, Site { op, name }, &[map], false)?;
        assert!(rt; skips(&outcome, Some(skip)), "map {map}, name {name}");
        assert!(rt; made == looks, "map {map}, name {name}");
    }
    Ok(())
}

// How many spoilt words leave a job with nothing told; every other word leaves it what it told before.
fn stopped(alloc: Global, op: Op, name: u32, way: Way, deps: &Deps) -> Result<Option<u64>, Fail> {
    let mut count = 0u64;
    for k in 0..WORDS.len() {
        let mut writer = written(alloc, k)?;
        let (outcome, _) = found(alloc, &mut writer, Site { op, name }, &[2], false)?;
        if skips(&outcome, None) {
            count = count.saturating_add(1);
        } else if !plans(&outcome, way, deps) {
            return Ok(None);
        }
    }
    Ok(Some(count))
}

#[test]
fn a_word_of_no_form_tells_nothing(rt: HostRuntime) -> Result<(), Fail> {
    for (row, words) in [(0usize, 5u64), (2, 15), (3, 15), (7, 5), (12, 28), (13, 24)] {
        if row < PLANS.len() {
            let (op, _map, name, _looks, way, deps) = PLANS[row];
            assert!(rt;
                stopped(rt.alloc(), op, name, way, &deps)? == Some(words),
                "row {row}"
            );
        }
    }
    Ok(())
}

#[test]
fn maps_are_answered_in_their_order(rt: HostRuntime) -> Result<(), Fail> {
    let mut writer = written(rt.alloc(), NONE)?;
    let what = Site {
        op: Op::Load,
        name: 5,
    };
    let (outcome, looks) = found(rt.alloc(), &mut writer, what, &[7, 2, 8, 9], false)?;
    assert!(rt; looks == 14);
    assert!(rt; cases(&outcome) == [Some(2), Some(9), None]);
    let (outcome, looks) = found(rt.alloc(), &mut writer, what, &[], false)?;
    assert!(rt; matches!(outcome, Outcome::NoPlan(Why::NoMaps)) && looks == 0);
    let (outcome, looks) = found(rt.alloc(), &mut writer, what, &[2], true)?;
    assert!(rt; matches!(outcome, Outcome::NoPlan(Why::Mega)) && looks == 0);
    Ok(())
}
