//! The end of a job: what its reads tell.
ghost use Rattle.std.specs.Prelude.{◌≡◌, ◌+◌, ◌<◌, ◌≤◌, ◌⊎◌, [], true, length, vec_len, vec_capacity};
ghost use Rattle.hc_board.specs.States.{reads_made};
ghost use Rattle.hc_plan.specs.declared.case.Case.{Case};
ghost use Rattle.hc_question.specs.Ask.{tell};
ghost use Rattle.hc_question.specs.Told.{IsTold, TellsNothing, of_cases};
ghost use Rattle.hc_planner.specs.Machine.{asks_of};
ghost use Rattle.hc_planner.specs.Jobs.{asks, IsOwn, is_done, in_four, TellsOnly, HasOutcome, GoOn};

use crate::at::At;
use crate::job::Job;
use crate::seeker::{Search, Seeker};
use hc_board::Reader;
use hc_plan::{Case, Cases, Dep, Deps, Plan, Site, SkipList, Why};
use hc_question::{Answer, Outcome};

/// What a job hands on: its number, site and feedback, what it found out, and its reader.
#[derive(Drop)]
pub struct Finished {
    pub id: u32,
    pub site: u32,
    pub what: Site,
    pub maps: [Option<u32>; 4],
    pub mega: bool,
    pub outcome: Outcome,
    pub reader: Reader,
}

impl Job {
    /// Ends a job that is done.
    pub fn finish(self, reader: Reader) -> Finished
        requires done { is_done (asks self) ≡ true }
        requires own { IsOwn self reader }
        ensures id { result.id ≡ self.id }
        ensures site { result.site ≡ self.site }
        ensures what { result.what ≡ self.what }
        ensures maps { result.maps ≡ in_four self.maps }
        ensures mega { result.mega ≡ self.mega }
        ensures reader { result.reader ≡ reader }
        ensures told { IsTold self.shape self.site self.what self.maps self.mega (reads_made reader) result.outcome
            ⊎ TellsNothing self.shape self.what self.maps self.mega (reads_made reader) }
    {
        let maps = self.maps();
        let Job {
            id,
            site,
            what,
            mega,
            shape: _,
            seekers,
            cases,
            deps,
        } = self;
        let outcome = outcome_of(site, what, mega, seekers, cases, deps);
        Finished {
            id,
            site,
            what,
            maps,
            mega,
            outcome,
            reader,
        }
    }
}

// The outcome of seekers that ask no more.
fn outcome_of(
    site: u32,
    what: Site,
    mega: bool,
    seekers: Vec<Seeker>,
    cases: Vec<Case>,
    deps: Vec<Dep>,
) -> Outcome
    requires few { vec_len seekers ≤ 4 }
    requires no_cases { cases.items ≡ [] }
    requires for_cases { 4 ≤ vec_capacity cases }
    requires no_deps { deps.items ≡ [] }
    requires for_deps { 80 ≤ vec_capacity deps }
    ensures told { HasOutcome site what mega seekers.items result }
{
    if mega {
        return Outcome::NoPlan(Why::Mega);
    }
    if seekers.is_empty() {
        return Outcome::NoPlan(Why::NoMaps);
    }
    let (cases, skips) = answers(seekers, cases);
    planned(site, what, cases, skips, deps)
}

// A plan of these cases, if there is one.
fn planned(site: u32, what: Site, cases: Vec<Case>, skips: SkipList, deps: Vec<Dep>) -> Outcome
    requires few { vec_len cases ≤ 4 }
    requires no_deps { deps.items ≡ [] }
    requires for_deps { 80 ≤ vec_capacity deps }
    ensures { result ≡ of_cases site what cases.items skips }
{
    if cases.is_empty() {
        return Outcome::NoPlan(Why::Skips(skips));
    }
    let cases = Cases::from_vec(cases);
    let deps = Deps::of_cases(deps, &cases);
    Outcome::Planned(Plan {
        site,
        op: what.op,
        name: what.name,
        cases,
        deps,
    })
}

// The answers of seekers, in their order.
fn answers(seekers: Vec<Seeker>, cases: Vec<Case>) -> (Vec<Case>, SkipList)
    requires few { vec_len seekers ≤ 4 }
    requires no_cases { cases.items ≡ [] }
    requires for_cases { 4 ≤ vec_capacity cases }
    ensures told { TellsOnly seekers.items result.0.items result.1 }
    ensures few { vec_len result.0 ≤ 4 }
{
    let mut seekers = seekers;
    let mut cases = cases;
    let mut skips = SkipList::new();
    while !seekers.is_empty() {
        settle(seekers.remove(0), &mut cases, &mut skips);
    }
    (cases, skips)
}

// Puts the answer of a seeker last. One that has none tells nothing.
fn settle(seeker: Seeker, cases: &mut Vec<Case>, skips: &mut SkipList)
    requires cases { vec_len cases.old < vec_capacity cases.old }
    requires skips { length skips.old < 4 }
    ensures told { GoOn seeker cases.old.items skips.old cases.new.items skips.new }
    ensures cases { vec_len cases.new ≤ vec_len cases.old + 1 }
    ensures skips { length skips.new ≤ length skips.old + 1 }
    ensures capacity { vec_capacity cases.new ≡ vec_capacity cases.old }
{
    let Seeker { search, at } = seeker;
    let At::Ended(answer) = at else {
        return;
    };
    match answer {
        Answer::Found(way) => {
            let Search { map, chain, .. } = search;
            cases.push_reserved(Case { map, chain, way });
        }
        Answer::Skipped(skip) => skips.push(skip),
    }
}
