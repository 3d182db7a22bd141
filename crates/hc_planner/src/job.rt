//! A job: the question of one site's feedback, asked of the board one look a step.
ghost use Rattle.std.specs.Prelude.{◌≡◌, ◌+◌, ◌≤◌, ◌<◌, ◌⊎◌, ◌↔◌, [], ◌∷◌, true, false, length, map, take, vec_len, vec_capacity, slice_get, IfOk, IfSome, IfNone, IsTrue};
ghost use Rattle.hc_board.specs.States.{reads_made};
ghost use Rattle.hc_layout.specs.Shape.{IsShape};
ghost use Rattle.hc_planner.specs.Left.{left_at};
ghost use Rattle.hc_planner.specs.Machine.{rest, asks_of};
ghost use Rattle.hc_planner.specs.Steps.{Steps};
ghost use Rattle.hc_planner.specs.Jobs.{JobState, asks, AreOwn, IsOwn, is_done, LooksOn, Rests, SeekersLook, SeekersRest, in_four, is_looking, is_ended, AreEnded, new_seeker, maps_of};

use crate::at::{At, MapLook};
use crate::seeker::{Search, Seeker};
use hc_board::{Look, Reader, look_adds_reads};
use hc_broker::Peek;
use hc_layout::{GateWord, Shape};
use hc_plan::{Case, Chain, Dep, MOST_DEPS, Site};
use hc_value::Memory;
use std::alloc::Global;
use std::marker::Model;

/// Whether a job has more looks to make.
#[derive(Clone, Copy, PartialEq, Eq)]
pub enum Step {
    More,
    Done,
}

/// The most maps of a feedback.
const MOST_MAPS: usize = 4;

/// A compile job. All its memory is taken when it is made.
#[derive(Drop)]
pub struct Job {
    pub(crate) id: u32,
    pub(crate) site: u32,
    pub(crate) what: Site,
    pub(crate) mega: bool,
    pub(crate) shape: Shape,
    pub(crate) seekers: Vec<Seeker>,
    pub(crate) cases: Vec<Case>,
    pub(crate) deps: Vec<Dep>,
}

impl Model for Job {
    ghost use Rattle.hc_planner.specs.Jobs.{JobState, maps_of};

    ghost Value = { JobState };

    ghost use Rattle.std.specs.Prelude.{vec_capacity};
    ghost use Rattle.hc_planner.specs.Rooms.{HasRooms};

    ghost view = { λ j. record { id = j.id; site = j.site; what = j.what; maps = maps_of j.seekers.items; mega = j.mega; shape = j.shape; seekers = j.seekers.items } };

    ghost invariant = { λ j. HasRooms j.shape j.seekers.items j.cases.items (vec_capacity j.cases) j.deps.items (vec_capacity j.deps) };
}

// A seeker that hasn't looked yet.
fn seeker(what: Site, most: u32, map: u32) -> Seeker
    ensures { result ≡ new_seeker what most map }
{
    Seeker {
        search: Search {
            what,
            most,
            map,
            gate: GateWord {
                entries: 0,
                is_private: false,
                is_locked: false,
            },
            chain: Chain::new(),
        },
        at: At::Map(MapLook::Bits),
    }
}

// A seeker for each map.
fn seekers_of(alloc: Global, what: Site, most: u32, maps: &[u32]) -> Result<Vec<Seeker>, Memory>
    ensures { IfOk result (λ v. v.items ≡ map (new_seeker what most) maps.now) }
{
    let mut seekers = Vec::with_capacity(alloc, maps.len())?;
    for number in maps {
        seekers.push_reserved(seeker(what, most, *number));
    }
    Ok(seekers)
}

impl Seeker {
    // Whether it has a look to make.
    fn is_looking(&self) -> bool
        ensures { result ≡ is_looking self.now.at }
    {
        match self.at {
            At::Map(_) => true,
            At::Chain(_) => true,
            At::Field(_) => true,
            At::Link(_) => true,
            At::Ended(_) => false,
            At::Stopped => false,
        }
    }

    // Whether it has its answer.
    fn is_ended(&self) -> bool
        ensures { result ≡ is_ended self.now.at }
    {
        match self.at {
            At::Ended(_) => true,
            _ => false,
        }
    }
}

// The first seeker that has no answer yet, or else the number of seekers.
fn first_asking(seekers: &[Seeker]) -> usize
    ensures within { result ≤ length seekers.now }
    ensures ended { AreEnded (take result seekers.now) }
    ensures first { IfSome (slice_get seekers.now result) (λ x. is_ended x.at ≡ false) }
{
    let mut i = 0;
    while i < seekers.len() && seekers[i].is_ended() {
        i += 1;
    }
    i
}

impl Seeker {
    // One look.
    fn step<L: Look>(&mut self, look: &mut L, shape: Shape)
        requires fits { IsShape shape }
        requires looking { is_looking self.old.at ≡ true }
        ensures steps { Steps L.looked shape look.old look.new (rest self.old) (rest self.new) }
        ensures fewer { left_at self.new.at < left_at self.old.at }
        ensures same { self.new.search.map ≡ self.old.search.map }
    {
        let mut peek = Peek::new(look, shape);
        match self.at {
            At::Map(at) => self.look_at_map(at, &mut peek),
            At::Chain(at) => self.look_at_chain(at, &mut peek),
            At::Field(at) => self.look_at_field(at, &mut peek),
            At::Link(at) => self.look_at_link(at, &mut peek),
            At::Ended(_) => unreachable!(),
            At::Stopped => unreachable!(),
        }
    }
}

// One look for the first seeker that has no answer yet, unless nothing is asked any more.
fn step_first(seekers: &mut Vec<Seeker>, reader: &mut Reader, shape: Shape)
    requires fits { IsShape shape }
    ensures turn { SeekersLook shape seekers.old.items seekers.new.items reader.old reader.new
        ⊎ SeekersRest seekers.old.items seekers.new.items reader.old reader.new }
    ensures maps { maps_of seekers.new.items ≡ maps_of seekers.old.items }
    ensures count { vec_len seekers.new ≡ vec_len seekers.old }
{
    let i = first_asking(seekers.as_slice());
    if i >= seekers.len() {
        return;
    }
    if !seekers[i].is_looking() {
        return;
    }
    seekers[i].step(reader, shape);
}

impl Job {
    /// A job that hasn't looked yet, with all the memory that it will need.
    pub fn new(
        alloc: Global,
        id: u32,
        site: u32,
        what: Site,
        maps: &[u32],
        mega: bool,
        shape: Shape,
    ) -> Result<Job, Memory>
        requires few { length maps.now ≤ 4 }
        requires fits { IsShape shape }
        ensures given { IfOk result (λ j. j ≡ record {
          id = id;
          site = site;
          what = what;
          maps = maps.now;
          mega = mega;
          shape = shape;
          seekers = j.seekers;
        }) }
        ensures own { IfOk result (λ j. AreOwn j []) }
    {
        let seekers = seekers_of(alloc, what, shape.links, maps)?;
        let cases = Vec::with_capacity(alloc, MOST_MAPS)?;
        let deps = Vec::with_capacity(alloc, MOST_MAPS * MOST_DEPS)?;
        Ok(Job {
            id,
            site,
            what,
            mega,
            shape,
            seekers,
            cases,
            deps,
        })
    }

    pub fn id(&self) -> u32
        ensures { result ≡ self.now.id }
    {
        self.id
    }

    pub fn site(&self) -> u32
        ensures { result ≡ self.now.site }
    {
        self.site
    }

    pub fn what(&self) -> Site
        ensures { result ≡ self.now.what }
    {
        self.what
    }

    /// The maps of the feedback, in order from the front.
    pub fn maps(&self) -> [Option<u32>; 4]
        ensures maps { result ≡ in_four self.now.maps }
        ensures few { length self.now.maps ≤ 4 }
    {
        let _ = &self.seekers;
        [
            self.map_at(0),
            self.map_at(1),
            self.map_at(2),
            self.map_at(3),
        ]
    }

    fn map_at(&self, i: usize) -> Option<u32>
        ensures { result ≡ slice_get self.now.maps i }
    {
        match self.seekers.get(i) {
            Some(seeker) => Some(seeker.search.map),
            None => None,
        }
    }

    pub fn mega(&self) -> bool
        ensures { result ≡ self.now.mega }
    {
        self.mega
    }

    /// Whether the job has no look to make any more.
    pub fn is_done(&self) -> bool
        ensures { result ≡ is_done (asks self.now) }
    {
        self.mega || asks_nothing(self.seekers.as_slice())
    }

    /// One look, where the job wasn't done.
    pub fn step(&mut self, reader: &mut Reader) -> Step
        requires own { IsOwn self.old reader.old }
        ensures own { IsOwn self.new reader.new }
        ensures turn { LooksOn self.old self.new reader.old reader.new
            ⊎ Rests self.old self.new reader.old reader.new }
        ensures same { self.new ≡ record self.old { seekers = self.new.seekers } }
        ensures done { (result ≡ Step.Done) ↔ (is_done (asks self.new) ≡ true) }
    {
        look_adds_reads();
        self.turn(reader);
        if self.is_done() {
            Step::Done
        } else {
            Step::More
        }
    }

    fn turn(&mut self, reader: &mut Reader)
        ensures turn { LooksOn self.old self.new reader.old reader.new
            ⊎ Rests self.old self.new reader.old reader.new }
        ensures same { self.new ≡ record self.old { seekers = self.new.seekers } }
    {
        if !self.mega {
            step_first(&mut self.seekers, reader, self.shape);
        }
    }
}

// Whether seekers ask no more: none is left without an answer, or a word wasn't what it has to be.
fn asks_nothing(seekers: &[Seeker]) -> bool
    ensures { result ≡ is_done (asks_of seekers.now [] []) }
{
    let i = first_asking(seekers);
    match seekers.get(i) {
        Some(seeker) => !seeker.is_looking(),
        None => true,
    }
}
