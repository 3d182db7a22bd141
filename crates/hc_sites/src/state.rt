//! The state of one site, and its events.
ghost use Rattle.std.specs.Prelude.{◌≡◌};
ghost use Rattle.hc_sites.specs.Events.{noted, forgotten, filled, installed, discarded};
ghost use Rattle.hc_sites.specs.State.{new_site, after_event, feedback_of};
ghost use Rattle.hc_sites.specs.Maps.{AreMaps};

use crate::cached::Cached;
use crate::feedback::{Feedback, Maps, in_places};
use hc_plan::{Plan, Site};

/// A site, the maps that it has seen, whether there were too many, its inline cache and its plan.
#[derive(Drop)]
pub struct SiteState {
    pub site: Site,
    pub maps: Maps,
    pub mega: bool,
    pub cache: Option<Cached>,
    pub plan: Option<Plan>,
}

impl SiteState {
    /// The state of a site at which nothing happened yet.
    pub(crate) fn new(site: Site) -> SiteState
        ensures { result ≡ new_site site }
    {
        SiteState {
            site,
            maps: Maps::new(),
            mega: false,
            cache: None,
            plan: None,
        }
    }

    pub(crate) fn feedback(&self) -> Feedback
        ensures value { result ≡ feedback_of self.now }
        ensures maps { AreMaps self.now.maps }
    {
        Feedback {
            maps: in_places(self.maps.as_slice()),
            mega: self.mega,
        }
    }

    pub(crate) fn note(&mut self, map: u32)
        ensures { self.new ≡ after_event self.old (noted map) }
    {
        if self.maps.note(map) {
            self.mega = true;
        }
    }

    pub(crate) fn forget(&mut self, map: u32)
        ensures { self.new ≡ after_event self.old (forgotten map) }
    {
        self.maps.forget(map);
    }

    pub(crate) fn fill(&mut self, entry: Cached)
        ensures { self.new ≡ after_event self.old (filled entry) }
    {
        self.cache = Some(entry);
    }

    pub(crate) fn install(&mut self, plan: Plan)
        ensures { self.new ≡ after_event self.old (installed plan) }
    {
        self.plan = Some(plan);
    }

    pub(crate) fn discard(&mut self)
        ensures { self.new ≡ after_event self.old discarded }
    {
        self.plan = None;
    }
}
