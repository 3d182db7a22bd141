//! The sites of a session.
ghost use Rattle.std.specs.Prelude.{◌≡◌, ◌-◌, ◌<◌, ◌^◌, Some, [], ◌∷◌, ◌++◌, length, slice_get, option_map, option_copied, IfOk, IfSome, OnOk, OnErr};
ghost use Rattle.hc_sites.specs.Events.{noted, forgotten, filled, installed, discarded};
ghost use Rattle.hc_sites.specs.Maps.{AreMaps};
ghost use Rattle.hc_sites.specs.State.{new_site, feedback_of, cache_at, plan_at, with_event};

use crate::cached::Cached;
use crate::feedback::Feedback;
use crate::state::SiteState;
use hc_plan::{Plan, Site};
use hc_value::Memory;
use std::alloc::Global;
use std::marker::Model;

/// The declared sites, numbered from 0 in the order in which they were declared.
#[derive(Drop)]
pub struct Sites {
    states: Vec<SiteState>,
}

impl Model for Sites {
    ghost use Rattle.std.specs.Prelude.{◌<◌, ◌^◌, List, length};
    ghost use Rattle.hc_sites.specs.declared.state.SiteState.{SiteState};

    ghost Value = { List SiteState };

    ghost view = { λ sites. sites.states.items };

    ghost invariant = { λ sites. length sites.states.items < 2 ^ 32 };
}

impl Sites {
    /// No site.
    pub fn new(alloc: Global) -> Sites
        ensures { result ≡ [] }
    {
        Sites {
            states: Vec::new(alloc),
        }
    }

    pub fn len(&self) -> u32
        ensures { result ≡ length self.now }
    {
        self.states.len() as u32
    }

    /// Declares a site, and gives its number.
    pub fn declare(&mut self, site: Site) -> Result<u32, Memory>
        requires room { length self.old < 2 ^ 32 - 1 }
        ensures number { IfOk result (λ s. s ≡ length self.old) }
        ensures ok { OnOk result (self.new ≡ self.old ++ new_site site ∷ []) }
        ensures err { OnErr result (self.new ≡ self.old) }
    {
        let number = self.states.len() as u32;
        self.states.push(SiteState::new(site))?;
        Ok(number)
    }

    /// What a site does; `None` exactly where it isn't there.
    pub fn site(&self, s: u32) -> Option<Site>
        ensures { result ≡ option_map (λ state. state.site) (slice_get self.now s) }
    {
        Some(self.states.get(s as usize)?.site)
    }

    /// What a site has seen of maps.
    pub fn feedback(&self, s: u32) -> Feedback
        requires there { s < length self.now }
        ensures value { option_map feedback_of (slice_get self.now s) ≡ Some result }
        ensures maps { IfSome (slice_get self.now s) (λ state. AreMaps state.maps) }
    {
        self.states[s as usize].feedback()
    }

    /// A map that is deprecated is dropped from what the site has seen.
    pub fn forget(&mut self, s: u32, map: u32)
        requires there { s < length self.old }
        ensures { self.new ≡ with_event self.old s (forgotten map) }
    {
        let state = &mut self.states[s as usize];
        state.forget(map);
    }

    /// The site has seen a receiver of this map.
    pub fn note(&mut self, s: u32, map: u32)
        requires there { s < length self.old }
        ensures { self.new ≡ with_event self.old s (noted map) }
    {
        let state = &mut self.states[s as usize];
        state.note(map);
    }

    /// The inline cache of a site; `None` exactly where the site isn't there or its cache is empty.
    pub fn cache(&self, s: u32) -> Option<Cached>
        ensures { result ≡ cache_at self.now s }
    {
        self.states.get(s as usize)?.cache
    }

    /// Puts an entry into the inline cache, in the place of an earlier one.
    pub fn fill(&mut self, s: u32, entry: Cached)
        requires there { s < length self.old }
        ensures { self.new ≡ with_event self.old s (filled entry) }
    {
        let state = &mut self.states[s as usize];
        state.fill(entry);
    }

    /// The plan of a site; `None` exactly where the site isn't there or has none.
    pub fn plan_of(&self, s: u32) -> Option<&Plan>
        ensures { option_copied result ≡ plan_at self.now s }
    {
        self.states.get(s as usize)?.plan.as_ref()
    }

    /// Gives a site a plan, in the place of an earlier one.
    pub fn install(&mut self, s: u32, plan: Plan)
        requires there { s < length self.old }
        ensures { self.new ≡ with_event self.old s (installed plan) }
    {
        let state = &mut self.states[s as usize];
        state.install(plan);
    }

    /// Takes a site's plan away.
    pub fn discard(&mut self, s: u32)
        requires there { s < length self.old }
        ensures { self.new ≡ with_event self.old s discarded }
    {
        let state = &mut self.states[s as usize];
        state.discard();
    }
}
