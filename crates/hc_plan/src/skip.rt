//! Why there is no plan.
ghost use Rattle.std.specs.Prelude.{◌≡◌, ◌<◌, ◌≤◌, [], ◌∷◌, ◌++◌, length, slice_get, option_copied};

use std::marker::Model;

/// Why a map has no case.
#[derive(Clone, Copy, PartialEq, Eq)]
pub enum Skip {
    /// This map is deprecated.
    Dead(u32),
    /// This object of the chain isn't fast.
    SlowHolder(u32),
    /// The chain goes on to this object past its most.
    Deep(u32),
    /// This field is constant, and the site stores.
    ConstField(u32),
    /// This map has no link for the property that the site adds.
    NoLink(u32),
    /// This map is private, so it has no links.
    PrototypeMap(u32),
}

/// The skips of a site's maps, in their order, at most four.
#[derive(Clone, Copy)]
pub struct SkipList {
    first: Option<Skip>,
    second: Option<Skip>,
    third: Option<Skip>,
    fourth: Option<Skip>,
}

impl Model for SkipList {
    ghost use Rattle.std.specs.Prelude.{List};
    ghost use Rattle.hc_plan.specs.declared.skip.Skip.{Skip};

    ghost Value = { List Skip };

    ghost use Rattle.hc_plan.specs.Skips.{skips_in, skips_at, AreSkips, back_again};

    ghost view = { skips_in };

    ghost invariant = { AreSkips };

    ghost inverse = { skips_at };

    ghost inverse_ok = { back_again };
}

impl SkipList {
    pub fn new() -> SkipList
        ensures { result ≡ [] }
    {
        SkipList {
            first: None,
            second: None,
            third: None,
            fourth: None,
        }
    }

    pub fn len(&self) -> u32
        ensures len { result ≡ length self.now }
        ensures most { result ≤ 4 }
    {
        match self {
            SkipList { first: None, .. } => 0,
            SkipList { second: None, .. } => 1,
            SkipList { third: None, .. } => 2,
            SkipList { fourth: None, .. } => 3,
            _ => 4,
        }
    }

    /// The skip at a place; `None` exactly past the end.
    pub fn at(&self, i: u32) -> Option<&Skip>
        ensures { option_copied result ≡ slice_get self.now i }
    {
        match i {
            0 => self.first.as_ref(),
            1 => self.second.as_ref(),
            2 => self.third.as_ref(),
            3 => self.fourth.as_ref(),
            _ => None,
        }
    }

    /// Puts a skip last.
    pub fn push(&mut self, skip: Skip)
        requires room { length self.old < 4 }
        ensures { self.new ≡ self.old ++ skip ∷ [] }
    {
        match self.len() {
            0 => self.first = Some(skip),
            1 => self.second = Some(skip),
            2 => self.third = Some(skip),
            _ => self.fourth = Some(skip),
        }
    }
}

/// Why a job has no plan.
#[derive(Clone, Copy)]
pub enum Why {
    /// The site has seen no map.
    NoMaps,
    /// The site has seen too many maps.
    Mega,
    /// No map has a case.
    Skips(SkipList),
}
