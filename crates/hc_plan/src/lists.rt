//! The lists of a plan. Contracts see each as the list of its items.
ghost use Rattle.std.specs.Prelude.{◌≡◌, ◌+◌, ◌<◌, ◌≤◌, ◌^◌, List, [], ◌∷◌, ◌++◌, length, slice_get, option_copied, vec_len};
ghost use Rattle.hc_plan.specs.Chains.{with_hop};

use crate::case::Case;
use crate::deps::Dep;
use arrayvec::ArrayVec;
use std::marker::Model;

/// How many objects a chain has at most.
pub const MAX_CHAIN: usize = 16;

/// The objects passed on the way from a map's prototype on, each with its map.
#[derive(Drop)]
pub struct Chain {
    hops: ArrayVec<(u32, u32), MAX_CHAIN>,
}

impl Model for Chain {
    ghost use Rattle.std.specs.Prelude.{◌≤◌, ℕ, List, length};
    ghost use Rattle.hc_plan.specs.declared.lists.TheConstants.{MAX_CHAIN};

    ghost Value = { List (ℕ × ℕ) };

    ghost view = { λ chain. chain.hops.items };

    ghost invariant = { λ chain. length chain.hops.items ≤ MAX_CHAIN };
}

impl Chain {
    pub fn new() -> Chain
        ensures { result ≡ [] }
    {
        Chain {
            hops: ArrayVec::new(),
        }
    }

    pub fn len(&self) -> u32
        ensures len { result ≡ length self.now }
        ensures most { result ≤ MAX_CHAIN }
    {
        self.hops.len() as u32
    }

    /// The object and the map at a place; `None` exactly past the end.
    pub fn at(&self, i: u32) -> Option<&(u32, u32)>
        ensures { option_copied result ≡ slice_get self.now i }
    {
        self.as_slice().get(i as usize)
    }

    pub fn as_slice(&self) -> &[(u32, u32)]
        ensures value { result.now ≡ self.now }
        ensures most { length result.now ≤ MAX_CHAIN }
    {
        self.hops.as_slice()
    }

    /// Puts an object and its map last. A full chain stays as it is.
    pub fn push(&mut self, object: u32, map: u32)
        ensures { self.new ≡ with_hop self.old object map }
    {
        if !self.hops.is_full() {
            self.hops.push((object, map));
        }
    }
}

/// The cases of a plan, one for a map.
#[derive(Drop)]
pub struct Cases {
    items: Vec<Case>,
}

impl Model for Cases {
    ghost use Rattle.std.specs.Prelude.{◌<◌, ◌^◌, List, length};
    ghost use Rattle.hc_plan.specs.declared.case.Case.{Case};

    ghost Value = { List Case };

    ghost view = { λ cases. cases.items.items };

    ghost invariant = { λ cases. length cases.items.items < 2 ^ 32 };
}

impl Cases {
    /// The cases of a vector, which is kept as it is.
    pub fn from_vec(items: Vec<Case>) -> Cases
        requires { vec_len items < 2 ^ 32 }
        ensures { result ≡ items.items }
    {
        Cases { items }
    }

    /// The vector that the cases were kept in.
    pub fn into_vec(self) -> Vec<Case>
        ensures { result.items ≡ self }
    {
        let Cases { items } = self;
        items
    }

    pub fn len(&self) -> u32
        ensures { result ≡ length self.now }
    {
        self.items.len() as u32
    }

    /// The case at a place; `None` exactly past the end.
    pub fn at(&self, i: u32) -> Option<&Case>
        ensures { option_copied result ≡ slice_get self.now i }
    {
        self.items.get(i as usize)
    }

    pub fn as_slice(&self) -> &[Case]
        ensures { result.now ≡ self.now }
    {
        self.items.as_slice()
    }
}

/// The dependencies of a plan.
#[derive(Drop)]
pub struct Deps {
    items: Vec<Dep>,
}

impl Model for Deps {
    ghost use Rattle.std.specs.Prelude.{◌<◌, ◌^◌, List, length};
    ghost use Rattle.hc_plan.specs.declared.deps.Dep.{Dep};

    ghost Value = { List Dep };

    ghost view = { λ deps. deps.items.items };

    ghost invariant = { λ deps. length deps.items.items < 2 ^ 32 };
}

impl Deps {
    /// The dependencies of a vector, which is kept as it is.
    pub fn from_vec(items: Vec<Dep>) -> Deps
        requires { vec_len items < 2 ^ 32 }
        ensures { result ≡ items.items }
    {
        Deps { items }
    }

    /// The vector that the dependencies were kept in.
    pub fn into_vec(self) -> Vec<Dep>
        ensures { result.items ≡ self }
    {
        let Deps { items } = self;
        items
    }

    pub fn len(&self) -> u32
        ensures { result ≡ length self.now }
    {
        self.items.len() as u32
    }

    /// The dependency at a place; `None` exactly past the end.
    pub fn at(&self, i: u32) -> Option<&Dep>
        ensures { option_copied result ≡ slice_get self.now i }
    {
        self.items.get(i as usize)
    }

    pub fn as_slice(&self) -> &[Dep]
        ensures { result.now ≡ self.now }
    {
        self.items.as_slice()
    }
}
