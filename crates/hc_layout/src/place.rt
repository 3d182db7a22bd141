//! The places of the board, each with its index.
ghost use Rattle.std.specs.Prelude.{◌≡◌, ℕ, ◌+◌, ◌<◌, ◌≤◌, ◌↔◌, IsSome, IfSome, Some, None};
ghost use Rattle.hc_layout.specs.Shape.{IsShape, words_of, start_of, items_of, item_words};
ghost use Rattle.hc_layout.specs.Place.{IsPlace, index_of, place_of, region_of};

use crate::shape::{Region, Shape};

/// A word of an item of a region.
#[derive(Clone, Copy)]
pub struct Place {
    pub region: Region,
    pub item: u32,
    pub word: u32,
}

impl Shape {
    pub fn index(&self, p: Place) -> u32
        requires shape { IsShape self.now }
        requires place { IsPlace self.now p }
        ensures value { result ≡ index_of self.now p }
        ensures within { result < words_of self.now }
        ensures back { place_of self.now result ≡ Some p }
        ensures alone { (i : ℕ) → place_of self.now i ≡ Some p → i ≡ result }
    {
        self.start(p.region) + p.item * p.region.item_words() + p.word
    }

    pub fn place(&self, i: u32) -> Option<Place>
        requires { IsShape self.now }
        ensures value { result ≡ place_of self.now i }
        ensures there { IsSome result ↔ (i < words_of self.now) }
        ensures back { IfSome result (λ p. IsPlace self.now p) }
        ensures index { IfSome result (λ p. index_of self.now p ≡ i) }
    {
        let region = self.region(i)?;
        let rest = i - self.start(region);
        let words = region.item_words();
        Some(Place {
            region,
            item: rest / words,
            word: rest % words,
        })
    }

    /// The region in which the word at an index lies.
    #[tactic(auto, unfolding(crate::specs::Place::region_of))]
    fn region(&self, i: u32) -> Option<Region>
        requires { IsShape self.now }
        ensures { result ≡ region_of self.now i }
    {
        if i < self.start(Region::Entries) {
            Some(Region::Maps)
        } else if i < self.start(Region::Fields) {
            Some(Region::Entries)
        } else if i < self.start(Region::Links) {
            Some(Region::Fields)
        } else if i < self.start(Region::Objects) {
            Some(Region::Links)
        } else if i < self.start(Region::Slots) {
            Some(Region::Objects)
        } else if i < self.start(Region::Cells) {
            Some(Region::Slots)
        } else if i < self.words() {
            Some(Region::Cells)
        } else {
            None
        }
    }
}
