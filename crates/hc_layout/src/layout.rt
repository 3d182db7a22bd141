//! A shape with the places where its regions begin, for who asks for many indexes.
ghost use Rattle.std.specs.Prelude.{◌≡◌, ℕ, ◌<◌, Some};
ghost use Rattle.hc_layout.specs.Shape.{IsShape, start_of, items_of, words_of};
ghost use Rattle.hc_layout.specs.Place.{IsPlace, index_of, place_of};

use crate::place::Place;
use crate::shape::{Region, Shape};
use std::marker::Model;

/// Where each region but the first begins, and the end of the board.
#[derive(Clone, Copy)]
pub(crate) struct Starts {
    pub(crate) entries: u32,
    pub(crate) fields: u32,
    pub(crate) links: u32,
    pub(crate) objects: u32,
    pub(crate) slots: u32,
    pub(crate) cells: u32,
    pub(crate) end: u32,
}

/// A shape whose starts of regions were computed once.
#[derive(Drop)]
pub struct Layout {
    shape: Shape,
    starts: Starts,
}

impl Model for Layout {
    ghost use Rattle.hc_layout.specs.declared.shape.Shape.{Shape};
    ghost use Rattle.hc_layout.specs.Layout.{AreStarts};

    ghost Value = { Shape };

    ghost view = { λ l. l.shape };

    ghost invariant = { λ l. AreStarts l.shape l.starts };
}

impl Layout {
    pub fn new(shape: Shape) -> Layout
        requires { IsShape shape }
        ensures { result ≡ shape }
    {
        let starts = Starts {
            entries: shape.start(Region::Entries),
            fields: shape.start(Region::Fields),
            links: shape.start(Region::Links),
            objects: shape.start(Region::Objects),
            slots: shape.start(Region::Slots),
            cells: shape.start(Region::Cells),
            end: shape.words(),
        };
        Layout { shape, starts }
    }

    /// How many items a region has.
    #[inline]
    pub fn items(&self, region: Region) -> u32
        ensures { result ≡ items_of self.now region }
    {
        self.shape.items(region)
    }

    /// The number of words of the board.
    #[inline]
    pub fn words(&self) -> u32
        ensures { result ≡ words_of self.now }
    {
        self.starts.end
    }

    /// The index of the first word of a region.
    #[inline]
    fn start(&self, region: Region) -> u32
        ensures value { result ≡ start_of self.now region }
        ensures shape { IsShape self.now }
    {
        match region {
            Region::Maps => 0,
            Region::Entries => self.starts.entries,
            Region::Fields => self.starts.fields,
            Region::Links => self.starts.links,
            Region::Objects => self.starts.objects,
            Region::Slots => self.starts.slots,
            Region::Cells => self.starts.cells,
        }
    }

    /// The index of a place.
    #[inline]
    pub fn index(&self, p: Place) -> u32
        requires { IsPlace self.now p }
        ensures value { result ≡ index_of self.now p }
        ensures within { result < words_of self.now }
        ensures back { place_of self.now result ≡ Some p }
    {
        self.start(p.region) + p.item * p.region.item_words() + p.word
    }
}
