//! The regions of the board, and how many items of each it has.
ghost use Rattle.std.specs.Prelude.{◌≡◌, ◌*◌, ◌<◌, ◌≤◌, ◌↔◌, IsTrue};
ghost use Rattle.hc_layout.specs.Shape.{IsShape, items_of, item_words, start_of, words_of};

/// The regions of the board, in the order in which they lie on it.
#[derive(Clone, Copy)]
pub enum Region {
    Maps,
    Entries,
    Fields,
    Links,
    Objects,
    Slots,
    Cells,
}

impl Region {
    /// The number of words that an item has.
    #[inline]
    pub fn item_words(self) -> u32
        ensures { result ≡ item_words self }
    {
        match self {
            Region::Maps => 7,
            Region::Entries => 2,
            Region::Fields => 2,
            Region::Links => 3,
            Region::Objects => 4,
            Region::Slots => 1,
            Region::Cells => 1,
        }
    }
}

/// How many items each region of a board has.
#[derive(Clone, Copy)]
pub struct Shape {
    pub maps: u32,
    pub entries: u32,
    pub fields: u32,
    pub links: u32,
    pub objects: u32,
    pub slots: u32,
    pub cells: u32,
}

/// The largest shape, in which scripts run.
pub const USUAL: Shape = Shape {
    maps: 65_536,
    entries: 1_048_576,
    fields: 262_144,
    links: 65_536,
    objects: 65_536,
    slots: 4_194_304,
    cells: 65_536,
};

/// A shape that tests fill quickly.
pub const SMALL: Shape = Shape {
    maps: 4,
    entries: 64,
    fields: 16,
    links: 16,
    objects: 8,
    slots: 64,
    cells: 2,
};

impl Shape {
    pub fn usual() -> Shape
        ensures value { result ≡ USUAL }
        ensures fits { IsShape result }
    {
        USUAL
    }

    pub fn small() -> Shape
        ensures value { result ≡ SMALL }
        ensures fits { IsShape result }
    {
        SMALL
    }

    /// Whether there is an object at least, and no region has more items than the usual shape.
    pub fn fits(&self) -> bool
        ensures { IsTrue result ↔ IsShape self.now }
    {
        0 < self.objects
            && self.maps <= USUAL.maps
            && self.entries <= USUAL.entries
            && self.fields <= USUAL.fields
            && self.links <= USUAL.links
            && self.objects <= USUAL.objects
            && self.slots <= USUAL.slots
            && self.cells <= USUAL.cells
    }

    /// How many items a region has.
    #[inline]
    pub fn items(&self, region: Region) -> u32
        ensures { result ≡ items_of self.now region }
    {
        match region {
            Region::Maps => self.maps,
            Region::Entries => self.entries,
            Region::Fields => self.fields,
            Region::Links => self.links,
            Region::Objects => self.objects,
            Region::Slots => self.slots,
            Region::Cells => self.cells,
        }
    }

    /// The number of words of a region.
    fn size(&self, region: Region) -> u32
        requires { IsShape self.now }
        ensures { result ≡ items_of self.now region * item_words region }
    {
        self.items(region) * region.item_words()
    }

    /// The index of the first word of a region.
    pub(crate) fn start(&self, region: Region) -> u32
        requires { IsShape self.now }
        ensures { result ≡ start_of self.now region }
    {
        match region {
            Region::Maps => 0,
            Region::Entries => self.size(Region::Maps),
            Region::Fields => self.size(Region::Maps) + self.size(Region::Entries),
            Region::Links => self.before_links(),
            Region::Objects => self.before_links() + self.size(Region::Links),
            Region::Slots => self.before_slots(),
            Region::Cells => self.before_slots() + self.size(Region::Slots),
        }
    }

    fn before_links(&self) -> u32
        requires { IsShape self.now }
        ensures { result ≡ start_of self.now Region.Links }
    {
        self.size(Region::Maps) + self.size(Region::Entries) + self.size(Region::Fields)
    }

    fn before_slots(&self) -> u32
        requires { IsShape self.now }
        ensures { result ≡ start_of self.now Region.Slots }
    {
        self.before_links() + self.size(Region::Links) + self.size(Region::Objects)
    }

    /// The number of words of the board.
    pub fn words(&self) -> u32
        requires { IsShape self.now }
        ensures value { result ≡ words_of self.now }
        ensures some { 0 < result }
    {
        self.start(Region::Cells) + self.size(Region::Cells)
    }
}
