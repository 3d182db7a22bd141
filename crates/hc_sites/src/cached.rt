/// How an inline cache answers. Entries are counted from an object's first.
#[derive(Clone, Copy, PartialEq, Eq)]
pub enum CacheWay {
    /// By the receiver's own entry at a place.
    Own(u32),
    /// By an object of the chain, and its entry at a place.
    Holder(u32, u32),
    /// No object of the chain has the property.
    Absent,
}

/// What an inline cache holds: the map that it answers for, the way, and the cell that has to be valid.
#[derive(Clone, Copy, PartialEq, Eq)]
pub struct Cached {
    pub map: u32,
    pub way: CacheWay,
    pub cell: Option<u32>,
}
