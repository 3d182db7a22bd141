//! Where the search for the answer of one map stands: which word it looks at next.
use hc_question::Answer;
use hc_value::Rep;

/// The next look, or the answer.
#[derive(Clone, Copy)]
pub enum At {
    Map(MapLook),
    Chain(ChainLook),
    Field(FieldLook),
    Link(LinkLook),
    Ended(Answer),
    /// A word wasn't what it has to be: nothing is told.
    Stopped,
}

/// Which map's entries are searched.
#[derive(Clone, Copy)]
pub enum Searched {
    /// The receiver's own.
    Own,
    /// An object's of the chain, after which the chain goes on from a prototype, to so many objects at most.
    Holder {
        object: u32,
        proto: Option<u32>,
        left: u32,
    },
}

/// At words of the map itself, and at the entries of a map.
#[derive(Clone, Copy)]
pub enum MapLook {
    Bits,
    Gate,
    Proto,
    /// The first entry of a map.
    Base {
        searched: Searched,
        map: u32,
        entries: u32,
    },
    /// The key of an entry, of a map whose entries begin with the first; so many are left after it.
    Key {
        searched: Searched,
        first: u32,
        entry: u32,
        left: u32,
    },
}

/// At an object of the chain, and at its map. So many objects may follow it.
#[derive(Clone, Copy)]
pub enum ChainLook {
    Object {
        object: u32,
        left: u32,
    },
    Gate {
        object: u32,
        holder: u32,
        left: u32,
    },
    Proto {
        object: u32,
        holder: u32,
        entries: u32,
        left: u32,
    },
}

/// What a field is looked at for.
#[derive(Clone, Copy)]
pub enum Purpose {
    LoadOwn { slot: u32 },
    LoadHeld { object: u32, slot: u32 },
    StoreOwn { slot: u32 },
    Add { child: u32, slot: u32 },
}

/// At the field of an entry, and at a constant's word.
#[derive(Clone, Copy)]
pub enum FieldLook {
    Reference {
        purpose: Purpose,
        entry: u32,
    },
    Detail {
        purpose: Purpose,
        field: u32,
    },
    Store {
        object: u32,
        slot: u32,
        field: u32,
        rep: Rep,
    },
    /// The word of a slot that stands so far after the object's first.
    Slot {
        object: u32,
        slot: u32,
        field: u32,
        rep: Rep,
        start: u32,
    },
}

/// At the links of the map, and at the child of the one that was sought.
#[derive(Clone, Copy)]
pub enum LinkLook {
    Head,
    /// The key of a link, after which so many may follow.
    Key { link: u32, left: u32 },
    Next { link: u32, left: u32 },
    Child { link: u32 },
    Bits { child: u32 },
    Gate { child: u32 },
    Base { child: u32, slot: u32 },
    /// The field of the entry that stands so far after the child's first.
    Reference { child: u32, slot: u32, first: u32 },
}
