//! What a site does, and how it answers for one map.
use crate::lists::Chain;
use hc_value::{Class, Rep};

/// Whether a site reads a property or writes it.
#[derive(Clone, Copy, PartialEq, Eq)]
pub enum Op {
    Load,
    Store,
}

/// A place of a program that reads or writes properties of one name.
#[derive(Clone, Copy)]
pub struct Site {
    pub op: Op,
    pub name: u32,
}

/// How a site answers for one map. Slots are counted from an object's first.
#[derive(Clone, Copy, PartialEq, Eq)]
pub enum Way {
    /// A load of the receiver's own data property.
    Own {
        slot: u32,
        field: u32,
        rep: Rep,
    },
    /// A load of a data property of an object of the chain.
    Holder {
        object: u32,
        slot: u32,
        field: u32,
        rep: Rep,
    },
    /// The same, where the property has only ever had this word.
    Constant {
        object: u32,
        slot: u32,
        field: u32,
        rep: Rep,
        word: u64,
    },
    /// A load of a property that no object of the chain has.
    Absent,
    /// A load of an accessor property, of an object of the chain or of the receiver itself.
    Getter {
        object: Option<u32>,
        slot: u32,
    },
    /// A store to the receiver's own data property.
    StoreOwn {
        slot: u32,
        field: u32,
        rep: Rep,
        class: Class,
    },
    /// A store that adds a property, by the move to a child of the map.
    Add {
        child: u32,
        slot: u32,
        field: u32,
        rep: Rep,
        class: Class,
    },
    /// A store to an accessor property, of an object of the chain or of the receiver itself.
    Setter {
        object: Option<u32>,
        slot: u32,
    },
    /// A store that a property which is only read refuses.
    Reject,
}

/// The answer for the receivers of one map, and the objects that were passed on the way to it.
#[derive(Drop)]
pub struct Case {
    pub map: u32,
    pub chain: Chain,
    pub way: Way,
}
