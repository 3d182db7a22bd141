ghost use Rattle.std.specs.Prelude.{◌≡◌, ◌<◌, ◌^◌, ℕ, List, length, slice_get};
ghost use Rattle.std.specs.Option.{option_copied};

use std::marker::Model;

/// Bytes in order.
#[derive(Debug, Drop)]
pub struct Bytes {
    items: Vec<u8>,
}

impl Model for Bytes {
    ghost use Rattle.std.specs.Prelude.{ℕ, List};

    ghost Value = { List ℕ };

    ghost view = { λ bytes. bytes.items.items };
}

impl Bytes {
    /// The bytes of a vector, which is kept as it is.
    pub fn from_vec(items: Vec<u8>) -> Bytes
        ensures { result ≡ items.items }
    {
        Bytes { items }
    }

    /// The vector that the bytes were kept in.
    pub fn into_vec(self) -> Vec<u8>
        ensures { result.items ≡ self }
    {
        let Bytes { items } = self;
        items
    }
}

/// The most bytes of each read in turn.
#[derive(Debug, Drop)]
pub struct Cuts {
    items: Vec<usize>,
}

impl Model for Cuts {
    ghost use Rattle.std.specs.Prelude.{ℕ, List};

    ghost Value = { List ℕ };

    ghost view = { λ cuts. cuts.items.items };
}

impl Cuts {
    /// The cuts of a vector, which is kept as it is.
    pub fn from_vec(items: Vec<usize>) -> Cuts
        ensures { result ≡ items.items }
    {
        Cuts { items }
    }

    /// The vector that the cuts were kept in.
    pub fn into_vec(self) -> Vec<usize>
        ensures { result.items ≡ self }
    {
        let Cuts { items } = self;
        items
    }
}

/// Some of the calls of a source or a sink, counted from 1.
#[derive(Debug, Drop)]
pub struct Calls {
    items: Vec<u64>,
}

impl Model for Calls {
    ghost use Rattle.std.specs.Prelude.{ℕ, List};

    ghost Value = { List ℕ };

    ghost view = { λ calls. calls.items.items };
}

impl Calls {
    /// The calls of a vector, which is kept as it is.
    pub fn from_vec(items: Vec<u64>) -> Calls
        ensures { result ≡ items.items }
    {
        Calls { items }
    }

    /// The vector that the calls were kept in.
    pub fn into_vec(self) -> Vec<u64>
        ensures { result.items ≡ self }
    {
        let Calls { items } = self;
        items
    }
}
