ghost use Rattle.std.specs.Prelude.{◌≡◌, ◌<◌, ◌^◌, ℕ, List, length, vec_len, option_map, slice_get};
ghost use Rattle.std.specs.Option.{option_copied};

use std::marker::Model;

/// A list of property names, each by its number.
#[derive(Debug, Drop)]
pub struct Names32 {
    items: Vec<u32>,
}

impl Model for Names32 {
    ghost use Rattle.std.specs.Prelude.{◌<◌, ◌^◌, ℕ, List, length};

    ghost Value = { List ℕ };

    ghost view = { λ names. names.items.items };

    ghost invariant = { λ names. length names.items.items < 2 ^ 32 };
}

impl Names32 {
    /// The names of a vector, which is kept as it is.
    pub fn from_vec(items: Vec<u32>) -> Names32
        requires { vec_len items < 2 ^ 32 }
        ensures { result ≡ items.items }
    {
        Names32 { items }
    }

    /// The vector that the names were kept in.
    pub fn into_vec(self) -> Vec<u32>
        ensures { result.items ≡ self }
    {
        let Names32 { items } = self;
        items
    }

    pub fn len(&self) -> u32
        ensures { result ≡ length self.now }
    {
        self.items.len() as u32
    }

    /// The name at a place; `None` exactly past the end.
    pub fn at(&self, i: u32) -> Option<&u32>
        ensures { option_copied result ≡ slice_get self.now i }
    {
        self.items.get(i as usize)
    }
}
