//! What one load is to those who only look.
ghost use Rattle.std.specs.Prelude.{◌≡◌, ℕ, List, [], ◌∷◌, ◌++◌, Option, IfSome, slice_index};

/// One load of one word. An index past the board's end has 0.
pub trait Look {
    /// The words of the board, where they are told.
    ghost image: { Self → Option (List ℕ) };

    /// From the first to the second, these reads were made, and nothing else was done.
    ghost looked: { Self → List (ℕ × ℕ) → Self → Type 0 };

    /// Where the image is told, it answers the image's word. What is told stays.
    fn look(&mut self, index: u32) -> u64
        ensures value { IfSome (image self.old) (λ words. result ≡ slice_index words index) }
        ensures same { image self.new ≡ image self.old }
        ensures looked { looked self.old ((index, result) ∷ []) self.new };

    /// No read was made.
    ghost stays: { (a : Self) → looked a [] a };

    /// Reads were made, and then others.
    ghost goes_on: { (a b c : Self) (reads later : List (ℕ × ℕ)) → looked a reads b → looked b later c → looked a (reads ++ later) c };
}
