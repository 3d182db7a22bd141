//! What the definitions of names say of every list of texts, for proofs above.
ghost use Rattle.std.specs.Prelude.{◌≡◌, ℕ, ◌<◌, List, Some, length, slice_get, IsTrue};
ghost use Rattle.hc_names.specs.Names.{has_text, number_of, with_text, HasNoRepeats, KeepsNumbers};

/// The number of a text that is there is below the length, and names that text.
pub fn present_text_is_named()
    ensures below { (names : List (List ℕ)) (text : List ℕ) → IsTrue (has_text names text) → number_of names text < length names }
    ensures named { (names : List (List ℕ)) (text : List ℕ) → IsTrue (has_text names text) → slice_get names (number_of names text) ≡ Some text }
{}

/// A text with a number is there, and where no text repeats that number is its own.
pub fn named_text_is_present()
    ensures present { (names : List (List ℕ)) (n : ℕ) (text : List ℕ) → slice_get names n ≡ Some text → IsTrue (has_text names text) }
    ensures number { (names : List (List ℕ)) (n : ℕ) (text : List ℕ) → HasNoRepeats names → slice_get names n ≡ Some text → number_of names text ≡ n }
{}

/// Interning keeps each number, keeps the names without repeats, and gives the text its number.
pub fn interning_keeps_names()
    ensures kept { (names : List (List ℕ)) (text : List ℕ) → KeepsNumbers names (with_text names text) }
    ensures distinct { (names : List (List ℕ)) (text : List ℕ) → HasNoRepeats names → HasNoRepeats (with_text names text) }
    ensures named { (names : List (List ℕ)) (text : List ℕ) → slice_get (with_text names text) (number_of names text) ≡ Some text }
{}
