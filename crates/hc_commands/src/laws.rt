//! What the definitions of commands say of every form and of every list of names, for proofs above.
ghost use Rattle.std.specs.Prelude.{◌≡◌, ◌≤◌, ℕ, List, length, true};
ghost use Rattle.hc_commands.specs.Values.{WrittenValue, IsWrittenValue, value_word};
ghost use Rattle.hc_commands.specs.Verbs.{verb_word, IsBuilt};
ghost use Rattle.hc_commands.specs.Grammar.{Form, is_built_form, IsForm, IsSpelled, command_of, names_after};
ghost use Rattle.hc_commands.specs.Numbers.{IsCommandBelow};
ghost use Rattle.hc_commands.specs.Words.{ArePlain};
ghost use Rattle.hc_commands.specs.declared.verb.Verb.{Verb};

use hc_names::laws::interning_keeps_names;

/// Words are those of one form at most.
pub fn forms_are_told_apart()
    ensures values { (v w : WrittenValue) → IsWrittenValue v → IsWrittenValue w → value_word v ≡ value_word w → v ≡ w }
    ensures verbs { (v w : Verb) → verb_word v ≡ verb_word w → v ≡ w }
    ensures forms { (f g : Form) (words : List (List ℕ)) → IsForm f → IsForm g → IsSpelled f words → IsSpelled g words → f ≡ g }
{}

/// A command that is asked for keeps the names, has its numbers among those after it, and is built.
pub fn commands_are_named()
    ensures grow { (names : List (List ℕ)) (f : Form) → length names ≤ length (names_after names f) }
    ensures below { (names : List (List ℕ)) (f : Form) → IsForm f → IsCommandBelow (length (names_after names f)) (command_of names f) }
    ensures built { (names : List (List ℕ)) (f : Form) → is_built_form f ≡ true → IsBuilt (command_of names f) }
{
    interning_keeps_names();
}

/// The words of a command have plain bytes alone.
pub fn commands_are_plain()
    ensures { (f : Form) (words : List (List ℕ)) → IsForm f → IsSpelled f words → ArePlain words }
{}
