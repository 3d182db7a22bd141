//! What the definitions of the script say of every line, for proofs above.
ghost use Rattle.std.specs.Prelude.{◌≡◌, ℕ, List};
ghost use Rattle.hc_commands.specs.declared.command.Command.{Command};
ghost use Rattle.hc_script.specs.GeneratorWords.{AskForScript};
ghost use Rattle.hc_script.specs.Reading.{Position, IsPassed, IsAsked, IsRefused};
ghost use Rattle.hc_script.specs.declared.fault.What.{What};

pub use hc_commands::laws::commands_are_named;
use hc_commands::laws::forms_are_told_apart;

/// A line that lies behind these names means one thing: it is passed over, or asks for one command, or is refused by
/// one word.
pub fn lines_have_one_meaning()
    ensures asked { (at : Position) (line : List ℕ) (c d : Command) (after behind : Position)
        → IsAsked at line c after → IsAsked at line d behind → (c ≡ d) × (after ≡ behind) }
    ensures refused { (at : Position) (line : List ℕ) (what why : What)
        → IsRefused at line what → IsRefused at line why → what ≡ why }
    ensures passed_or_asked { (at : Position) (line : List ℕ) (c : Command) (after behind : Position)
        → IsPassed at line after → IsAsked at line c behind → ⊥ }
    ensures passed_or_refused { (at : Position) (line : List ℕ) (after : Position) (what : What)
        → IsPassed at line after → IsRefused at line what → ⊥ }
    ensures asked_or_refused { (at : Position) (line : List ℕ) (c : Command) (after : Position) (what : What)
        → IsAsked at line c after → IsRefused at line what → ⊥ }
    // There is no other line.
    ensures some_meaning { (at : Position) (line : List ℕ)
        → ((after : Position) → IsPassed at line after → ⊥)
        → ((c : Command) (after : Position) → IsAsked at line c after → ⊥)
        → ((what : What) → IsRefused at line what → ⊥)
        → ⊥ }
{
    forms_are_told_apart();
}

/// Words ask for one script at most that is made from a number.
pub fn words_ask_for_one_script()
    ensures { (words : List (List ℕ)) (n m start begin : ℕ) → AskForScript words n start → AskForScript words m begin
        → (n ≡ m) × (start ≡ begin) }
{}
