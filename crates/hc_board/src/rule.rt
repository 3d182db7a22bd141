//! The table of the board's words, what a seat at it knows, and its rule.
ghost use Rattle.std.specs.Prelude.{ℕ, Bool, List};
ghost use Rattle.std.specs.Borrow.{ftrue};
ghost use Rattle.hc_board.specs.Parts.{Part};

use atomic_table::TableRule;
use std::alloc::Global;
use std::marker::Model;

/// What a seat knows. No value of it is made.
pub struct View {
    pub ghost writes: { Bool },
    pub ghost reads: { Bool },
    pub ghost width: { ℕ },
    // The writer's: its stores, the number of its loads, and the readers that it met.
    pub ghost trail: { List (ℕ × ℕ) },
    pub ghost loads: { ℕ },
    pub ghost met: { List (List Part) },
    // A reader's: the parts that ended, where the last one began, and its reads.
    pub ghost parts: { List Part },
    pub ghost begin: { ℕ },
    pub ghost last: { List (ℕ × ℕ) },
}

impl Model for View {
    ghost also_owns = { λ _. ftrue };
}

/// The board's rule, told the number of words.
pub struct BoardRule;

impl TableRule<(), View, u64> for BoardRule {
    ghost use Rattle.hc_board.specs.Rule.{Ruled, first_view};

    ghost holds = { λ _. Ruled };

    ghost first = { first_view };
}

pub(crate) type Words = atomic_table::Table<(), View, u64, BoardRule, Global>;

pub(crate) type Shared = atomic_table::Shared<(), View, u64, BoardRule>;

pub(crate) type Seat = atomic_table::Seat<(), View>;
