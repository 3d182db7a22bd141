//! The kinds of step on the table, and what each tells.
ghost use Rattle.std.specs.Prelude.{ℕ};
ghost use Rattle.hc_board.specs.Rule.{spent_view};
ghost use Rattle.hc_board.specs.Steps.{loaded, stored, noted, noted_past, checked, begun, gone_on, met_with};

use crate::rule::View;
use atomic_table::{Join, Play, Split};
use std::marker::{Brand, PhantomData};

/// The writer's load.
pub(crate) struct Load;

impl Play<(), View> for Load {
    ghost then = { loaded };
}

/// The writer's store.
pub(crate) struct Store;

impl Play<(), View> for Store {
    ghost then = { stored };
}

/// A reader's load.
pub(crate) struct Note;

impl Play<(), View> for Note {
    ghost then = { noted };
}

/// The index that a look asks.
pub(crate) trait Asked {
    ghost index: { ℕ };
}

impl Asked for Brand {
    ghost index = { 0 };
}

/// A reader's load past the board's end.
pub(crate) struct NotePast<I> {
    asked: PhantomData<I>,
}

impl<I: Asked> Play<(), View> for NotePast<I> {
    ghost then = { noted_past I.index };
}

/// The load after a join.
pub(crate) struct Check;

impl Play<(), View> for Check {
    ghost then = { checked };
}

/// The split that makes a reader.
pub(crate) struct Begin;

impl Split<View> for Begin {
    ghost left = { λ v. v };

    ghost right = { begun };
}

/// The split that lets the reader met last go on.
pub(crate) struct GoOn;

impl Split<View> for GoOn {
    ghost left = { λ v. v };

    ghost right = { gone_on };
}

/// The join that takes a reader back.
pub(crate) struct Meet;

impl Join<View> for Meet {
    ghost both = { met_with };

    ghost spent = { spent_view };
}
