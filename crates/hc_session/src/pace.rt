//! What runs between two stores.
use hc_board::Writer;
use hc_heap::Pace;

/// The pace of a session whose jobs read where its script says.
#[derive(Drop)]
pub struct Scripted;

impl Pace for Scripted {
    ghost use Rattle.std.specs.Prelude.{⊤};
    ghost use Rattle.hc_session.specs.State.{any_pace};

    ghost fits = { λ _ _. ⊤ };

    ghost went = { any_pace };

    fn wrote(&mut self, _writer: &mut Writer) {}

    ghost stays = { λ _ _. tt };

    ghost goes_on = { λ _ _ _ _ _ _ _ _. tt };
}
