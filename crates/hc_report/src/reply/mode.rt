#![tactic(auto, using(crate::proofs::Fronts::fronts))]

ghost use Rattle.std.specs.Prelude.{◌≡◌, ◌++◌, OnOk};
ghost use Rattle.hc_report.specs.Front.{BeginsWith};
ghost use Rattle.hc_report.specs.Text.{proto_text, cause_text, mode_text};

use crate::text::{push_numbered, push_object, push_text};
use hc_value::{Cause, Memory, Mode};

/// A prototype.
pub fn push_proto(out: &mut Vec<u8>, proto: Option<u32>) -> Result<(), Memory>
    ensures ok { OnOk result (out.new.items ≡ out.old.items ++ proto_text proto) }
    ensures kept { BeginsWith out.new.items out.old.items }
{
    match proto {
        Some(o) => push_object(out, o),
        None => push_text(out, b"null"),
    }
}

/// How an object is kept.
pub fn push_mode(out: &mut Vec<u8>, mode: Mode) -> Result<(), Memory>
    ensures ok { OnOk result (out.new.items ≡ out.old.items ++ mode_text mode) }
    ensures kept { BeginsWith out.new.items out.old.items }
{
    match mode {
        Mode::Fast(n) => push_numbered(out, b"fast ", n),
        Mode::Slow(cause) => {
            push_text(out, b"slow ")?;
            push_cause(out, cause)
        }
    }
}

fn push_cause(out: &mut Vec<u8>, cause: Cause) -> Result<(), Memory>
    ensures ok { OnOk result (out.new.items ≡ out.old.items ++ cause_text cause) }
    ensures kept { BeginsWith out.new.items out.old.items }
{
    match cause {
        Cause::Deleted => push_text(out, b"deleted"),
        Cause::Many => push_text(out, b"many"),
        Cause::Reconfigured => push_text(out, b"reconfigured"),
        Cause::Space => push_text(out, b"space"),
    }
}
