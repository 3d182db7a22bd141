#![tactic(auto, using(crate::proofs::Fronts::fronts))]

ghost use Rattle.std.specs.Prelude.{◌≡◌, ◌<◌, ◌++◌, All, codes, length, map, slice_index, OnOk};
ghost use Rattle.hc_report.specs.Front.{BeginsWith};
ghost use Rattle.hc_report.specs.Text.{named, spaced};

use crate::text::{push_name, push_text};
use hc_names::Names;
use hc_value::{Memory, Names32};

/// Names between brackets.
pub fn push_list(out: &mut Vec<u8>, names: &Names, list: &Names32) -> Result<(), Memory>
    requires { All (λ name. name < length names.now) list.now }
    ensures ok { OnOk result (out.new.items ≡ out.old.items ++
        (codes "[" ++ spaced (map (named names.now) list.now) ++ codes "]")) }
    ensures kept { BeginsWith out.new.items out.old.items }
{
    push_text(out, b"[")?;
    push_names(out, names, list)?;
    push_text(out, b"]")
}

// Names parted by spaces.
fn push_names(out: &mut Vec<u8>, names: &Names, list: &Names32) -> Result<(), Memory>
    requires { All (λ name. name < length names.now) list.now }
    ensures ok { OnOk result (out.new.items ≡ out.old.items ++ spaced (map (named names.now) list.now)) }
    ensures kept { BeginsWith out.new.items out.old.items }
{
    for i in 0..list.len() {
        if i > 0 {
            push_text(out, b" ")?;
        }
        push_nth(out, names, list, i)?;
    }
    Ok(())
}

// The name at a place.
fn push_nth(out: &mut Vec<u8>, names: &Names, list: &Names32, i: u32) -> Result<(), Memory>
    requires there { i < length list.now }
    requires named { All (λ name. name < length names.now) list.now }
    ensures ok { OnOk result (out.new.items ≡ out.old.items ++ named names.now (slice_index list.now i)) }
    ensures kept { BeginsWith out.new.items out.old.items }
{
    let Some(n) = list.at(i) else {
        unreachable!();
    };
    push_name(out, names, *n)
}
