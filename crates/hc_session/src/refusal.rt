ghost use Rattle.std.specs.Prelude.{◌≡◌, ◌++◌, OnOk};
ghost use Rattle.std.specs.Fmt.{decimal};
ghost use Rattle.hc_session.specs.Fault.{what_text, refusal_line};

use hc_script::What;
use hc_value::Memory;
use itoa::Buffer;

/// Puts the line of a refusal behind a text.
pub fn render_refusal(out: &mut Vec<u8>, n: u64, what: What) -> Result<(), Memory>
    ensures ok { OnOk result (out.new.items ≡ out.old.items ++ refusal_line n what) }
{
    push_text(out, b"! line ")?;
    push_number(out, n)?;
    push_text(out, b" ")?;
    push_what(out, what)?;
    push_text(out, b"\n")
}

fn push_what(out: &mut Vec<u8>, what: What) -> Result<(), Memory>
    ensures ok { OnOk result (out.new.items ≡ out.old.items ++ what_text what) }
{
    match what {
        What::Form => push_text(out, b"form"),
        What::Long => push_text(out, b"long"),
        What::Size => push_text(out, b"size"),
        What::Names => push_text(out, b"names"),
        What::Unbuilt => push_text(out, b"unbuilt"),
    }
}

fn push_text(out: &mut Vec<u8>, text: &[u8]) -> Result<(), Memory>
    ensures ok { OnOk result (out.new.items ≡ out.old.items ++ text.now) }
{
    out.extend_from_slice(text)?;
    Ok(())
}

fn push_number(out: &mut Vec<u8>, n: u64) -> Result<(), Memory>
    ensures ok { OnOk result (out.new.items ≡ out.old.items ++ decimal n) }
{
    let mut buffer = Buffer::new();
    push_text(out, buffer.format(n).as_bytes())
}
