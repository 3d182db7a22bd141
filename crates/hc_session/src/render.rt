//! The lines of the answer to a command.
ghost use Rattle.std.specs.Prelude.{◌≡◌, ◌+◌, ◌<◌, ◌++◌, drop, length, OnOk};
ghost use Rattle.hc_report.specs.Named.{IsNamedReply};
ghost use Rattle.hc_session.specs.Logging.{log_text};
ghost use Rattle.hc_session.specs.Plain.{answer_text};

use hc_names::Names;
use hc_report::{Log, render_log, render_reply};
use hc_value::{Memory, Reply};

/// Puts the lines of the log from a place on behind a text, and then the line of a reply.
pub fn render_answer(
    out: &mut Vec<u8>,
    log: &Log,
    from: u64,
    names: &Names,
    reply: &Reply,
) -> Result<(), Memory>
    requires named { IsNamedReply (length names.now) reply.now }
    ensures ok { OnOk result (out.new.items ≡ out.old.items ++
        answer_text names.now (record { log = log_text (drop from log.now.lines); reply = reply.now })) }
{
    render_lines(out, log, from)?;
    render_reply(out, names, reply)
}

// The lines of the log from a place on.
fn render_lines(out: &mut Vec<u8>, log: &Log, from: u64) -> Result<(), Memory>
    ensures ok { OnOk result (out.new.items ≡ out.old.items ++ log_text (drop from log.now.lines)) }
{
    for i in from..log.len() {
        render_line(out, log, i)?;
    }
    Ok(())
}

// The line at a place.
fn render_line(out: &mut Vec<u8>, log: &Log, i: u64) -> Result<(), Memory>
    requires there { i < length log.now.lines }
    ensures ok { OnOk result (out.new.items ++ log_text (drop (i + 1) log.now.lines) ≡ out.old.items ++ log_text (drop i log.now.lines)) }
{
    let Some(entry) = log.at(i) else {
        unreachable!();
    };
    render_log(out, &entry.1)?;
    Ok(())
}
