//! `hiddenclass`: replays a script of property operations from standard input, and writes the replies.
#![tactic(auto)]

mod adapters;

use adapters::{Output, StdSink, StdSource, send};
use hc_layout::Shape;
use hc_script::Status;
use hc_session::{Session, replay};
use std::cell::RefCell;
use std::io;
use std::io::ErrorKind;
use std::process::ExitCode;
use std::rt::Env;

fn main(rt: HostRuntime) -> ExitCode {
    let Ok(words) = words_of(&rt) else {
        return ExitCode::from(Status::Memory.number());
    };
    let Ok(mut session) = Session::scripted(rt.alloc(), Shape::usual()) else {
        return ExitCode::from(Status::Memory.number());
    };
    let Ok(output) = Output::new(rt.alloc(), rt.stdout()) else {
        return ExitCode::from(Status::Memory.number());
    };
    let output = RefCell::new(output);
    let mut source = StdSource::new(rt.stdin(), &output);
    let mut sink = StdSink::new(&output);
    let status = replay(&words, &mut source, &mut sink, &mut session);
    // The last replies go out here: a failure is told as one of the sink's.
    let status = if send(&output).is_ok() {
        status
    } else {
        Status::WriteFault
    };
    ExitCode::from(status.number())
}

// The words behind the program's name. Words that aren't UTF-8 are of no stated form, as are no words at all.
fn words_of<R: Env + AllocGlobal>(rt: &R) -> io::Result<Vec<String>> {
    let mut words = Vec::new(rt.alloc());
    let all = match std::env::args(rt) {
        Ok(all) => all,
        Err(error) if error.kind() == ErrorKind::InvalidData => return Ok(words),
        Err(error) => return Err(error),
    };
    for word in all.skip(1) {
        words.push(word)?;
    }
    Ok(words)
}
