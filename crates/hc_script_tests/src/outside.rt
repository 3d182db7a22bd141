use hc_script::{
    Bytes, Calls, Command, Cuts, MemSink, MemSource, Script, ScriptFault, Sink, Source, laws,
};
use std::alloc::Global;
use std::test::Fail;

// A script of two commands, a comment, and a command without its newline.
const COMMANDS: &[u8] = b"new null\nset #0 a 1\n; get\n\nget #0 a";

// Its bytes, read in pieces of at most so many bytes, where this call fails.
fn commands_in(alloc: Global, piece: usize, fails: u64) -> Result<Script<MemSource>, Fail> {
    let mut bytes = Vec::new(alloc);
    bytes.extend_from_slice(COMMANDS)?;
    let source = MemSource::new(
        Bytes::from_vec(bytes),
        Cuts::from_vec(vec![in alloc; piece; 64]?),
        Calls::from_vec(vec![in alloc; fails; 1]?),
    );
    Ok(Script::new(alloc, source)?)
}

// How many commands a script gives before its end or a fault, and which.
fn count(script: &mut Script<MemSource>) -> (u32, Option<ScriptFault>) {
    for n in 0..9u32 {
        match script.next() {
            Ok(Some(_)) => {}
            Ok(None) => return (n, None),
            Err(fault) => return (n, Some(fault)),
        }
    }
    (9, None)
}

#[test]
fn cuts_change_nothing(rt: HostRuntime) -> Result<(), Fail> {
    for piece in [0, 1, 2, 3, 8, 9, 10, 100] {
        let mut script = commands_in(rt.alloc(), piece, 0)?;
        assert_eq!(rt; count(&mut script), (3, None), "{piece}");
        assert_eq!(rt; count(&mut script), (0, None), "{piece}");
        assert_eq!(rt; script.names().text(0), Some("a"));
    }
    Ok(())
}

#[test]
fn a_read_fault_comes_behind_whole_lines_and_is_kept(rt: HostRuntime) -> Result<(), Fail> {
    // Of pieces of ten bytes the first holds the first line, and the first two the second.
    for (fails, before) in [(1, 0), (2, 1), (3, 2), (4, 2), (5, 2)] {
        let mut script = commands_in(rt.alloc(), 10, fails)?;
        let wanted = Some(ScriptFault::Read);
        assert_eq!(rt; count(&mut script), (before, wanted), "{fails}");
        assert_eq!(rt; count(&mut script), (0, wanted), "{fails}");
    }
    Ok(())
}

#[test]
fn a_command_is_read_with_its_numbers(rt: HostRuntime) -> Result<(), Fail> {
    let mut script = commands_in(rt.alloc(), 4096, 0)?;
    let _new = script.next();
    let _set = script.next();
    assert!(rt; matches!(script.next(), Ok(Some(Command::Get(0, 0)))));
    Ok(())
}

#[test]
fn a_sink_fails_at_the_calls_that_are_named(rt: HostRuntime) -> Result<(), Fail> {
    let mut sink = MemSink::new(rt.alloc(), Calls::from_vec(vec![in rt.alloc(); 2; 1]?));
    for (piece, taken) in [(b"ab", Some(2)), (b"cd", None), (b"ef", Some(2))] {
        assert_eq!(rt; sink.write(piece).ok(), taken);
    }
    assert_eq!(rt; sink.bytes(), b"abef".as_slice());
    Ok(())
}

#[test]
fn a_source_fails_at_the_calls_that_are_named(rt: HostRuntime) -> Result<(), Fail> {
    let mut source = commands_in(rt.alloc(), 2, 2)?.source;
    let mut into = [0; 4];
    for (taken, front) in [(Some(2), b"ne"), (None, b"ne"), (Some(2), b"w ")] {
        assert_eq!(rt; source.read(&mut into).ok(), taken);
        assert_eq!(rt; &into[..2], front.as_slice());
    }
    Ok(())
}

#[test]
fn the_laws_cost_nothing() {
    laws::lines_have_one_meaning();
    laws::commands_are_named();
}
