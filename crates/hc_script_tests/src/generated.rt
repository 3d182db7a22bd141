use hc_names::Names;
use hc_script::{Command, GenRequest, Generator, Op, gen_request};
use hc_value::Value;
use std::alloc::Global;
use std::test::Fail;

// The first fifty commands from 1.
const FROM_ONE: [&str; 50] = [
    "new null",
    "new #0",
    "new #1",
    "new #1",
    "new #1",
    "new #1",
    "new #1",
    "new #1",
    "site load n0",
    "site load n1",
    "site load n2",
    "site load n3",
    "site store n0",
    "site store n1",
    "site store n2",
    "site store n3",
    "exec 4 #6 #0",
    "compile 2",
    "exec 3 #5",
    "get #7 n2",
    "compile 4",
    "get #2 n6",
    "finish 0",
    "set #7 n7 -7",
    "get #2 n6",
    "compile 4",
    "delete #3 n2",
    "finish 1",
    "delete #5 n2",
    "get #5 n5",
    "exec 7 #4 #0",
    "exec 4 #1 \"t\"",
    "exec 3 #0",
    "set #0 n2 \"t\"",
    "set #3 n7 9007199254740991",
    "exec 7 #1 \"t\"",
    "set #4 n7 -7",
    "set #6 n0 1073741824",
    "exec 6 #1 0",
    "set #0 n1 -7",
    "exec 3 #3",
    "exec 6 #7 -7",
    "new #1",
    "new #1",
    "get #8 n1",
    "get #5 n1",
    "exec 7 #5 1",
    "get #8 n2",
    "exec 4 #5 \"t\"",
    "get #6 n6",
];

// The first fifty commands from 33.
const FROM_33: [&str; 50] = [
    "new null",
    "new #0",
    "new #1",
    "new #1",
    "new #1",
    "new #1",
    "new #1",
    "new #1",
    "site load n0",
    "site load n1",
    "site load n2",
    "site load n3",
    "site store n0",
    "site store n1",
    "site store n2",
    "site store n3",
    "compile 3",
    "set #0 n4 -7",
    "get #3 n4",
    "get #6 n7",
    "finish 0",
    "exec 2 #0",
    "delete #3 n0",
    "new #1",
    "get #2 n4",
    "exec 5 #3 1",
    "exec 1 #3",
    "exec 3 #6",
    "set #5 n7 #0",
    "exec 2 #4",
    "new #1",
    "exec 3 #9",
    "exec 1 #5",
    "get #9 n0",
    "compile 2",
    "exec 2 #9",
    "exec 1 #6",
    "exec 6 #6 9007199254740991",
    "get #7 n7",
    "exec 2 #4",
    "get #9 n7",
    "exec 1 #2",
    "exec 4 #2 \"t\"",
    "compile 2",
    "exec 4 #2 #0",
    "exec 7 #3 true",
    "exec 6 #8 \"t\"",
    "finish 1",
    "exec 7 #2 \"t\"",
    "setproto #2 #0",
];

fn value_shown(alloc: Global, names: &Names, value: Value) -> Result<String, Fail> {
    Ok(match value {
        Value::Int(n) => format!(in alloc; "{}", n.get())?,
        Value::Text(text) => format!(in alloc; "\"{}\"", names.text(text).unwrap_or("?"))?,
        Value::Obj(o) => format!(in alloc; "#{o}")?,
        Value::Bool(b) => format!(in alloc; "{b}")?,
        Value::Undefined => format!(in alloc; "undefined")?,
        Value::Null => format!(in alloc; "null")?,
    })
}

// A command of a site or a job.
fn site_shown(alloc: Global, names: &Names, command: &Command) -> Result<String, Fail> {
    Ok(match command {
        Command::Declare(Op::Load, n) => {
            format!(in alloc; "site load {}", names.text(*n).unwrap_or("?"))?
        }
        Command::Declare(Op::Store, n) => {
            format!(in alloc; "site store {}", names.text(*n).unwrap_or("?"))?
        }
        Command::Exec(s, o, None) => format!(in alloc; "exec {s} #{o}")?,
        Command::Exec(s, o, Some(value)) => {
            format!(in alloc; "exec {s} #{o} {}", value_shown(alloc, names, *value)?)?
        }
        Command::Compile(s) => format!(in alloc; "compile {s}")?,
        Command::Finish(j) => format!(in alloc; "finish {j}")?,
        _ => format!(in alloc; "another command")?,
    })
}

// A command as a script writes it.
fn shown(alloc: Global, names: &Names, command: &Command) -> Result<String, Fail> {
    Ok(match command {
        Command::New(None) => format!(in alloc; "new null")?,
        Command::New(Some(o)) => format!(in alloc; "new #{o}")?,
        Command::Get(o, n) => format!(in alloc; "get #{o} {}", names.text(*n).unwrap_or("?"))?,
        Command::Delete(o, n) => {
            format!(in alloc; "delete #{o} {}", names.text(*n).unwrap_or("?"))?
        }
        Command::SetProto(o, Some(p)) => format!(in alloc; "setproto #{o} #{p}")?,
        Command::Set(o, n, value) => {
            let value = value_shown(alloc, names, *value)?;
            format!(in alloc; "set #{o} {} {value}", names.text(*n).unwrap_or("?"))?
        }
        _ => site_shown(alloc, names, command)?,
    })
}

#[test]
fn the_first_fifty_commands_are_those_of_the_draws(rt: HostRuntime) -> Result<(), Fail> {
    for (start, commands) in [(1, FROM_ONE), (33, FROM_33)] {
        let mut generator = Generator::gen_new(rt.alloc(), 50, start)?;
        for wanted in commands {
            let command = generator.gen_next().ok_or("no command")?;
            let text = shown(rt.alloc(), generator.names(), &command)?;
            assert_eq!(rt; text.as_str(), wanted, "from {start}");
        }
        assert!(rt; generator.gen_next().is_none());
        assert!(rt; generator.gen_next().is_none());
    }
    Ok(())
}

// What the words of a line ask for.
fn asked(alloc: Global, line: &str) -> Result<Option<(u32, u64)>, Fail> {
    let mut words = Vec::new(alloc);
    for word in line.split(' ') {
        words.push(String::from_str(alloc, word)?)?;
    }
    Ok(match gen_request(&words) {
        Some(GenRequest { count, start }) => Some((count, start)),
        None => None,
    })
}

#[test]
fn words_ask_for_a_script_in_both_ranges(rt: HostRuntime) -> Result<(), Fail> {
    let cases = [
        ("gen 16", Some((16, 1))),
        ("gen 200000", Some((200_000, 1))),
        ("gen 15", None),
        ("gen 200001", None),
        ("gen 16 0", Some((16, 0))),
        ("gen 17 18446744073709551615", Some((17, u64::MAX))),
        ("gen 16 18446744073709551616", None),
        ("gen 016", None),
        ("gen +16", None),
        ("gen 16 01", None),
        ("gen 16 00", None),
        ("gen 16 -1", None),
        ("gen 16 ", None),
        ("gen 0x10", None),
        ("gen sixteen", None),
        ("gen", None),
        ("gen 16 1 1", None),
        ("Gen 16", None),
        ("replay 16", None),
        ("16 gen", None),
    ];
    for (line, wanted) in cases {
        assert_eq!(rt; asked(rt.alloc(), line)?, wanted, "{line}");
    }
    Ok(())
}
