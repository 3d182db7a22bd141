//! The first commands, and the table by which draws become commands.
ghost use Rattle.std.specs.Prelude.{◌≡◌, ◌<◌, ◌≤◌, true, false, length, slice_index_or, IfSome, IfNone};
ghost use Rattle.hc_value.specs.Num.{IsSafeInteger};
ghost use Rattle.hc_commands.specs.Numbers.{IsCommandBelow, IsValueBelow};
ghost use Rattle.hc_script.specs.Generator.{the_names, the_opening, value_at, makes_object, finishes_job, exec_of, rare_of, command_of_draws};

use super::draws::Draws;
use super::progress::Progress;
use crate::Command;
use hc_commands::Op;
use hc_value::{Num, Value};

/// How many jobs are open at most.
const MAX_OPEN: u32 = 8;

/// The number of the text that is a value.
const TEXT: u32 = 8;

/// The number of the first command that is drawn.
const FIRST_DRAWN: u32 = 16;

/// The commands before it.
const OPENING: [Command; 16] = [
    Command::New(None),
    Command::New(Some(0)),
    Command::New(Some(1)),
    Command::New(Some(1)),
    Command::New(Some(1)),
    Command::New(Some(1)),
    Command::New(Some(1)),
    Command::New(Some(1)),
    Command::Declare(Op::Load, 0),
    Command::Declare(Op::Load, 1),
    Command::Declare(Op::Load, 2),
    Command::Declare(Op::Load, 3),
    Command::Declare(Op::Store, 0),
    Command::Declare(Op::Store, 1),
    Command::Declare(Op::Store, 2),
    Command::Declare(Op::Store, 3),
];

/// The first command of this number, if it is one of the first.
pub fn opening(given: u32) -> Option<Command>
    ensures command { IfSome result (λ command. command ≡ slice_index_or the_opening given (Command.New None)) }
    ensures first { IfSome result (λ command. given < 16) }
    ensures objects { IfSome result (λ command. given < 8 → makes_object command ≡ true) }
    ensures open { IfSome result (λ command. finishes_job command ≡ false) }
    ensures below { IfSome result (λ command. IsCommandBelow (length the_names) command) }
    ensures later { IfNone result (16 ≤ given) }
{
    if given < FIRST_DRAWN {
        Some(OPENING[given as usize])
    } else {
        None
    }
}

/// The command of four draws.
pub fn command_of_draws(draws: &Draws, at: &Progress) -> Command
    requires name { draws.now.name < 8 }
    requires back { draws.now.back < 8 }
    requires value { draws.now.value < 8 }
    requires objects { 8 ≤ at.now.objects }
    requires finished { at.now.finished ≤ at.now.started }
    ensures command { result ≡ command_of_draws draws.now at.now }
    ensures open { finishes_job result ≡ true → at.now.finished < at.now.started }
    ensures below { IsCommandBelow (length the_names) result }
{
    let object = at.objects - 1 - draws.back;
    match draws.row {
        0..=2 => Command::Set(object, draws.name, value(draws.value)),
        3 | 4 | 11 | 12 => Command::Get(object, draws.name),
        5..=9 => exec_of(draws, object),
        10 if at.started - at.finished < MAX_OPEN => Command::Compile(draws.name),
        10 => Command::Finish(at.finished),
        13 if at.finished < at.started => Command::Finish(at.finished),
        13 => Command::Compile(draws.name),
        14 => Command::New(Some(1)),
        _ => rare_of(draws, object),
    }
}

// The first four sites read, and the others write.
fn exec_of(draws: &Draws, object: u32) -> Command
    requires value { draws.now.value < 8 }
    ensures command { result ≡ exec_of draws.now object }
    ensures open { finishes_job result ≡ false }
    ensures below { IsCommandBelow (length the_names) result }
{
    if draws.name < 4 {
        Command::Exec(draws.name, object, None)
    } else {
        Command::Exec(draws.name, object, Some(value(draws.value)))
    }
}

// A deletion, a change of prototype, or a write to one of the two oldest objects.
fn rare_of(draws: &Draws, object: u32) -> Command
    requires name { draws.now.name < 8 }
    requires value { draws.now.value < 8 }
    ensures command { result ≡ rare_of draws.now object }
    ensures open { finishes_job result ≡ false }
    ensures below { IsCommandBelow (length the_names) result }
{
    match draws.value {
        0 => Command::Delete(object, draws.name),
        1 => Command::SetProto(object, Some(0)),
        2..=4 => Command::Set(0, draws.name, value(draws.value)),
        _ => Command::Set(1, draws.name, value(draws.value)),
    }
}

// The value of this number.
fn value(v: u64) -> Value
    requires { v < 8 }
    ensures value { result ≡ value_at v }
    ensures below { IsValueBelow (length the_names) result }
{
    match v {
        0 => integer(0),
        1 => integer(1),
        2 => integer(-7),
        3 => integer(1_073_741_824),
        4 => integer(Num::MAX),
        5 => Value::Text(TEXT),
        6 => Value::Obj(0),
        _ => Value::Bool(true),
    }
}

fn integer(n: i64) -> Value
    requires { IsSafeInteger n }
    ensures { result ≡ Value.Int n }
{
    let Some(n) = Num::new(n) else {
        unreachable!();
    };
    Value::Int(n)
}
