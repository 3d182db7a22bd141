ghost use Rattle.std.specs.Prelude.{◌≡◌, ◌≤◌, true, length, IfOk, IfSome, IfNone};
ghost use Rattle.hc_names.specs.declared.TheConstants.{MAX_NAMES};
ghost use Rattle.hc_lines.specs.Lines.{content, IsLine};
ghost use Rattle.hc_commands.specs.Grammar.{IsForm, IsSpelled};
ghost use Rattle.hc_commands.specs.Request.{form_of};
ghost use Rattle.hc_commands.specs.Words.{words_of};
ghost use Rattle.hc_script.specs.Line.{is_plain, HasNoForm, IsQuestion, Means};

use crate::What;
use hc_commands::laws::commands_are_plain;
use hc_commands::{Command, Request, command_for, is_passed_over, request_of};
use hc_lines::MAX_LINE;
use hc_names::{NameFault, Names};
use hc_value::Memory;

/// What a line asks for.
#[derive(Clone, Copy)]
pub enum Meaning {
    Nothing,
    Asked(Command),
    Refused(What),
}

/// What a line asks for, with its names interned.
pub fn meaning_of(names: &mut Names, line: &[u8]) -> Result<Meaning, Memory>
    requires room { length names.old ≤ MAX_NAMES }
    requires line { IsLine line.now }
    ensures meaning { IfOk result (λ meaning. Means names.old line.now meaning names.new) }
    ensures room { length names.new ≤ MAX_NAMES }
{
    if without_newline(line).len() > MAX_LINE {
        return Ok(Meaning::Refused(What::Long));
    }
    if is_passed_over(line) {
        return Ok(Meaning::Nothing);
    }
    meaning_of_question(names, line)
}

// What a line asks for that asks for something.
fn meaning_of_question(names: &mut Names, line: &[u8]) -> Result<Meaning, Memory>
    requires room { length names.old ≤ MAX_NAMES }
    requires line { IsLine line.now }
    requires question { IsQuestion line.now }
    ensures meaning { IfOk result (λ meaning. Means names.old line.now meaning names.new) }
    ensures room { length names.new ≤ MAX_NAMES }
{
    let Some(request) = plain_request_of(line) else {
        return Ok(Meaning::Refused(What::Form));
    };
    if !request.is_built() {
        return Ok(Meaning::Refused(What::Unbuilt));
    }
    match command_for(names, &request) {
        Ok(command) => Ok(Meaning::Asked(command)),
        Err(NameFault::Full) => Ok(Meaning::Refused(What::Names)),
        Err(NameFault::Memory) => Err(Memory),
    }
}

// The line without the newline that ends it.
fn without_newline(line: &[u8]) -> &[u8]
    ensures { result.now ≡ content line.now }
{
    let n = line.len();
    if n > 0 && line[n - 1] == b'\n' {
        &line[..n - 1]
    } else {
        line
    }
}

// What the words of a line ask for. Its bytes are such as a command may have then, since those of its words are.
fn plain_request_of(line: &[u8]) -> Option<Request<'_>>
    requires { IsLine line.now }
    ensures form { IfSome result (λ request. IsForm (form_of request)) }
    ensures words { IfSome result (λ request. IsSpelled (form_of request) (words_of line.now)) }
    ensures plain { IfSome result (λ request. is_plain line.now ≡ true) }
    ensures none { IfNone result (HasNoForm line.now) }
{
    commands_are_plain();
    request_of(line)
}
