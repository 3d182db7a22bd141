ghost use Rattle.std.specs.Prelude.{◌≡◌, ◌+◌, ◌-◌, ◌<◌, ◌≤◌, ◌^◌, [], false, length, OnOk, IsErrOf};
ghost use Rattle.hc_names.specs.declared.TheConstants.{MAX_NAMES};
ghost use Rattle.hc_lines.specs.Outside.{AppendsBytes, Rose};
ghost use Rattle.hc_commands.specs.Numbers.{IsCommandBelow};
ghost use Rattle.hc_session.specs.Named.{IsNamedWorld};
ghost use Rattle.hc_objects.specs.Came.{world_of};
ghost use Rattle.hc_session.specs.Answer.{AnswersCommand, AnswersPartly, LacksMemory};
ghost use Rattle.hc_session.specs.Plain.{IsServed};
ghost use Rattle.hc_session.specs.Serving.{AreNamedSites};
ghost use Rattle.hc_session.specs.Standing.{plain_of};

use crate::render::render_answer;
use crate::write::write_piece;
use crate::{Scripted, Session};
use hc_names::Names;
use hc_script::{Command, Sink};

/// Why a run ends in the midst of a command.
#[derive(Clone, Copy)]
pub enum Halt {
    Memory,
    Write,
}

/// Performs a command and writes its lines of the log and the line of its reply. The text is a buffer.
pub fn answer<K: Sink>(
    session: &mut Session<Scripted>,
    names: &Names,
    command: &Command,
    text: &mut Vec<u8>,
    sink: &mut K,
) -> Result<(), Halt>
    requires served { IsServed command.now }
    requires names { length names.now ≤ MAX_NAMES }
    requires world { IsNamedWorld (length names.now) (world_of session.old.objects) }
    requires named { AreNamedSites (length names.now) (plain_of session.old).sites }
    requires command { IsCommandBelow (length names.now) command.now }
    requires sites { length session.old.sites < 2 ^ 32 - 1 }
    requires jobs { session.old.compiler.started < 2 ^ 32 - 1 }
    requires own { session.old.compiler.lent ≡ [] }
    requires going { session.old.lacking ≡ false }
    ensures ok { OnOk result (AnswersCommand session.old names.now command.now session.new
        (K.taken sink.old) (K.taken sink.new)) }
    ensures world { OnOk result (IsNamedWorld (length names.now) (world_of session.new.objects)) }
    ensures named { OnOk result (AreNamedSites (length names.now) (plain_of session.new).sites) }
    ensures sites { OnOk result (length session.new.sites ≤ length session.old.sites + 1) }
    ensures jobs { OnOk result (session.new.compiler.started ≤ session.old.compiler.started + 1) }
    ensures own { OnOk result (session.new.compiler.lent ≡ []) }
    ensures going { OnOk result (session.new.lacking ≡ false) }
    ensures memory { IsErrOf result Halt.Memory → K.taken sink.new ≡ K.taken sink.old }
    ensures want { IsErrOf result Halt.Memory → LacksMemory session.old command.now session.new }
    ensures write { IsErrOf result Halt.Write → AnswersPartly session.old names.now command.now session.new
        (K.taken sink.old) (K.taken sink.new) }
    ensures cause { IsErrOf result Halt.Write → Rose (K.faults sink.old) (K.faults sink.new) }
    ensures grows { K.faults sink.old ≤ K.faults sink.new }
{
    let before = session.log().len();
    let Ok(reply) = session.command(command) else {
        return Err(Halt::Memory);
    };
    text.clear();
    if render_answer(text, session.log(), before, names, &reply).is_err() {
        return Err(Halt::Memory);
    }
    match write_piece(sink, text) {
        Ok(()) => Ok(()),
        Err(_) => Err(Halt::Write),
    }
}
