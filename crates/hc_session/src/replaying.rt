ghost use Rattle.std.specs.Prelude.{◌≡◌, ◌⊎◌, ◌↔◌, ◌≤◌, ℕ, [], true, codes, map, string_bytes, IfSome, IsTrue};
ghost use Rattle.hc_lines.specs.Outside.{Rose};
ghost use Rattle.hc_script.specs.Reader.{the_new_reader};
ghost use Rattle.hc_session.specs.Fresh.{IsNew};
ghost use Rattle.hc_session.specs.Keeping.{KeepsSession};
ghost use Rattle.hc_session.specs.Output.{seen};
ghost use Rattle.hc_session.specs.Progress.{EndsByFault};
ghost use Rattle.hc_session.specs.Replay.{AskForReplay, RepliesAsTables, WritesUsage, IsFirstRefused, AreAllAccepted, IsCutShort, EndsWith};

use crate::answer::{Halt, answer};
use crate::refusal::render_refusal;
use crate::write::write_piece;
use crate::{Scripted, Session};
use hc_access::asking_is_little;
use hc_objects::operations_spend_little;
use hc_script::laws::{commands_are_named, lines_have_one_meaning};
use hc_script::{ScriptFault, ScriptReader, Sink, Source, Status, What};

/// Replays a script: reads its lines in order, performs each command, and writes each reply before the next line
/// is taken. `words` are the program's, behind its name.
pub fn replay<S: Source, K: Sink>(
    words: &[String],
    source: &mut S,
    sink: &mut K,
    session: &mut Session<Scripted>,
) -> Status
    requires { session.old.fresh ≡ true }

    // It begins where nothing was done.
    ensures start { IsNew session.old }
    // The replies are those of plain property tables, declared sites and jobs, line by line, each behind the lines that the log gets;
    // the line of a fault comes last.
    ensures replies { AskForReplay (map string_bytes words.now) → RepliesAsTables session.old.objects.heap.view.shape.objects
        (seen S.left S.faults K.taken K.faults source.old sink.old) result
        (seen S.left S.faults K.taken K.faults source.new sink.new) }
    // How the session behind them is kept: hidden classes and dictionaries, why, and what they hand out; the sites; the jobs; the
    // log, whose lines are those that were written, and one mark for each command.
    ensures kept { AskForReplay (map string_bytes words.now) → KeepsSession
        session.old (seen S.left S.faults K.taken K.faults source.old sink.old)
        session.new result (seen S.left S.faults K.taken K.faults source.new sink.new) }

    // Other words ask for nothing: the usage is written, and all else stays.
    ensures usage { (AskForReplay (map string_bytes words.now) → ⊥) → WritesUsage
        (seen S.left S.faults K.taken K.faults source.old sink.old) result
        (seen S.left S.faults K.taken K.faults source.new sink.new) }
    ensures untouched { (AskForReplay (map string_bytes words.now) → ⊥)
        → (session.new ≡ session.old) × (source.new ≡ source.old) }

    // The first line that is refused ends the run by its number and word, or a fault or want of memory came before.
    ensures refused { AskForReplay (map string_bytes words.now) → IfSome (S.left source.old) (λ bytes. (n : ℕ) (what : What)
        → IsFirstRefused bytes n what → (result ≡ Status.BadScript n what)
        ⊎ IsCutShort (seen S.left S.faults K.taken K.faults source.old sink.old) result
        (seen S.left S.faults K.taken K.faults source.new sink.new)) }
    // Where each line is accepted the run is done, or a fault or want of memory came before.
    ensures complete { AskForReplay (map string_bytes words.now) → IfSome (S.left source.old) (λ bytes.
        AreAllAccepted bytes → (result ≡ Status.Done)
        ⊎ IsCutShort (seen S.left S.faults K.taken K.faults source.old sink.old) result
        (seen S.left S.faults K.taken K.faults source.new sink.new)) }

    ensures read { result ≡ Status.ReadFault → Rose (S.faults source.old) (S.faults source.new) }
    ensures write { result ≡ Status.WriteFault → Rose (K.faults sink.old) (K.faults sink.new) }
{
    lines_have_one_meaning();
    session.stands();
    replay_words(words, source, sink, session)
}

// A replay, of which the clauses above follow.
fn replay_words<S: Source, K: Sink>(
    words: &[String],
    source: &mut S,
    sink: &mut K,
    session: &mut Session<Scripted>,
) -> Status
    requires { session.old.fresh ≡ true }
    ensures kept { AskForReplay (map string_bytes words.now) → KeepsSession
        session.old (seen S.left S.faults K.taken K.faults source.old sink.old)
        session.new result (seen S.left S.faults K.taken K.faults source.new sink.new) }
    ensures usage { (AskForReplay (map string_bytes words.now) → ⊥) → WritesUsage
        (seen S.left S.faults K.taken K.faults source.old sink.old) result
        (seen S.left S.faults K.taken K.faults source.new sink.new) }
    ensures untouched { (AskForReplay (map string_bytes words.now) → ⊥)
        → (session.new ≡ session.old) × (source.new ≡ source.old) }
    ensures read { result ≡ Status.ReadFault → Rose (S.faults source.old) (S.faults source.new) }
    ensures write { result ≡ Status.WriteFault → Rose (K.faults sink.old) (K.faults sink.new) }
{
    if !ask_for_replay(words) {
        return end_with(sink, b"! usage\n", Status::BadWords);
    }
    operations_spend_little::<Scripted>();
    asking_is_little::<Scripted>();
    session.stands();
    let alloc = session.allocator();
    let Ok(mut reader) = ScriptReader::new(alloc) else {
        return Status::Memory;
    };
    let mut text = Vec::new(alloc);
    replay_lines(source, sink, session, &mut reader, &mut text)
}

// Whether the words are the one word `replay`.
fn ask_for_replay(words: &[String]) -> bool
    ensures { IsTrue result ↔ AskForReplay (map string_bytes words.now) }
{
    match words {
        [word] => is_replay(word),
        _ => false,
    }
}

fn is_replay(word: &String) -> bool
    ensures { IsTrue result ↔ (string_bytes word.now ≡ codes "replay") }
{
    word.as_str() == "replay"
}

// Writes the last line of the output.
fn end_with<K: Sink>(sink: &mut K, line: &[u8], status: Status) -> Status
    ensures written { EndsWith (K.taken sink.old) line.now status result (K.taken sink.new) }
    ensures cause { result ≡ status ⊎ Rose (K.faults sink.old) (K.faults sink.new) }
    ensures grows { K.faults sink.old ≤ K.faults sink.new }
{
    match write_piece(sink, line) {
        Ok(()) => status,
        Err(_) => Status::WriteFault,
    }
}

// Answers the commands that a new reader finds, one after another.
fn replay_lines<S: Source, K: Sink>(
    source: &mut S,
    sink: &mut K,
    session: &mut Session<Scripted>,
    reader: &mut ScriptReader,
    text: &mut Vec<u8>,
) -> Status
    requires reader { reader.old ≡ the_new_reader }
    requires untouched { IsNew session.old }
    ensures kept { KeepsSession
        session.old (seen S.left S.faults K.taken K.faults source.old sink.old)
        session.new result (seen S.left S.faults K.taken K.faults source.new sink.new) }
    ensures read { result ≡ Status.ReadFault → Rose (S.faults source.old) (S.faults source.new) }
    ensures write { result ≡ Status.WriteFault → Rose (K.faults sink.old) (K.faults sink.new) }
{
    commands_are_named();
    operations_spend_little::<Scripted>();
    asking_is_little::<Scripted>();
    session.stands();
    'commands: loop {
        match reader.next(source) {
            Ok(Some(command)) => match answer(session, reader.names(), &command, text, sink) {
                Ok(()) => {}
                Err(Halt::Memory) => return Status::Memory,
                Err(Halt::Write) => return Status::WriteFault,
            },
            Ok(None) => return Status::Done,
            Err(fault) => return end_by_fault(fault, text, sink),
        }
    }
}

// Writes the line of a fault of the reader.
fn end_by_fault<K: Sink>(fault: ScriptFault, text: &mut Vec<u8>, sink: &mut K) -> Status
    ensures written { EndsByFault (K.taken sink.old) fault result (K.taken sink.new) }
    ensures write { result ≡ Status.WriteFault → Rose (K.faults sink.old) (K.faults sink.new) }
    ensures grows { K.faults sink.old ≤ K.faults sink.new }
{
    match fault {
        ScriptFault::Bad(n, what) => {
            text.clear();
            if render_refusal(text, n, what).is_err() {
                return Status::Memory;
            }
            end_with(sink, text, Status::BadScript(n, what))
        }
        ScriptFault::Read => end_with(sink, b"! read\n", Status::ReadFault),
        ScriptFault::Memory => Status::Memory,
    }
}
