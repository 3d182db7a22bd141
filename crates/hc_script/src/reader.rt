ghost use Rattle.std.specs.Prelude.{◌≡◌, ◌+◌, ◌<◌, ◌≤◌, None, Some, IfOk, IfSome, IfErr, IsErrOf, OnOk, [], length, take, drop};
ghost use Rattle.hc_names.specs.declared.TheConstants.{MAX_NAMES};
ghost use Rattle.hc_lines.specs.Outside.{Rose};
ghost use Rattle.hc_lines.specs.declared.limits.TheConstants.{MAX_BYTES, MAX_LINE, PIECE};
ghost use Rattle.hc_lines.specs.Lines.{ahead, IsLine};
ghost use Rattle.hc_commands.specs.Numbers.{IsCommandBelow};
ghost use Rattle.hc_commands.specs.Verbs.{IsBuilt};
ghost use Rattle.hc_script.specs.Reading.{IsPassed, IsAsked, Serves};
ghost use Rattle.hc_script.specs.Reader.{Reader, the_new_reader, phase_after};
ghost use Rattle.hc_script.specs.Turn.{TakesTurn, FailsTurn, IsLineFault, turn_for};

use crate::line::{Meaning, meaning_of};
use crate::{Command, ScriptFault, Source, What};
use hc_commands::laws::commands_are_named;
use hc_lines::{Fetched, Lack, LineBuffer, PIECE, fetch_line};
use hc_names::Names;
use hc_value::Memory;
use std::alloc::Global;
use std::marker::Model;

/// Whether a reader goes on.
#[derive(Clone, Copy)]
pub enum Phase {
    Going,
    Ended,
    Failed(ScriptFault),
}

/// What one line is to the reader.
#[derive(Clone, Copy)]
enum Turn {
    End,
    Passed,
    Asked(Command),
}

/// Reads the commands of a script from a source that its caller keeps.
#[derive(Drop)]
pub struct ScriptReader {
    buffer: LineBuffer,
    piece: Vec<u8>,
    names: Names,
    lines: u64,
    used: usize,
    phase: Phase,
}

impl Model for ScriptReader {
    ghost use Rattle.hc_script.specs.Reader.{Reader};

    ghost Value = { Reader };

    ghost use Rattle.hc_script.specs.ReaderView.{reader_of, IsReader};

    ghost view = { reader_of };

    ghost invariant = { IsReader };
}

impl ScriptReader {
    /// A reader that has read nothing.
    pub fn new(alloc: Global) -> Result<ScriptReader, Memory>
        ensures { IfOk result (λ reader. reader ≡ the_new_reader) }
    {
        Ok(ScriptReader {
            buffer: LineBuffer::new(alloc),
            piece: vec![in alloc; 0; PIECE]?,
            names: Names::new(alloc),
            lines: 0,
            used: 0,
            phase: Phase::Going,
        })
    }

    /// The names so far.
    pub fn names(&self) -> &Names
        ensures names { result.now ≡ self.now.at.names }
        ensures within { length result.now ≤ MAX_NAMES }
    {
        &self.names
    }

    /// The next command; `None` at the end of input. The end and a fault are for good.
    pub fn next<S: Source>(&mut self, source: &mut S) -> Result<Option<Command>, ScriptFault>
        ensures serves { self.old.phase ≡ Phase.Going
            → Serves self.old.at (ahead self.old.pending (S.left source.old)) result
            self.new.at (ahead self.new.pending (S.left source.new)) }
        ensures phase { self.old.phase ≡ Phase.Going → self.new.phase ≡ phase_after result }
        ensures read { self.old.phase ≡ Phase.Going → IsErrOf result ScriptFault.Read
            → Rose (S.faults source.old) (S.faults source.new) }
        ensures dropped { self.old.phase ≡ Phase.Going → IsErrOf result ScriptFault.Read → self.new.pending ≡ [] }
        ensures ended { self.old.phase ≡ Phase.Ended
            → (result ≡ Ok None) × (self.new ≡ self.old) × (source.new ≡ source.old) }
        ensures failed { (fault : ScriptFault) → self.old.phase ≡ Phase.Failed fault
            → (result ≡ Err fault) × (self.new ≡ self.old) × (source.new ≡ source.old) }
        ensures numbers { IfOk result (λ found. IfSome found (λ command. IsCommandBelow (length self.new.at.names) command)) }
        ensures within { length self.new.at.names ≤ MAX_NAMES }
        ensures built { IfOk result (λ found. IfSome found (λ command. IsBuilt command)) }
        ensures held { length self.new.pending ≤ MAX_LINE + PIECE }
        ensures grows { S.faults source.old ≤ S.faults source.new }
    {
        commands_are_named();
        match self.phase {
            Phase::Going => {}
            Phase::Ended => return Ok(None),
            Phase::Failed(fault) => return Err(fault),
        }
        let found = self.seek_command(source);
        self.phase = match found {
            Ok(Some(_)) => Phase::Going,
            Ok(None) => Phase::Ended,
            Err(fault) => Phase::Failed(fault),
        };
        found
    }

    // The next command of a reader that goes on, past lines that ask for nothing.
    fn seek_command<S: Source>(&mut self, source: &mut S) -> Result<Option<Command>, ScriptFault>
        ensures serves { Serves self.old.at (ahead self.old.pending (S.left source.old)) result
            self.new.at (ahead self.new.pending (S.left source.new)) }
        ensures phase { self.new.phase ≡ self.old.phase }
        ensures read { IsErrOf result ScriptFault.Read → Rose (S.faults source.old) (S.faults source.new) }
        ensures dropped { IsErrOf result ScriptFault.Read → self.new.pending ≡ [] }
        ensures grows { S.faults source.old ≤ S.faults source.new }
    {
        'lines: loop {
            match self.next_turn(source) {
                Ok(Turn::Passed) => {}
                Ok(Turn::Asked(command)) => return Ok(Some(command)),
                Ok(Turn::End) => return Ok(None),
                Err(fault) => return Err(fault),
            }
        }
    }

    // What the next line is.
    fn next_turn<S: Source>(&mut self, source: &mut S) -> Result<Turn, ScriptFault>
        ensures turn { IfOk result (λ turn. TakesTurn self.old.at (ahead self.old.pending (S.left source.old)) turn
            self.new.at (ahead self.new.pending (S.left source.new))) }
        ensures fault { IfErr result (λ fault. FailsTurn self.old.at (ahead self.old.pending (S.left source.old)) fault
            self.new.at (ahead self.new.pending (S.left source.new))) }
        ensures phase { self.new.phase ≡ self.old.phase }
        ensures read { IsErrOf result ScriptFault.Read → Rose (S.faults source.old) (S.faults source.new) }
        ensures dropped { IsErrOf result ScriptFault.Read → self.new.pending ≡ [] }
        ensures grows { S.faults source.old ≤ S.faults source.new }
    {
        match fetch_line(&mut self.buffer, &mut self.piece, self.used, source) {
            Ok(Fetched::Line(n)) => self.take_line(n),
            Ok(Fetched::Nothing) => Ok(Turn::End),
            Err(Lack::Bound) => Err(ScriptFault::Bad(self.lines + 1, What::Size)),
            Err(Lack::Long) => Err(ScriptFault::Bad(self.lines + 1, What::Long)),
            Err(Lack::Read) => {
                self.buffer.clear();
                Err(ScriptFault::Read)
            }
            Err(Lack::Memory) => Err(ScriptFault::Memory),
        }
    }

    // Takes the first bytes as a line.
    fn take_line(&mut self, n: usize) -> Result<Turn, ScriptFault>
        requires some { 0 < n }
        requires there { n ≤ length self.old.pending }
        requires line { IsLine (take n self.old.pending) }
        requires within { self.old.at.bytes + n ≤ MAX_BYTES }
        ensures passed { result ≡ Ok Turn.Passed → IsPassed self.old.at (take n self.old.pending) self.new.at }
        ensures asked { (command : Command) → result ≡ Ok (Turn.Asked command)
            → IsAsked self.old.at (take n self.old.pending) command self.new.at }
        ensures taken { OnOk result (self.new.pending ≡ drop n self.old.pending) }
        ensures goes_on { result ≡ Ok Turn.End → ⊥ }
        ensures refused { IfErr result (λ fault. IsLineFault self.old.at (take n self.old.pending) fault) }
        ensures phase { self.new.phase ≡ self.old.phase }
    {
        let meaning = meaning_of(&mut self.names, self.buffer.front(n));
        let turn = turn_of(meaning, self.lines + 1)?;
        self.buffer.cut(n);
        self.lines += 1;
        self.used += n;
        Ok(turn)
    }
}

// What the line of this number is to the reader, by its meaning.
fn turn_of(meaning: Result<Meaning, Memory>, number: u64) -> Result<Turn, ScriptFault>
    ensures { result ≡ turn_for meaning number }
{
    match meaning {
        Ok(Meaning::Nothing) => Ok(Turn::Passed),
        Ok(Meaning::Asked(command)) => Ok(Turn::Asked(command)),
        Ok(Meaning::Refused(what)) => Err(ScriptFault::Bad(number, what)),
        Err(Memory) => Err(ScriptFault::Memory),
    }
}
