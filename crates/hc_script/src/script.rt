ghost use Rattle.std.specs.Prelude.{◌≡◌, ◌+◌, ◌≤◌, length, IfOk, IfSome, IsErrOf, None, Ok, Err};
ghost use Rattle.hc_names.specs.declared.TheConstants.{MAX_NAMES};
ghost use Rattle.hc_lines.specs.Outside.{Rose};
ghost use Rattle.hc_lines.specs.Lines.{ahead};
ghost use Rattle.hc_commands.specs.Numbers.{IsCommandBelow};
ghost use Rattle.hc_commands.specs.Verbs.{IsBuilt};
ghost use Rattle.hc_lines.specs.declared.limits.TheConstants.{MAX_LINE, PIECE};
ghost use Rattle.hc_script.specs.Reading.{Serves};
ghost use Rattle.hc_script.specs.Reader.{the_new_reader, phase_after};

use crate::{Command, Phase, ScriptFault, ScriptReader, Source};
use hc_names::Names;
use hc_value::Memory;
use std::alloc::Global;

/// A script with a source of its own.
#[derive(Drop)]
pub struct Script<S: Source> {
    pub source: S,
    pub reader: ScriptReader,
}

impl<S: Source + Drop> Script<S> {
    /// A script of which nothing was read.
    pub fn new(alloc: Global, source: S) -> Result<Script<S>, Memory>
        ensures reader { IfOk result (λ script. script.reader ≡ the_new_reader) }
        ensures source { IfOk result (λ script. script.source ≡ source) }
    {
        Ok(Script {
            source,
            reader: ScriptReader::new(alloc)?,
        })
    }

    /// The names so far.
    pub fn names(&self) -> &Names
        ensures { result.now ≡ self.now.reader.at.names }
    {
        self.reader.names()
    }

    /// The next command; `None` at the end of input. The end and a fault are for good.
    pub fn next(&mut self) -> Result<Option<Command>, ScriptFault>
        ensures serves { self.old.reader.phase ≡ Phase.Going
            → Serves self.old.reader.at (ahead self.old.reader.pending (S.left self.old.source)) result
            self.new.reader.at (ahead self.new.reader.pending (S.left self.new.source)) }
        ensures phase { self.old.reader.phase ≡ Phase.Going → self.new.reader.phase ≡ phase_after result }
        ensures read { self.old.reader.phase ≡ Phase.Going → IsErrOf result ScriptFault.Read
            → Rose (S.faults self.old.source) (S.faults self.new.source) }
        ensures ended { self.old.reader.phase ≡ Phase.Ended → (result ≡ Ok None) × (self.new ≡ self.old) }
        ensures failed { (fault : ScriptFault) → self.old.reader.phase ≡ Phase.Failed fault
            → (result ≡ Err fault) × (self.new ≡ self.old) }
        ensures numbers { IfOk result (λ found. IfSome found (λ command. IsCommandBelow (length self.new.reader.at.names) command)) }
        ensures within { length self.new.reader.at.names ≤ MAX_NAMES }
        ensures built { IfOk result (λ found. IfSome found (λ command. IsBuilt command)) }
        ensures held { length self.new.reader.pending ≤ MAX_LINE + PIECE }
        ensures grows { S.faults self.old.source ≤ S.faults self.new.source }
    {
        self.reader.next(&mut self.source)
    }
}
