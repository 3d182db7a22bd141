ghost use Rattle.std.specs.Prelude.{◌≡◌, ◌≤◌, OnOk, OnErr};
ghost use Rattle.hc_lines.specs.Outside.{AppendsBytes, Rose};
ghost use Rattle.hc_session.specs.Output.{AppendsFront};

use hc_script::{Failed, Sink};

/// Writes a whole piece, by as many calls as the sink wants.
pub fn write_piece<K: Sink>(sink: &mut K, piece: &[u8]) -> Result<(), Failed>
    ensures ok { OnOk result (AppendsBytes (K.taken sink.old) piece.now (K.taken sink.new)) }
    ensures err { OnErr result (AppendsFront (K.taken sink.old) piece.now (K.taken sink.new)) }
    ensures cause { OnErr result (Rose (K.faults sink.old) (K.faults sink.new)) }
    ensures grows { K.faults sink.old ≤ K.faults sink.new }
{
    let mut rest = piece;
    'writes: while !rest.is_empty() {
        match sink.write(rest) {
            Ok(n) => rest = &rest[n..],
            Err(Failed) => return Err(Failed),
        }
    }
    Ok(())
}
