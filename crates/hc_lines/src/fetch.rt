ghost use Rattle.std.specs.Prelude.{◌≡◌, ◌+◌, ◌<◌, ◌≤◌, length, vec_len, IfOk, IsErrOf, OnOk};
ghost use Rattle.hc_lines.specs.Outside.{Rose};
ghost use Rattle.hc_lines.specs.Lines.{ahead, IsUnbroken};
ghost use Rattle.hc_lines.specs.Fetch.{IsFetched, LiesTooFar, BeginsLong, LosesPart};
ghost use Rattle.hc_lines.specs.declared.limits.TheConstants.{MAX_BYTES, MAX_LINE, PIECE};

use crate::buffer::{LineBuffer, first_newline};
use crate::limits::{MAX_BYTES, MAX_LINE};
use crate::{Failed, Source};

/// What stands at the front of a buffer.
#[derive(Clone, Copy)]
pub enum Fetched {
    /// A line of so many bytes.
    Line(usize),
    /// Nothing: the input is at its end.
    Nothing,
}

/// Why no line stands there.
#[derive(Clone, Copy)]
pub enum Lack {
    /// The line goes past the most bytes of a script.
    Bound,
    /// The line is too long by itself.
    Long,
    Read,
    Memory,
}

/// Reads until a whole line stands at the front of the buffer, where `used` bytes were taken before.
pub fn fetch_line<S: Source>(
    buffer: &mut LineBuffer,
    piece: &mut Vec<u8>,
    used: usize,
    source: &mut S,
) -> Result<Fetched, Lack>
    requires used { used ≤ MAX_BYTES }
    requires piece { vec_len piece.old ≡ PIECE }
    requires held { length buffer.old ≤ MAX_LINE + PIECE }
    ensures fetched { IfOk result (λ fetched. IsFetched used buffer.new (S.left source.new) fetched) }
    ensures bound { IsErrOf result Lack.Bound → LiesTooFar used (ahead buffer.old (S.left source.old)) }
    ensures read { IsErrOf result Lack.Read → Rose (S.faults source.old) (S.faults source.new) }
    ensures long { IsErrOf result Lack.Long → BeginsLong used (ahead buffer.old (S.left source.old)) }
    ensures lost { IsErrOf result Lack.Read → LosesPart (ahead buffer.old (S.left source.old)) (S.left source.new) }
    ensures same { OnOk result (ahead buffer.new (S.left source.new) ≡ ahead buffer.old (S.left source.old)) }
    ensures piece { vec_len piece.new ≡ PIECE }
    ensures held { length buffer.new ≤ MAX_LINE + PIECE }
    ensures grows { S.faults source.old ≤ S.faults source.new }
{
    'reads: loop {
        if let Some(n) = buffer.line_end() {
            return if n <= MAX_BYTES - used {
                Ok(Fetched::Line(n))
            } else {
                Err(Lack::Bound)
            };
        }
        let held = buffer.len();
        if held > MAX_BYTES - used {
            return Err(Lack::Bound);
        }
        if held > MAX_LINE {
            return Err(skip_line(buffer, piece, used, source));
        }
        let n = match source.read(piece.as_mut_slice()) {
            Ok(n) => n,
            Err(Failed) => return Err(Lack::Read),
        };
        if n == 0 {
            return Ok(if held == 0 {
                Fetched::Nothing
            } else {
                Fetched::Line(held)
            });
        }
        if buffer.append(&piece[..n]).is_err() {
            return Err(Lack::Memory);
        }
    }
}

// Reads on to the end of a line that is too long already, of which the buffer holds the beginning, and keeps nothing.
fn skip_line<S: Source>(
    buffer: &LineBuffer,
    piece: &mut Vec<u8>,
    used: usize,
    source: &mut S,
) -> Lack
    requires used { used + length buffer.now ≤ MAX_BYTES }
    requires piece { vec_len piece.old ≡ PIECE }
    requires unbroken { IsUnbroken buffer.now }
    requires long { MAX_LINE < length buffer.now }
    ensures bound { result ≡ Lack.Bound → LiesTooFar used (ahead buffer.now (S.left source.old)) }
    ensures long { result ≡ Lack.Long → BeginsLong used (ahead buffer.now (S.left source.old)) }
    ensures read { result ≡ Lack.Read → Rose (S.faults source.old) (S.faults source.new) }
    ensures lost { result ≡ Lack.Read → LosesPart (ahead buffer.now (S.left source.old)) (S.left source.new) }
    ensures piece { vec_len piece.new ≡ PIECE }
    ensures grows { S.faults source.old ≤ S.faults source.new }
{
    let mut passed = buffer.len();
    'reads: loop {
        let n = match source.read(piece.as_mut_slice()) {
            Ok(n) => n,
            Err(Failed) => return Lack::Read,
        };
        if n == 0 {
            return Lack::Long;
        }
        if let Some(i) = first_newline(&piece[..n]) {
            return if i < MAX_BYTES - used - passed {
                Lack::Long
            } else {
                Lack::Bound
            };
        }
        passed += n;
        if passed > MAX_BYTES - used {
            return Lack::Bound;
        }
    }
}
