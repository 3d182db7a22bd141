ghost use Rattle.std.specs.Prelude.{◌≡◌, ◌↔◌, ◌<◌, ◌≤◌, [], length, take, drop, slice_get, Some, IsTrue, IsErr, IfOk, OnErr, Contains, if◌then◌else◌};
ghost use Rattle.hc_lines.specs.Outside.{TakesBytes, AppendsBytes, IsAtEnd, Rose};
ghost use Rattle.hc_lines.specs.Memory.{one_more, cut_to, read_size};

use crate::{Bytes, Calls, Cuts, Failed, Sink, Source};
use std::alloc::Global;
use std::marker::Model;

/// Bytes in memory as a source.
#[derive(Drop)]
pub struct MemSource {
    bytes: Vec<u8>,
    start: usize,
    cuts: Vec<usize>,
    fails: Vec<u64>,
    calls: u64,
    failed: u64,
}

impl Model for MemSource {
    ghost use Rattle.std.specs.Prelude.{◌≤◌, length};
    ghost use Rattle.hc_lines.specs.Memory.{MemoryReads};

    ghost Value = { MemoryReads };

    ghost use Rattle.hc_lines.specs.MemoryView.{reads_of};

    ghost view = { reads_of };

    ghost invariant = { λ m. m.start ≤ length m.bytes.items };
}

impl MemSource {
    /// A source of these bytes. The cuts give the most bytes of each call in turn, where 0 counts as 1 and calls
    /// behind the last cut aren't cut; the calls in `fails`, counted from 1, fail.
    pub fn new(bytes: Bytes, cuts: Cuts, fails: Calls) -> MemSource
        ensures { result ≡ record { left = bytes; cuts = cuts; fails = fails; calls = 0; failed = 0 } }
    {
        MemSource {
            bytes: bytes.into_vec(),
            start: 0,
            cuts: cuts.into_vec(),
            fails: fails.into_vec(),
            calls: 0,
            failed: 0,
        }
    }

    // Takes bytes off the front into the front of a buffer.
    fn take(&mut self, into: &mut [u8], n: usize)
        requires room { n ≤ length into.old }
        requires there { n ≤ length self.old.left }
        ensures taken { take n into.new ≡ take n self.old.left }
        ensures left { self.new ≡ record self.old { left = drop n self.old.left } }
    {
        into[..n].copy_from_slice(&self.bytes[self.start..self.start + n]);
        self.start += n;
    }

    // Counts a call, and says whether it fails.
    fn count(&mut self) -> bool
        ensures fails { IsTrue result ↔ Contains self.old.fails (one_more self.old.calls) }
        ensures counted { self.new ≡ record self.old { calls = one_more self.old.calls; failed = (if result then one_more self.old.failed else self.old.failed) } }
        ensures grows { self.old.failed ≤ self.new.failed }
    {
        self.calls = self.calls.saturating_add(1);
        let fails = self.fails.contains(&self.calls);
        if fails {
            self.failed = self.failed.saturating_add(1);
        }
        fails
    }

    // How many bytes the next call reads into so much room.
    fn size(&self, room: usize) -> usize
        ensures { result ≡ read_size self.now room }
    {
        let left = self.bytes.len() - self.start;
        cut_size(&self.cuts, self.calls, room).min(left)
    }
}

// The most bytes of a call, counted from 0.
fn cut_size(cuts: &[usize], call: u64, room: usize) -> usize
    ensures { result ≡ cut_to room (slice_get cuts.now call) }
{
    match cuts.get(call as usize) {
        Some(cut) => room.min((*cut).max(1)),
        None => room,
    }
}

impl Source for MemSource {
    ghost left = { λ m. Some m.left };

    ghost faults = { λ m. m.failed };

    fn read(&mut self, into: &mut [u8]) -> Result<usize, Failed>
        ensures count { IfOk result (λ n. n ≤ length into.old) }
        ensures taken { IfOk result (λ n. TakesBytes (Some self.old.left) (take n into.new) (Some self.new.left)) }
        ensures end { IfOk result (λ n. n ≡ 0 → 0 < length into.old → IsAtEnd (Some self.old.left)) }
        ensures cause { OnErr result (Rose self.old.failed self.new.failed) }
        ensures err { OnErr result (Some self.new.left ≡ Some self.old.left) }
        ensures grows { self.old.failed ≤ self.new.failed }
        // Exactly the calls that are named fail, and the others read as much as their cut lets them.
        ensures fails { IsErr result ↔ Contains self.old.fails (one_more self.old.calls) }
        ensures size { IfOk result (λ n. n ≡ read_size self.old (length into.old)) }
        ensures calls { self.new.calls ≡ one_more self.old.calls }
        ensures same { (self.new.cuts ≡ self.old.cuts) × (self.new.fails ≡ self.old.fails) }
    {
        let n = self.size(into.len());
        if self.count() {
            return Err(Failed);
        }
        self.take(into, n);
        Ok(n)
    }
}

/// Bytes in memory as a sink.
#[derive(Drop)]
pub struct MemSink {
    bytes: Vec<u8>,
    fails: Vec<u64>,
    calls: u64,
    failed: u64,
}

impl Model for MemSink {
    ghost use Rattle.hc_lines.specs.Memory.{MemoryWrites};

    ghost Value = { MemoryWrites };

    ghost use Rattle.hc_lines.specs.MemoryView.{writes_of};

    ghost view = { writes_of };
}

impl MemSink {
    /// A sink without bytes. The calls in `fails`, counted from 1, fail; so does one whose growth is refused.
    pub fn new(alloc: Global, fails: Calls) -> MemSink
        ensures { result ≡ record { taken = []; fails = fails; calls = 0; failed = 0 } }
    {
        MemSink {
            bytes: Vec::new(alloc),
            fails: fails.into_vec(),
            calls: 0,
            failed: 0,
        }
    }

    /// The bytes so far.
    pub fn bytes(&self) -> &[u8]
        ensures { result.now ≡ self.now.taken }
    {
        &self.bytes
    }
}

impl Sink for MemSink {
    ghost taken = { λ m. Some m.taken };

    ghost faults = { λ m. m.failed };

    fn write(&mut self, piece: &[u8]) -> Result<usize, Failed>
        ensures count { IfOk result (λ n. n ≤ length piece.now) }
        ensures moves { IfOk result (λ n. 0 < length piece.now → 0 < n) }
        ensures appended { IfOk result (λ n. AppendsBytes (Some self.old.taken) (take n piece.now) (Some self.new.taken)) }
        ensures cause { OnErr result (Rose self.old.failed self.new.failed) }
        ensures err { OnErr result (Some self.new.taken ≡ Some self.old.taken) }
        ensures grows { self.old.failed ≤ self.new.failed }
        // A call that is named fails, and another takes the whole piece where memory lets it.
        ensures fails { Contains self.old.fails (one_more self.old.calls) → IsErr result }
        ensures whole { IfOk result (λ n. n ≡ length piece.now) }
        ensures calls { self.new.calls ≡ one_more self.old.calls }
        ensures same { self.new.fails ≡ self.old.fails }
    {
        self.calls = self.calls.saturating_add(1);
        if self.fails.contains(&self.calls) || self.bytes.extend_from_slice(piece).is_err() {
            self.failed = self.failed.saturating_add(1);
            return Err(Failed);
        }
        Ok(piece.len())
    }
}
