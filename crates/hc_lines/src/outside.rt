ghost use Rattle.std.specs.Prelude.{◌≡◌, ℕ, ◌<◌, ◌≤◌, List, length, take, Option, IfOk, OnErr};
ghost use Rattle.hc_lines.specs.Outside.{TakesBytes, AppendsBytes, IsAtEnd, Rose};

/// A read or a write failed.
#[derive(Clone, Copy, Debug, PartialEq, Eq)]
pub struct Failed;

/// Where bytes come from.
pub trait Source {
    /// The bytes still to come, where they are told.
    ghost left: { Self → Option (List ℕ) };

    /// How often a read has failed.
    ghost faults: { Self → ℕ };

    /// Fills the front of a buffer, and answers how far. 0 into a buffer that isn't empty is the end.
    fn read(&mut self, into: &mut [u8]) -> Result<usize, Failed>
        ensures count { IfOk result (λ n. n ≤ length into.old) }
        ensures taken { IfOk result (λ n. TakesBytes (left self.old) (take n into.new) (left self.new)) }
        ensures end { IfOk result (λ n. n ≡ 0 → 0 < length into.old → IsAtEnd (left self.old)) }
        ensures cause { OnErr result (Rose (faults self.old) (faults self.new)) }
        ensures err { OnErr result (left self.new ≡ left self.old) }
        ensures grows { faults self.old ≤ faults self.new };
}

/// Where bytes go.
pub trait Sink {
    /// The bytes so far, where they are told.
    ghost taken: { Self → Option (List ℕ) };

    /// How often a write has failed.
    ghost faults: { Self → ℕ };

    /// Takes a front of a piece, and answers how much. Of a piece that isn't empty it takes something, or fails.
    fn write(&mut self, piece: &[u8]) -> Result<usize, Failed>
        ensures count { IfOk result (λ n. n ≤ length piece.now) }
        ensures moves { IfOk result (λ n. 0 < length piece.now → 0 < n) }
        ensures appended { IfOk result (λ n. AppendsBytes (taken self.old) (take n piece.now) (taken self.new)) }
        ensures cause { OnErr result (Rose (faults self.old) (faults self.new)) }
        ensures err { OnErr result (taken self.new ≡ taken self.old) }
        ensures grows { faults self.old ≤ faults self.new };
}
