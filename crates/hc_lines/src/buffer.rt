ghost use Rattle.std.specs.Prelude.{◌≡◌, ◌+◌, ◌<◌, ◌≤◌, [], ◌++◌, length, take, drop, IfSome, IfNone, OnOk, OnErr};
ghost use Rattle.hc_lines.specs.Lines.{IsWholeLine, IsUnbroken};

use memchr::memchr;
use std::alloc::{AllocError, Global};
use std::marker::Model;

/// Bytes that were read and stand in no line yet. They are cut off the front by lines.
#[derive(Drop)]
pub struct LineBuffer {
    bytes: Vec<u8>,
    // where the bytes begin
    start: usize,
    // how many of them hold no newline for sure
    scanned: usize,
}

impl Model for LineBuffer {
    ghost use Rattle.std.specs.Prelude.{◌+◌, ◌≤◌, ℕ, List, length, take, drop};
    ghost use Rattle.hc_lines.specs.Lines.{IsUnbroken};
    ghost use Rattle.hc_lines.specs.Buffer.{IsBuffer};

    ghost Value = { List ℕ };

    ghost view = { λ b. drop b.start b.bytes.items };

    ghost invariant = { λ b. IsBuffer b.bytes.items b.start b.scanned };
}

impl LineBuffer {
    pub fn new(alloc: Global) -> LineBuffer
        ensures { result ≡ [] }
    {
        LineBuffer {
            bytes: Vec::new(alloc),
            start: 0,
            scanned: 0,
        }
    }

    pub fn len(&self) -> usize
        ensures { result ≡ length self.now }
    {
        self.bytes.len() - self.start
    }

    /// The length of the first line, where its newline is there.
    pub fn line_end(&mut self) -> Option<usize>
        ensures found { IfSome result (λ n. IsWholeLine (take n self.old)) }
        ensures within { IfSome result (λ n. n ≤ length self.old) }
        ensures none { IfNone result (IsUnbroken self.old) }
        ensures same { self.new ≡ self.old }
    {
        let from = self.start + self.scanned;
        match first_newline(&self.bytes[from..]) {
            Some(i) => Some(self.scanned + i + 1),
            None => {
                self.scanned = self.bytes.len() - self.start;
                None
            }
        }
    }

    /// Puts a piece behind the bytes.
    pub fn append(&mut self, piece: &[u8]) -> Result<(), AllocError>
        ensures ok { OnOk result (self.new ≡ self.old ++ piece.now) }
        ensures err { OnErr result (self.new ≡ self.old) }
    {
        self.bytes.drain(..self.start);
        self.start = 0;
        self.bytes.extend_from_slice(piece)?;
        Ok(())
    }

    /// The first bytes.
    pub fn front(&self, n: usize) -> &[u8]
        requires { n ≤ length self.now }
        ensures { result.now ≡ take n self.now }
    {
        &self.bytes[self.start..self.start + n]
    }

    /// Drops all bytes.
    pub fn clear(&mut self)
        ensures { self.new ≡ [] }
    {
        self.bytes.clear();
        self.start = 0;
        self.scanned = 0;
    }

    /// Cuts the first bytes off.
    pub fn cut(&mut self, n: usize)
        requires { n ≤ length self.old }
        ensures { self.new ≡ drop n self.old }
    {
        self.start += n;
        self.scanned = 0;
    }
}

/// Where the first newline stands.
pub fn first_newline(bytes: &[u8]) -> Option<usize>
    ensures found { IfSome result (λ i. IsWholeLine (take (i + 1) bytes.now)) }
    ensures within { IfSome result (λ i. i < length bytes.now) }
    ensures none { IfNone result (IsUnbroken bytes.now) }
{
    memchr(b'\n', bytes)
}
