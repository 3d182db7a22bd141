//! Standard input and output as a source and a sink, which don't tell their bytes.
ghost use Rattle.std.specs.Prelude.{◌≡◌, ◌≤◌, ◌<◌, None, IfOk, length};

use hc_script::{Failed, Sink, Source};
use std::alloc::Global;
use std::cell::RefCell;
use std::io;
use std::io::{BufWriter, Read, Write};

/// Where the replies go. They are collected, and sent out in large pieces; after a failure nothing is taken any more.
#[derive(Drop)]
pub struct Output<W: Write + Drop> {
    writer: BufWriter<W>,
    failed: bool,
}

impl<W: Write + Drop> Output<W> {
    pub fn new(alloc: Global, writer: W) -> io::Result<Output<W>> {
        Ok(Output {
            writer: BufWriter::new(alloc, writer)?,
            failed: false,
        })
    }

    fn take(&mut self, piece: &[u8]) -> Result<usize, Failed>
        ensures count { IfOk result (λ n. n ≤ length piece.now) }
        ensures moves { IfOk result (λ n. 0 < length piece.now → 0 < n) }
    {
        if self.failed {
            return Err(Failed);
        }
        match self.writer.write(piece) {
            Ok(n) if n > 0 || piece.is_empty() => Ok(n),
            _ => {
                self.failed = true;
                Err(Failed)
            }
        }
    }

    fn send(&mut self) -> Result<(), Failed> {
        if self.failed {
            return Err(Failed);
        }
        match self.writer.flush() {
            Ok(()) => Ok(()),
            Err(_) => {
                self.failed = true;
                Err(Failed)
            }
        }
    }
}

/// Sends out what was collected.
pub fn send<W: Write + Drop>(output: &RefCell<Output<W>>) -> Result<(), Failed> {
    match output.try_borrow_mut() {
        Ok(mut output) => output.send(),
        Err(_) => Err(Failed),
    }
}

/// A reader as a source. Before it asks for more it sends out the replies so far, so that whoever waits for them has them.
/// Where they can't be sent it reads no more: that counts as a failed read here, and as a failed write at the sink, which
/// takes nothing from then on, so that the run ends as one whose write failed.
#[derive(Drop)]
pub struct StdSource<'a, R: Read + Drop, W: Write + Drop> {
    reader: R,
    output: &'a RefCell<Output<W>>,
    faults: u64,
}

impl<'a, R: Read + Drop, W: Write + Drop> StdSource<'a, R, W> {
    pub fn new(reader: R, output: &'a RefCell<Output<W>>) -> StdSource<'a, R, W>
        ensures { result.faults ≡ 0 }
    {
        StdSource {
            reader,
            output,
            faults: 0,
        }
    }
}

impl<'a, R: Read + Drop, W: Write + Drop> Source for StdSource<'a, R, W> {
    ghost left = { λ _. None };

    ghost faults = { λ s. s.faults };

    fn read(&mut self, into: &mut [u8]) -> Result<usize, Failed> {
        if send(self.output).is_ok() {
            if let Ok(n) = self.reader.read(into) {
                return Ok(n);
            }
        }
        self.faults = self.faults.saturating_add(1);
        Err(Failed)
    }
}

/// A writer as a sink, which takes what is collected for it.
#[derive(Drop)]
pub struct StdSink<'a, W: Write + Drop> {
    output: &'a RefCell<Output<W>>,
    faults: u64,
}

impl<'a, W: Write + Drop> StdSink<'a, W> {
    pub fn new(output: &'a RefCell<Output<W>>) -> StdSink<'a, W>
        ensures { result.faults ≡ 0 }
    {
        StdSink { output, faults: 0 }
    }

    fn take(&self, piece: &[u8]) -> Result<usize, Failed>
        ensures count { IfOk result (λ n. n ≤ length piece.now) }
        ensures moves { IfOk result (λ n. 0 < length piece.now → 0 < n) }
    {
        match self.output.try_borrow_mut() {
            Ok(mut output) => output.take(piece),
            Err(_) => Err(Failed),
        }
    }
}

impl<'a, W: Write + Drop> Sink for StdSink<'a, W> {
    ghost taken = { λ _. None };

    ghost faults = { λ s. s.faults };

    fn write(&mut self, piece: &[u8]) -> Result<usize, Failed> {
        let taken = self.take(piece);
        if taken.is_err() {
            self.faults = self.faults.saturating_add(1);
        }
        taken
    }
}
