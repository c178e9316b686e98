// A reader as a source and a writer as a sink.
ghost use Rattle.std.specs.Prelude.{◌≡◌, ℕ};
ghost use Rattle.law_io.specs.Takings.{told_of};

use crate::streams::{Failed, Sink, Source};
use std::io::{Read, Write};

/// A reader as a source. It tells the bytes that the reader tells.
#[derive(Drop)]
pub struct StdSource<R> {
    reader: R,
    count: u64,
}

impl<R: Read> StdSource<R> {
    /// A source that has given nothing of the reader yet, and has met no fault.
    pub fn new(reader: R) -> Self
        ensures left { ⟦<StdSource<R> as Source>⟧.left result ≡ R.remaining reader }
        ensures faults { ⟦<StdSource<R> as Source>⟧.faults result ≡ 0 }
    {
        StdSource { reader, count: 0 }
    }
}

impl<R: Read> Source for StdSource<R> {
    ghost left = { λ s. R.remaining s.reader };

    ghost faults = { λ s. s.count };

    /// One read.
    ///
    /// # Errors
    ///
    /// `Failed` at each error of the reader.
    fn pull(&mut self, buf: &mut [u8]) -> Result<usize, Failed> {
        match self.reader.read(buf) {
            Ok(count) => Ok(count),
            Err(_) => {
                self.count = self.count.saturating_add(1);
                Err(Failed)
            }
        }
    }
}

/// A writer as a sink. It tells the bytes that the writer tells.
#[derive(Drop)]
pub struct StdSink<W> {
    writer: W,
    count: u64,
}

impl<W: Write> StdSink<W> {
    /// A sink that has given nothing to the writer yet, and has met no fault.
    pub fn new(writer: W) -> Self
        ensures taken { ⟦<StdSink<W> as Sink>⟧.taken result ≡ told_of (W.contents writer) }
        ensures faults { ⟦<StdSink<W> as Sink>⟧.faults result ≡ 0 }
    {
        StdSink { writer, count: 0 }
    }
}

impl<W: Write> Sink for StdSink<W> {
    ghost taken = { λ s. told_of (W.contents s.writer) };

    ghost faults = { λ s. s.count };

    /// One write.
    ///
    /// # Errors
    ///
    /// `Failed` at each error of the writer, and where it takes nothing of a piece that isn't empty.
    fn push(&mut self, piece: &[u8]) -> Result<usize, Failed> {
        match self.writer.write(piece) {
            Ok(count) if count > 0 || piece.is_empty() => Ok(count),
            _ => {
                self.count = self.count.saturating_add(1);
                Err(Failed)
            }
        }
    }
}
