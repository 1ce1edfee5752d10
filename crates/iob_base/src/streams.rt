//! Std's readers and writers as a source and a sink. They tell nothing of the bytes.
ghost use Rattle.std.specs.Prelude.{◌≡◌, ℕ, None};

use crate::outside::{Failed, Sink, Source};
use std::io::{Read, Write};
use std::marker::Model;

/// A reader of std as a source. Contracts see the number of its faults.
#[derive(Drop)]
pub struct StdSource<R: Read + Drop> {
    reader: R,
    faults: u64,
}

impl<R: Read + Drop> Model for StdSource<R> {
    ghost Value = { ℕ };

    ghost view = { λ s. s.faults };
}

impl<R: Read + Drop> StdSource<R> {
    /// The source over `reader`, with no fault yet.
    pub fn new(reader: R) -> StdSource<R>
        ensures { result ≡ 0 }
    {
        StdSource { reader, faults: 0 }
    }
}

impl<R: Read + Drop> Source for StdSource<R> {
    ghost left = { λ _. None };

    ghost faults = { λ s. s };

    fn read(&mut self, into: &mut [u8]) -> Result<usize, Failed> {
        match self.reader.read(into) {
            Ok(n) => Ok(n),
            Err(_) => {
                self.faults = self.faults.saturating_add(1);
                Err(Failed)
            }
        }
    }
}

/// A writer of std as a sink. Contracts see the number of its faults, and whether it was finished since
/// the last byte.
#[derive(Drop)]
pub struct StdSink<W: Write + Drop> {
    writer: W,
    faults: u64,
    finished: bool,
}

impl<W: Write + Drop> Model for StdSink<W> {
    ghost use Rattle.iob_base.specs.Writer.{WriterView};

    ghost Value = { WriterView };

    ghost view = { λ s. record { faults = s.faults; finished = s.finished } };
}

impl<W: Write + Drop> StdSink<W> {
    ghost use Rattle.iob_base.specs.Writer.{new_writer};

    /// The sink over `writer`, with no fault yet and not finished.
    pub fn new(writer: W) -> StdSink<W>
        ensures { result ≡ new_writer }
    {
        StdSink {
            writer,
            faults: 0,
            finished: false,
        }
    }
}

impl<W: Write + Drop> Sink for StdSink<W> {
    ghost taken = { λ _. None };

    ghost faults = { λ s. s.faults };

    ghost finished = { λ s. s.finished };

    fn write(&mut self, from: &[u8]) -> Result<usize, Failed> {
        if from.is_empty() {
            return Ok(0);
        }
        match self.writer.write(from) {
            Ok(n) if n > 0 => {
                self.finished = false;
                Ok(n)
            }
            _ => {
                self.faults = self.faults.saturating_add(1);
                Err(Failed)
            }
        }
    }

    fn finish(&mut self) -> Result<(), Failed> {
        match self.writer.flush() {
            Ok(()) => {
                self.finished = true;
                Ok(())
            }
            Err(_) => {
                self.faults = self.faults.saturating_add(1);
                Err(Failed)
            }
        }
    }
}
