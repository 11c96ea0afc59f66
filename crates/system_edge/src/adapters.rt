//! The real shelf, source, sink and words: a few lines over std. That the system serves these is trusted.
ghost use Rattle.std.specs.Prelude.{◌≡◌, None, refl};
ghost use Rattle.std.specs.Io.{ReadsAtMost};
ghost use Rattle.std.specs.Io.KnownBytes.{ReadConsumes};
ghost use Rattle.diag_edge.specs.Edge.{untold, Rose};

use crate::Memory;
use diag_edge::{ReadFailed, Shelf, Sink, Source, WriteFailed};
use std::alloc::Global;
use std::fs::File;
use std::io::{ErrorKind, Read, Write};
use std::{env, fs};

// Reads, and reads again as long as a signal interrupts it.
fn read_from<R: Read>(input: &mut R, into: &mut [u8]) -> Result<usize, ReadFailed>
    ensures room { ReadsAtMost result into.new }
    ensures bytes { ReadConsumes (R.remaining input.old) (R.remaining input.new) result into.new }
{
    for _ in 0..u64::MAX {
        match input.read(into) {
            Ok(count) => return Ok(count),
            Err(error) if error.kind() == ErrorKind::Interrupted => {}
            Err(_) => return Err(ReadFailed),
        }
    }
    Err(ReadFailed)
}

/// Files, by their paths. Each pick opens its file anew and drops the one before. Which files there are and what they hold is not shown.
#[derive(Drop)]
pub struct FileShelf {
    rt: HostRuntime,
    file: Option<File>,
    taken: u64,
    faults: u64,
}

impl FileShelf {
    /// Returns a shelf with no open file.
    pub fn new(rt: HostRuntime) -> Self
        ensures taken { ⟦<FileShelf as Source>⟧.taken result ≡ 0 }
        ensures faults { ⟦<FileShelf as Source>⟧.faults result ≡ 0 }
    {
        FileShelf {
            rt,
            file: None,
            taken: 0,
            faults: 0,
        }
    }
}

impl Source for FileShelf {
    ghost left = { λ s. None };

    ghost taken = { λ s. s.taken };

    ghost faults = { λ s. s.faults };

    ghost shown = { λ s. record { left = None; taken = s.taken; faults = s.faults } };

    ghost shown_is = { λ s. refl };

    ghost Fixed = { Unit {0} };

    ghost fixed = { λ s. tt };

    fn read(&mut self, into: &mut [u8]) -> Result<usize, ReadFailed> {
        let Some(file) = &mut self.file else {
            return Ok(0);
        };
        match read_from(file, into) {
            Ok(count) => {
                self.taken += count as u64;
                Ok(count)
            }
            Err(failed) => {
                self.faults = self.faults.saturating_add(1);
                Err(failed)
            }
        }
    }
}

impl Shelf for FileShelf {
    ghost may = { λ s name. Unit {0} };

    ghost held = { λ s name. untold };

    ghost held_stays = { λ a b name same. Prim.cc };

    ghost may_stays = { λ a b name same. (λ h. h, λ h. h) };

    fn pick(&mut self, name: &str) -> Result<(), ReadFailed> {
        // If this file cannot be opened, nothing is left to read of an earlier one.
        self.file = fs::open(&self.rt, name).ok();
        if self.file.is_none() {
            self.faults = self.faults.saturating_add(1);
            return Err(ReadFailed);
        }
        Ok(())
    }
}

/// The standard input, or another reader. What is still to come is shown if the reader shows it, as one over memory
/// does; the standard input shows nothing.
#[derive(Drop)]
pub struct StdSource<R: Read + Drop> {
    input: R,
    taken: u64,
    faults: u64,
}

impl<R: Read + Drop> StdSource<R> {
    /// Returns a source over this reader.
    pub fn new(input: R) -> Self
        ensures left { ⟦<StdSource<R> as Source>⟧.left result ≡ R.remaining input }
        ensures taken { ⟦<StdSource<R> as Source>⟧.taken result ≡ 0 }
        ensures faults { ⟦<StdSource<R> as Source>⟧.faults result ≡ 0 }
    {
        StdSource {
            input,
            taken: 0,
            faults: 0,
        }
    }
}

impl<R: Read + Drop> Source for StdSource<R> {
    ghost left = { λ s. R.remaining s.input };

    ghost taken = { λ s. s.taken };

    ghost faults = { λ s. s.faults };

    ghost shown = { λ s. record { left = R.remaining s.input; taken = s.taken; faults = s.faults } };

    ghost shown_is = { λ s. refl };

    ghost Fixed = { Unit {0} };

    ghost fixed = { λ s. tt };

    fn read(&mut self, into: &mut [u8]) -> Result<usize, ReadFailed> {
        match read_from(&mut self.input, into) {
            Ok(count) => {
                self.taken += count as u64;
                Ok(count)
            }
            Err(failed) => {
                self.faults = self.faults.saturating_add(1);
                Err(failed)
            }
        }
    }
}

/// The standard output, or another writer. What was accepted is shown if the writer shows it, as one over memory
/// does; the standard output shows nothing.
#[derive(Drop)]
pub struct StdSink<W: Write + Drop> {
    out: W,
    faults: u64,
}

impl<W: Write + Drop> StdSink<W> {
    /// Returns a sink over this writer.
    pub fn new(out: W) -> Self
        ensures got { ⟦<StdSink<W> as Sink>⟧.got result ≡ W.contents out }
        ensures faults { ⟦<StdSink<W> as Sink>⟧.faults result ≡ 0 }
    {
        StdSink { out, faults: 0 }
    }

    fn fail(&mut self) -> WriteFailed
        ensures out { W.contents self.new.out ≡ W.contents self.old.out }
        ensures faults { Rose self.old.faults self.new.faults }
    {
        self.faults = self.faults.saturating_add(1);
        WriteFailed
    }
}

impl<W: Write + Drop> Sink for StdSink<W> {
    ghost got = { λ s. W.contents s.out };

    ghost faults = { λ s. s.faults };

    ghost shown = { λ s. record { got = W.contents s.out; faults = s.faults } };

    ghost shown_is = { λ s. refl };

    fn put(&mut self, bytes: &[u8]) -> Result<(), WriteFailed> {
        let mut rest = bytes;
        for _ in 0..u64::MAX {
            if rest.is_empty() {
                return Ok(());
            }
            match self.out.write(rest) {
                // A writer that takes nothing would do so for ever.
                Ok(0) => break,
                Ok(count) => rest = &rest[count..],
                Err(error) if error.kind() == ErrorKind::Interrupted => {}
                Err(_) => break,
            }
        }
        Err(self.fail())
    }
}

/// Returns the words after the program's name. If they cannot be read as text, there are none, so that they are answered as wrong words.
/// An error is lack of memory.
pub fn words_of(rt: &HostRuntime, alloc: Global) -> Result<Vec<String>, Memory> {
    let mut words = Vec::new(alloc);
    match env::args(rt) {
        Ok(args) => {
            for word in args.skip(1) {
                words.push(word)?;
            }
        }
        Err(error) if error.kind() == ErrorKind::OutOfMemory => return Err(Memory),
        Err(_) => {}
    }
    Ok(words)
}
