//! The system's files and writers.
ghost use Rattle.std.specs.Prelude.{◌≡◌, None, IfOk, string_bytes};
ghost use Rattle.cq_space.specs.Space.{Closed};
ghost use Rattle.cq_space.specs.Host.{host_mode};

use crate::fault::raise;
use crate::{Failed, Files, Sink};
use std::alloc::Global;
use std::fs::OpenFile;
use std::io::{Read, Write};
use std::os::unix::fs::MetadataExt;
use std::{fs, io, rt};

// What is open. The name is kept for clauses, which tell by it what is read or written: no code reads it.
#[derive(Drop)]
enum Open<T> {
    Shut,
    Reads { name: String, file: T },
    Writes { name: String, file: T },
}

// A file that was read: the name, and the device and the number by which the system tells files apart.
#[derive(Drop)]
struct Known {
    name: String,
    device: u64,
    number: u64,
}

/// The files of the system, opened through the runtime. A name is a path.
///
/// They tell no contents: no proof knows what a disk holds. What is known is the mode and the count of
/// faults, which rises at each error of the system, at an interrupted call as at any other, and at a
/// write that took 0 bytes. A name that cannot be opened is such a fault, so
/// [`start_read`](Files::start_read) never answers false. At 2^64 - 1 the count stays. The system may
/// close a file with an error that it tells nobody: `finish` answers `Ok` then.
///
/// Two names may lead to one file, as `a` and `./a` do. What was read is not written over under another
/// name: where the file of a name is one that was read, and never under that name, to begin writing it is
/// a fault, and the file is as before. Want of memory to keep a name is a fault too.
#[derive(Drop)]
pub struct HostFiles<R: rt::Files> {
    alloc: Global,
    rt: R,
    file: Open<R::File>,
    known: Vec<Known>,
    faults: u64,
}

impl<R: rt::Files> HostFiles<R> {
    /// No file is open, and no fault was counted. `rt` is the runtime that `main` is given, or a
    /// reference to it.
    pub fn new(alloc: Global, rt: R) -> Self
        ensures closed { (⟦<HostFiles<R> as Files>⟧.space result).mode ≡ Closed }
        ensures untold { (⟦<HostFiles<R> as Files>⟧.space result).told ≡ None }
        ensures faults { (⟦<HostFiles<R> as Files>⟧.space result).faults ≡ 0 }
    {
        HostFiles {
            alloc,
            rt,
            file: Open::Shut,
            known: Vec::new(alloc),
            faults: 0,
        }
    }

    // Opens a file to read it, and keeps by what the system knows it.
    fn open(&mut self, name: &str) -> io::Result<(String, R::File)>
        ensures file { self.new.file ≡ self.old.file }
        ensures faults { self.new.faults ≡ self.old.faults }
        ensures named { IfOk result (λ opened. string_bytes opened.0 ≡ name.now) }
    {
        let file = fs::open(&self.rt, name)?;
        let data = file.metadata()?;
        self.known.push(Known {
            name: String::from_str(self.alloc, name)?,
            device: data.dev(),
            number: data.ino(),
        })?;
        Ok((String::from_str(self.alloc, name)?, file))
    }

    // Opens a file to write it, with no bytes, unless it was read, and never under this name.
    fn create(&self, name: &str) -> io::Result<(String, R::File)>
        ensures { IfOk result (λ opened. string_bytes opened.0 ≡ name.now) }
    {
        let own = String::from_str(self.alloc, name)?;
        if self.was_read_otherwise(name) {
            return Err(io::Error::from(io::ErrorKind::PermissionDenied));
        }
        Ok((own, fs::create(&self.rt, name)?))
    }

    fn was_read_otherwise(&self, name: &str) -> bool {
        let Ok(data) = fs::metadata(&self.rt, name) else {
            return false;
        };
        let is_it = |known: &Known| known.device == data.dev() && known.number == data.ino();
        let is_named = |known: &Known| known.name.as_str() == name;
        self.known.iter().any(is_it) && !self.known.iter().any(is_named)
    }
}

impl<R: rt::Files> Files for HostFiles<R> {
    ghost space = { λ s. record { mode = host_mode s.file; told = None; faults = s.faults } };

    ghost lasts = { record { none = λ _. tt; both = λ _ _ _ _ _. tt } };

    ghost lasts_unbegun = { record { none = λ _. tt; both = λ _ _ _ _ _. tt } };

    ghost unbegun_keeps = { λ _ _ h. h };

    fn start_read(&mut self, name: &str) -> Result<bool, Failed> {
        match self.open(name) {
            Ok((name, file)) => {
                self.file = Open::Reads { name, file };
                Ok(true)
            }
            Err(_) => {
                raise(&mut self.faults);
                Err(Failed)
            }
        }
    }

    fn read(&mut self, buf: &mut [u8]) -> Result<usize, Failed> {
        let Open::Reads { file, .. } = &mut self.file else {
            unreachable!()
        };
        match file.read(buf) {
            Ok(count) => Ok(count),
            Err(_) => {
                self.file = Open::Shut;
                raise(&mut self.faults);
                Err(Failed)
            }
        }
    }

    fn end_read(&mut self) {
        self.file = Open::Shut;
    }

    fn start_write(&mut self, name: &str) -> Result<(), Failed> {
        match self.create(name) {
            Ok((name, file)) => {
                self.file = Open::Writes { name, file };
                Ok(())
            }
            Err(_) => {
                raise(&mut self.faults);
                Err(Failed)
            }
        }
    }

    fn write(&mut self, bytes: &[u8]) -> Result<usize, Failed> {
        let Open::Writes { file, .. } = &mut self.file else {
            unreachable!()
        };
        match file.write(bytes) {
            Ok(count) if count > 0 => Ok(count),
            _ => {
                self.file = Open::Shut;
                raise(&mut self.faults);
                Err(Failed)
            }
        }
    }

    fn finish(&mut self) -> Result<(), Failed> {
        self.file = Open::Shut;
        Ok(())
    }
}

/// A writer of the system, as standard output is.
///
/// It tells nothing of what it took. Its count of faults rises at each error of the writer and at a
/// write that took 0 bytes; at 2^64 - 1 it stays. A writer that holds bytes back, as a `BufWriter` does,
/// counts them as taken: hand in one that does not.
#[derive(Drop)]
pub struct HostSink<W> {
    inner: W,
    faults: u64,
}

impl<W: Write> HostSink<W> {
    /// A sink over the writer. No fault was counted.
    pub fn new(inner: W) -> Self
        ensures untold { ⟦<HostSink<W> as Sink>⟧.taken result ≡ None }
        ensures faults { ⟦<HostSink<W> as Sink>⟧.faults result ≡ 0 }
    {
        HostSink { inner, faults: 0 }
    }
}

impl<W: Write> Sink for HostSink<W> {
    ghost taken = { λ _. None };

    ghost faults = { λ s. s.faults };

    ghost lasts = { record { none = λ _. tt; both = λ _ _ _ _ _. tt } };

    fn write(&mut self, bytes: &[u8]) -> Result<usize, Failed> {
        match self.inner.write(bytes) {
            Ok(count) if count > 0 => Ok(count),
            _ => {
                raise(&mut self.faults);
                Err(Failed)
            }
        }
    }
}
