//! The adapters over the system's own files and over writers that take little at a time.
use cq_space::{HostFiles, HostSink, ReadRefusal, WriteFault, put_all, read_whole, write_whole};
use std::alloc::{Allocator, Global};
use std::fs::{Metadata, OpenFile, OpenOptions, Permissions};
use std::io::{PipeReader, PipeWriter, Read, Seek, SeekFrom, Write};
use std::os::fd::BorrowedFd;
use std::os::unix::net::SocketAddr;
use std::path::PathBuf;
use std::{env, fs, io, process, rt};

const TEXT: &[u8; 5] = b"abcde";

/// A file, or a writer, of which each call moves one byte at most.
#[derive(Drop)]
struct Slow<T>(T);

impl<T: Read> Read for Slow<T> {
    fn read(&mut self, buf: &mut [u8]) -> io::Result<usize> {
        let most = buf.len().min(1);
        self.0.read(&mut buf[..most])
    }
}

impl<T: Write> Write for Slow<T> {
    fn write(&mut self, bytes: &[u8]) -> io::Result<usize> {
        self.0.write(&bytes[..bytes.len().min(1)])
    }

    fn flush(&mut self) -> io::Result<()> {
        self.0.flush()
    }
}

impl<T: Seek> Seek for Slow<T> {
    fn seek(&mut self, to: SeekFrom) -> io::Result<u64> {
        self.0.seek(to)
    }
}

impl<T: OpenFile> OpenFile for Slow<T> {
    fn metadata(&self) -> io::Result<Metadata> {
        self.0.metadata()
    }

    fn set_len(&self, size: u64) -> io::Result<()> {
        self.0.set_len(size)
    }

    fn sync_all(&self) -> io::Result<()> {
        self.0.sync_all()
    }

    fn sync_data(&self) -> io::Result<()> {
        self.0.sync_data()
    }
}

/// The system's files, of which each call moves one byte at most.
#[derive(Drop)]
struct SlowFiles<R>(R);

impl<R: rt::Files> rt::Files for SlowFiles<R> {
    type File = Slow<R::File>;

    type Dir = R::Dir;

    fn open_file(&self, how: &OpenOptions, path: &str) -> io::Result<Slow<R::File>> {
        Ok(Slow(self.0.open_file(how, path)?))
    }

    fn open_dir(&self, path: &str) -> io::Result<R::Dir> {
        self.0.open_dir(path)
    }

    fn metadata(&self, path: &str) -> io::Result<Metadata> {
        self.0.metadata(path)
    }

    fn symlink_metadata(&self, path: &str) -> io::Result<Metadata> {
        self.0.symlink_metadata(path)
    }

    fn copy(&self, from: &str, to: &str) -> io::Result<u64> {
        self.0.copy(from, to)
    }

    fn rename(&self, from: &str, to: &str) -> io::Result<()> {
        self.0.rename(from, to)
    }

    fn remove_file(&self, path: &str) -> io::Result<()> {
        self.0.remove_file(path)
    }

    fn create_dir(&self, path: &str) -> io::Result<()> {
        self.0.create_dir(path)
    }

    fn remove_dir(&self, path: &str) -> io::Result<()> {
        self.0.remove_dir(path)
    }

    fn remove_dir_all<B: Allocator>(&self, alloc: B, path: &str) -> io::Result<()> {
        self.0.remove_dir_all(alloc, path)
    }

    // The trait has bodies for these. A proof of such a body here costs more than a call to the files below.
    fn canonicalize<B: Allocator>(&self, alloc: B, path: &str) -> io::Result<PathBuf<B>> {
        self.0.canonicalize(alloc, path)
    }

    fn read_link<B: Allocator>(&self, alloc: B, path: &str) -> io::Result<PathBuf<B>> {
        self.0.read_link(alloc, path)
    }

    fn hard_link(&self, original: &str, link: &str) -> io::Result<()> {
        self.0.hard_link(original, link)
    }

    fn set_permissions(&self, path: &str, permissions: Permissions) -> io::Result<()> {
        self.0.set_permissions(path, permissions)
    }

    fn symlink(&self, original: &str, link: &str) -> io::Result<()> {
        self.0.symlink(original, link)
    }

    fn pipe(&self) -> io::Result<(PipeReader, PipeWriter)> {
        self.0.pipe()
    }

    fn chown(&self, path: &str, user: Option<u32>, group: Option<u32>) -> io::Result<()> {
        self.0.chown(path, user, group)
    }

    fn lchown(&self, path: &str, user: Option<u32>, group: Option<u32>) -> io::Result<()> {
        self.0.lchown(path, user, group)
    }

    fn create_dir_with_mode(&self, path: &str, mode: u32) -> io::Result<()> {
        self.0.create_dir_with_mode(path, mode)
    }

    fn bind_unix(&self, socket: BorrowedFd<'_>, address: &SocketAddr) -> io::Result<()> {
        self.0.bind_unix(socket, address)
    }
}

/// A name in the folder of temporary files that no other run has. The way leads from that folder to itself.
fn own_name(rt: &HostRuntime, way: &str, name: &str) -> io::Result<String> {
    let folder = env::temp_dir(rt)?;
    let own = process::id(rt.process());
    Ok(format!(in rt.alloc(); "{}/{way}cq_space-{own}-{name}", folder.as_str())?)
}

/// Whether the text is written to this name and read from it, where each call moves one byte at most.
fn is_moved(rt: &HostRuntime, name: &str) -> bool {
    let mut files = HostFiles::new(rt.alloc(), SlowFiles(rt));
    let written = write_whole(&mut files, name, TEXT);
    match read_whole(rt.alloc(), &mut files, name, 9) {
        Ok(bytes) => written == Ok(()) && bytes.as_slice() == TEXT.as_slice(),
        Err(_) => false,
    }
}

/// Whether the file of this name has these bytes.
fn has_bytes(rt: &HostRuntime, name: &str, wanted: &[u8]) -> bool {
    match fs::read(rt, name) {
        Ok(bytes) => bytes.as_slice() == wanted,
        Err(_) => false,
    }
}

/// Whether a file has the text, which was written and read one byte at a time.
fn has_moved(rt: &HostRuntime) -> bool {
    match own_name(rt, "", "slow") {
        Ok(name) => {
            let moved = is_moved(rt, &name) && has_bytes(rt, &name, TEXT);
            fs::remove_file(rt, &name).is_ok() && moved
        }
        Err(_) => false,
    }
}

#[test]
fn a_file_moves_one_byte_at_a_time(rt: HostRuntime) {
    assert!(rt; has_moved(&rt));
}

/// Whether a writer that takes one byte at a time has taken the text.
fn is_taken(alloc: Global) -> bool {
    let mut taken = Vec::new(alloc);
    let answer = put_all(&mut HostSink::new(Slow(&mut taken)), TEXT);
    answer == Ok(()) && taken.as_slice() == TEXT.as_slice()
}

#[test]
fn a_writer_takes_one_byte_at_a_time(rt: HostRuntime) {
    assert!(rt; is_taken(rt.alloc()));
}

/// Whether a writer with room for three bytes is a fault, and has them.
fn three_are_taken() -> bool {
    let mut room = [0u8; 3];
    let answer = put_all(&mut HostSink::new(room.as_mut_slice()), TEXT);
    answer == Err(WriteFault) && room.as_slice() == &TEXT[..3]
}

#[test]
fn a_writer_that_is_full_is_a_fault(rt: HostRuntime) {
    assert!(rt; three_are_taken());
}

/// How reading a name is refused, if it is, and how writing these bytes to another then goes.
fn read_then_write(
    rt: &HostRuntime,
    read: &str,
    written: &str,
    bytes: &[u8],
) -> (Option<ReadRefusal>, Result<(), WriteFault>) {
    let mut files = HostFiles::new(rt.alloc(), rt);
    let unread = read_whole(rt.alloc(), &mut files, read, 9).err();
    (unread, write_whole(&mut files, written, bytes))
}

/// Whether the name can neither be read nor written.
fn is_shut(rt: &HostRuntime, name: &str) -> bool {
    read_then_write(rt, name, name, TEXT) == (Some(ReadRefusal::Fault), Err(WriteFault))
}

/// Whether the name below that of another, which is a file meanwhile, is shut.
fn is_shut_meanwhile(rt: &HostRuntime, name: &str, below: &str) -> bool {
    let shut = fs::write(rt, name, TEXT).is_ok() && is_shut(rt, below);
    fs::remove_file(rt, name).is_ok() && shut
}

/// Whether a name below that of a file is shut.
fn is_shut_below(rt: &HostRuntime) -> bool {
    let Ok(name) = own_name(rt, "", "plain") else {
        return false;
    };
    match own_name(rt, "", "plain/below") {
        Ok(below) => is_shut_meanwhile(rt, &name, &below),
        Err(_) => false,
    }
}

#[test]
fn a_name_that_cannot_be_opened_is_a_fault(rt: HostRuntime) {
    assert!(rt; is_shut_below(&rt));
}

/// The way to a name, the name, the answer where new bytes are written to it after `read` was read, and what it then
/// has.
type Written = (
    &'static str,
    &'static str,
    Result<(), WriteFault>,
    &'static [u8],
);

const WRITTEN: &[Written] = &[
    ("./", "read", Err(WriteFault), TEXT),
    ("", "linked", Err(WriteFault), TEXT),
    ("", "other", Ok(()), b"new"),
    ("", "read", Ok(()), b"new"),
];

/// Writes the text to a name and lets another lead to its file. Whether both was done.
fn is_linked(rt: &HostRuntime, name: &str) -> bool {
    match own_name(rt, "", "linked") {
        Ok(linked) => {
            fs::write(rt, name, TEXT).is_ok() && fs::hard_link(rt, name, &linked).is_ok()
        }
        Err(_) => false,
    }
}

/// Whether writing the second name after the first was read has the wanted answer, and leaves these bytes.
fn is_left(
    rt: &HostRuntime,
    read: &str,
    written: &str,
    wanted: Result<(), WriteFault>,
    left: &[u8],
) -> bool {
    let answer = read_then_write(rt, read, written, b"new");
    answer == (None, wanted) && has_bytes(rt, written, left)
}

/// Whether a name is left as it should be after the first was read.
fn is_left_as_told(rt: &HostRuntime, read: &str, row: &Written) -> bool {
    let (way, name, wanted, left) = *row;
    match own_name(rt, way, name) {
        Ok(written) => is_left(rt, read, &written, wanted, left),
        Err(_) => false,
    }
}

/// Whether each name is left as it should be.
fn are_left(rt: &HostRuntime, read: &str) -> bool {
    for row in WRITTEN {
        if !is_left_as_told(rt, read, row) {
            return false;
        }
    }
    true
}

/// Removes the file of this name. Whether that was done.
fn is_removed(rt: &HostRuntime, name: &str) -> bool {
    match own_name(rt, "", name) {
        Ok(name) => fs::remove_file(rt, &name).is_ok(),
        Err(_) => false,
    }
}

/// Whether the names are left as they should be, and are removed.
fn names_are_left(rt: &HostRuntime) -> bool {
    match own_name(rt, "", "read") {
        Ok(read) => {
            is_linked(rt, &read)
                && are_left(rt, &read)
                && is_removed(rt, "read")
                && is_removed(rt, "linked")
                && is_removed(rt, "other")
        }
        Err(_) => false,
    }
}

#[test]
fn what_was_read_is_not_written_over_by_another_name(rt: HostRuntime) {
    assert!(rt; names_are_left(&rt));
}
