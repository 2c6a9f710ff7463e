ghost use Rattle.std.specs.Prelude.{◌≤◌, IfOk};

use crell_io::{HostShelf, HostSink, Shelf, ShelfEnd, Sink, SinkFault};
use std::alloc::{Allocator, Global};
use std::fs::{Metadata, OpenFile, OpenOptions};
use std::io;
use std::io::{ErrorKind, Read, Seek, SeekFrom, Write};
use std::rt::Files;
use std::test::Fail;

// A file that holds so many bytes, zeros, and takes as many. So many calls are interrupted first, then so many are
// answered, with at most that many bytes each, and then every call fails.
#[derive(Clone, Copy)]
struct Fake {
    interrupted: usize,
    answered: usize,
    most: usize,
    holds: usize,
}

impl Fake {
    fn turn(&mut self, wanted: usize) -> io::Result<usize>
        ensures { IfOk result (λ count. count ≤ wanted) }
    {
        if self.interrupted > 0 {
            self.interrupted -= 1;
            return Err(io::Error::from(ErrorKind::Interrupted));
        }
        if self.answered == 0 {
            return Err(io::Error::from(ErrorKind::Other));
        }
        self.answered -= 1;
        let count = wanted.min(self.most.min(self.holds));
        self.holds -= count;
        Ok(count)
    }
}

impl Read for Fake {
    fn read(&mut self, piece: &mut [u8]) -> io::Result<usize> {
        self.turn(piece.len())
    }
}

impl Write for Fake {
    fn write(&mut self, piece: &[u8]) -> io::Result<usize> {
        self.turn(piece.len())
    }

    fn flush(&mut self) -> io::Result<()> {
        Ok(())
    }
}

impl Seek for Fake {
    fn seek(&mut self, _to: SeekFrom) -> io::Result<u64> {
        Err(unsupported())
    }
}

impl OpenFile for Fake {
    fn metadata(&self) -> io::Result<Metadata> {
        Err(unsupported())
    }

    fn set_len(&self, _size: u64) -> io::Result<()> {
        Err(unsupported())
    }

    fn sync_all(&self) -> io::Result<()> {
        Err(unsupported())
    }

    fn sync_data(&self) -> io::Result<()> {
        Err(unsupported())
    }
}

fn unsupported() -> io::Error {
    io::Error::from(ErrorKind::Unsupported)
}

// Every path opens the one file.
#[derive(Drop)]
struct OneFile {
    file: Fake,
}

impl Files for OneFile {
    type File = Fake;

    type Dir = Fake;

    fn open_file(&self, _how: &OpenOptions, _path: &str) -> io::Result<Fake> {
        Ok(self.file)
    }

    fn open_dir(&self, _path: &str) -> io::Result<Fake> {
        Err(unsupported())
    }

    fn metadata(&self, _path: &str) -> io::Result<Metadata> {
        Err(unsupported())
    }

    fn symlink_metadata(&self, _path: &str) -> io::Result<Metadata> {
        Err(unsupported())
    }

    fn copy(&self, _from: &str, _to: &str) -> io::Result<u64> {
        Err(unsupported())
    }

    fn rename(&self, _from: &str, _to: &str) -> io::Result<()> {
        Err(unsupported())
    }

    fn remove_file(&self, _path: &str) -> io::Result<()> {
        Err(unsupported())
    }

    fn create_dir(&self, _path: &str) -> io::Result<()> {
        Err(unsupported())
    }

    fn remove_dir(&self, _path: &str) -> io::Result<()> {
        Err(unsupported())
    }

    fn remove_dir_all<B: Allocator>(&self, _alloc: B, _path: &str) -> io::Result<()> {
        Err(unsupported())
    }
}

// Whether a shelf over the one file gives so many bytes, or ends so.
fn gives(alloc: Global, file: Fake, limit: u32, wanted: Result<usize, ShelfEnd>) -> bool {
    match HostShelf::new(OneFile { file }).get(alloc, "name", limit as u64) {
        Ok(bytes) => wanted == Ok(bytes.len()),
        Err(end) => wanted == Err(end),
    }
}

#[test]
fn a_file_is_given_whole_or_not_at_all(rt: HostRuntime) -> Result<(), Fail> {
    for (interrupted, answered, most, holds, limit, wanted) in [
        (0, 9, 3, 10, 10, Ok(10)),
        (0, 9, 99, 10, 99, Ok(10)),
        (1, 9, 9, 10, 10, Ok(10)),
        (63, 9, 9, 10, 10, Ok(10)),
        (64, 9, 9, 10, 10, Err(ShelfEnd::Failed)),
        (0, 9, 3, 10, 9, Err(ShelfEnd::TooLong)),
        (0, 0, 9, 10, 10, Err(ShelfEnd::Failed)),
        (0, 2, 3, 10, 10, Err(ShelfEnd::Failed)),
        (0, 2, 9, 10, 10, Err(ShelfEnd::Failed)),
        (0, 9, 9, 10, 9, Err(ShelfEnd::TooLong)),
        (0, 9, 0, 10, 10, Ok(0)),
        (0, 9, 200_000, 65535, 65535, Ok(65535)),
        (0, 9, 200_000, 65536, 65536, Ok(65536)),
        (0, 9, 200_000, 65537, 65537, Ok(65537)),
        (0, 9, 200_000, 200_000, 200_000, Ok(200_000)),
        (0, 9, 200_000, 200_000, 199_999, Err(ShelfEnd::TooLong)),
    ] {
        let file = Fake {
            interrupted,
            answered,
            most,
            holds,
        };
        assert!(rt; gives(rt.alloc(), file, limit, wanted));
    }
    Ok(())
}

// Whether a sink over the writer takes so many of three bytes, or fails.
fn takes(writer: Fake, wanted: Result<usize, SinkFault>) -> bool {
    HostSink::new(writer).put(b"abc") == wanted
}

#[test]
fn a_writer_takes_a_part_or_fails(rt: HostRuntime) -> Result<(), Fail> {
    for (interrupted, answered, most, wanted) in [
        (0, 1, 2, Ok(2)),
        (0, 1, 9, Ok(3)),
        (63, 1, 9, Ok(3)),
        (64, 1, 9, Err(SinkFault::Failed)),
        (0, 0, 9, Err(SinkFault::Failed)),
        (0, 1, 0, Err(SinkFault::Failed)),
    ] {
        let writer = Fake {
            interrupted,
            answered,
            most,
            holds: 99,
        };
        assert!(rt; takes(writer, wanted));
    }
    Ok(())
}
