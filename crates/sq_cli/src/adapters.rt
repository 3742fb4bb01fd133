//! The real files and streams. They tell nothing of what they hold, and count their failures.
ghost use Rattle.std.specs.Prelude.{◌≡◌, ◌<◌, ◌≤◌, ℕ, [], nat_lt, length, None, IfOk, OnOk, Ok, string_bytes, vec_len};

use sq_port::{Failed, FileEnd, Files, Sink};
use std::alloc::{AllocError, Global};
use std::io::{ErrorKind, Read, Seek, SeekFrom, Write};
use std::{fs, rt};

/// How many bytes are asked of the system at a time.
const PIECE: usize = 65_536;

/// The most bytes of the name of a file that is kept open; the system opens none with a longer name.
const MOST_NAME: usize = 4096;

/// The files below the folder in which the program runs.
#[derive(Drop)]
pub struct DiskFiles<'a, R: rt::Files> {
    reader: DiskReader<'a, R>,
    faults: u64,
    misses: u64,
}

impl<'a, R: rt::Files> DiskFiles<'a, R> {
    /// It takes all of its memory here.
    pub fn new(alloc: Global, disk: &'a R) -> Result<Self, AllocError>
        ensures { IfOk result (λ d. (d.faults ≡ 0) × (d.misses ≡ 0)) }
    {
        Ok(DiskFiles {
            reader: DiskReader::new(alloc, disk)?,
            faults: 0,
            misses: 0,
        })
    }
}

impl<R: rt::Files> Files for DiskFiles<'_, R> {
    ghost content = { λ d. None };

    ghost faults = { λ d. d.faults };

    ghost misses = { λ d. d.misses };

    fn read_at(&mut self, name: &str, at: u64, into: &mut [u8]) -> Result<usize, FileEnd> {
        match self.reader.read_at(name, at, into) {
            Ok(count) => Ok(count),
            Err(FileEnd::Failed) => {
                self.faults = self.faults.saturating_add(1);
                Err(FileEnd::Failed)
            }
            Err(FileEnd::Absent) => {
                self.misses = self.misses.saturating_add(1);
                Err(FileEnd::Absent)
            }
        }
    }
}

/// The file that was read last stays open: from its first byte to its last it is read as it was when it was opened, and
/// in order where reads go on from one another, so that pipes serve too.
#[derive(Drop)]
struct DiskReader<'a, R: rt::Files> {
    disk: &'a R,
    opened: Option<R::File>,
    name: String,
    /// Where the open file stands.
    position: u64,
    piece: Piece,
}

impl<'a, R: rt::Files> DiskReader<'a, R> {
    ghost use Rattle.sq_cli.specs.Pieces.{held_from, IsCopied};

    fn new(alloc: Global, disk: &'a R) -> Result<Self, AllocError>
        ensures { IfOk result (λ d. (at : ℕ) → held_from d.piece at ≡ []) }
    {
        Ok(DiskReader {
            disk,
            opened: None,
            name: String::with_capacity(alloc, MOST_NAME)?,
            position: 0,
            piece: Piece::new(alloc)?,
        })
    }

    fn read_at(&mut self, name: &str, at: u64, into: &mut [u8]) -> Result<usize, FileEnd>
        ensures copied { IfOk result (λ n. IsCopied self.new.piece at n into.old into.new) }
        ensures fits { IfOk result (λ n. n ≤ length into.new) }
    {
        match self.open(name) {
            Ok(()) => self.read(at, into),
            Err(end) => Err(end),
        }
    }

    // Opens the file of that name, where it isn't the one that is open.
    fn open(&mut self, name: &str) -> Result<(), FileEnd>
        ensures named { OnOk result (string_bytes self.new.name ≡ name.now) }
        ensures fresh { OnOk result ((string_bytes self.old.name ≡ name.now → ⊥) → (at : ℕ)
            → held_from self.new.piece at ≡ []) }
    {
        if self.opened.is_some() && self.name.as_str() == name {
            return Ok(());
        }
        self.opened = None;
        self.piece.forget();
        self.position = 0;
        self.name.clear();
        if name.len() > MOST_NAME || self.name.push_str(name).is_err() {
            return Err(FileEnd::Failed);
        }
        match fs::open(self.disk, name) {
            Ok(file) => {
                self.opened = Some(file);
                Ok(())
            }
            Err(error) => Err(if error.kind() == ErrorKind::NotFound {
                FileEnd::Absent
            } else {
                FileEnd::Failed
            }),
        }
    }

    // Reads from that place of the open file on.
    fn read(&mut self, at: u64, into: &mut [u8]) -> Result<usize, FileEnd>
        ensures copied { IfOk result (λ n. IsCopied self.new.piece at n into.old into.new) }
        ensures fits { IfOk result (λ n. n ≤ length into.new) }
    {
        if self.piece.holds(at) {
            return Ok(self.piece.copy(at, into));
        }
        match &mut self.opened {
            Some(file) => {
                if self.position != at {
                    seek(file, at)?;
                    self.position = at;
                }
                let count = self.piece.fill(file, at)?;
                self.position = at.saturating_add(count as u64);
                Ok(self.piece.copy(at, into))
            }
            None => Err(FileEnd::Failed),
        }
    }
}

/// The bytes of the open file from `start` on, as they were read last.
#[derive(Drop)]
struct Piece {
    room: Vec<u8>,
    len: usize,
    start: u64,
    ghost within: { len ≤ vec_len room },
}

impl Piece {
    ghost use Rattle.sq_cli.specs.Pieces.{held_from, IsCopied};

    fn new(alloc: Global) -> Result<Piece, AllocError>
        ensures { IfOk result (λ p. (at : ℕ) → held_from p at ≡ []) }
    {
        Ok(Piece {
            room: vec![in alloc; 0; PIECE]?,
            len: 0,
            start: 0,
        })
    }

    fn forget(&mut self)
        ensures { (at : ℕ) → held_from self.new at ≡ [] }
    {
        self.len = 0;
    }

    // Whether it holds the byte at that place.
    fn holds(&self, at: u64) -> bool
        ensures { result ≡ nat_lt 0 (length (held_from self.now at)) }
    {
        at >= self.start && at - self.start < self.len as u64
    }

    // As many bytes from that place on as it holds, and as there is room for.
    fn copy(&self, at: u64, into: &mut [u8]) -> usize
        ensures copied { IsCopied self.now at result into.old into.new }
        ensures fits { result ≤ length into.new }
    {
        if at < self.start || at - self.start >= self.len as u64 {
            return 0;
        }
        let from = (at - self.start) as usize;
        let held = &self.room[from..self.len];
        let count = held.len().min(into.len());
        into[..count].copy_from_slice(&held[..count]);
        count
    }

    // Reads from where the file stands, which is that place, and says how many bytes it holds then.
    // Not inlined: LLVM was seen to drop a caller's test of the count for 0.
    #[inline(never)]
    fn fill<F: Read>(&mut self, file: &mut F, at: u64) -> Result<usize, FileEnd>
        ensures { IfOk result (λ n. length (held_from self.new at) ≡ n) }
    {
        self.len = 0;
        match file.read(&mut self.room) {
            Ok(count) => {
                self.start = at;
                self.len = count;
                Ok(count)
            }
            Err(_) => Err(FileEnd::Failed),
        }
    }
}

#[inline(never)]
fn seek<F: Seek>(file: &mut F, at: u64) -> Result<(), FileEnd> {
    match file.seek(SeekFrom::Start(at)) {
        Ok(_) => Ok(()),
        Err(_) => Err(FileEnd::Failed),
    }
}

/// A stream of the system: standard output, or standard error.
#[derive(Drop)]
pub struct StreamSink<W: Write + Drop> {
    stream: W,
    faults: u64,
}

impl<W: Write + Drop> StreamSink<W> {
    pub fn new(stream: W) -> Self
        ensures { result.faults ≡ 0 }
    {
        StreamSink { stream, faults: 0 }
    }
}

impl<W: Write + Drop> Sink for StreamSink<W> {
    ghost written = { λ s. None };

    ghost faults = { λ s. s.faults };

    fn put(&mut self, piece: &[u8]) -> Result<usize, Failed> {
        match write_some(&mut self.stream, piece) {
            Ok(count) => Ok(count),
            Err(failed) => {
                self.faults = self.faults.saturating_add(1);
                Err(failed)
            }
        }
    }
}

// Writes at least one byte of a piece that isn't empty.
#[inline(never)]
fn write_some<W: Write>(stream: &mut W, piece: &[u8]) -> Result<usize, Failed>
    ensures bound { IfOk result (λ n. n ≤ length piece.now) }
    ensures some { IfOk result (λ n. 0 < length piece.now → 0 < n) }
    ensures empty { length piece.now ≡ 0 → result ≡ Ok 0 }
{
    if piece.is_empty() {
        return Ok(0);
    }
    match stream.write(piece) {
        Ok(0) => Err(Failed),
        Ok(count) => Ok(count),
        Err(_) => Err(Failed),
    }
}

#[cfg(test)]
mod tests {
    use super::*;
    use sq_port::put_all;
    use std::io;
    use std::test::Fail;

    // Bytes that tell the place at which they stand, in a file of more than two pieces.
    fn numbered(alloc: Global, first: u8) -> Result<Vec<u8>, AllocError> {
        let mut bytes = vec![in alloc; first; 150_000]?;
        for (place, byte) in bytes.iter_mut().enumerate() {
            *byte = (place % 251) as u8 ^ first;
        }
        Ok(bytes)
    }

    #[test]
    fn files_are_read_from_any_place(rt: HostRuntime) -> Result<(), Fail> {
        fs::write(&rt, "adapters.tmp", numbered(rt.alloc(), 0)?.as_slice())?;
        let mut files = DiskFiles::new(rt.alloc(), &rt)?;
        let mut room = [0u8; 20];
        assert_eq!(rt; files.read_at("adapters.tmp", 0, &mut room), Ok(20));
        assert_eq!(rt; room[19], 19);
        assert_eq!(rt; files.read_at("adapters.tmp", 65_530, &mut room), Ok(6));
        assert_eq!(rt; room[0], 19);
        assert_eq!(rt; files.read_at("adapters.tmp", 65_536, &mut room), Ok(20));
        assert_eq!(rt; room[0], 25);
        assert_eq!(rt; files.read_at("adapters.tmp", 140_000, &mut room), Ok(20));
        assert_eq!(rt; room[0], 193);
        assert_eq!(rt; files.read_at("adapters.tmp", 1, &mut room), Ok(20));
        assert_eq!(rt; room[0], 1);
        assert_eq!(rt; files.read_at("adapters.tmp", 150_000, &mut room), Ok(0));
        assert_eq!(rt; (files.faults, files.misses), (0, 0));
        fs::remove_file(&rt, "adapters.tmp")?;
        Ok(())
    }

    #[test]
    fn a_file_that_is_replaced_is_read_to_its_end(rt: HostRuntime) -> Result<(), Fail> {
        fs::write(&rt, "old.tmp", numbered(rt.alloc(), 0)?.as_slice())?;
        fs::write(&rt, "new.tmp", numbered(rt.alloc(), 255)?.as_slice())?;
        let mut files = DiskFiles::new(rt.alloc(), &rt)?;
        let mut room = [0u8; 20];
        assert_eq!(rt; files.read_at("old.tmp", 0, &mut room), Ok(20));
        fs::rename(&rt, "new.tmp", "old.tmp")?;
        assert_eq!(rt; files.read_at("old.tmp", 140_000, &mut room), Ok(20));
        assert_eq!(rt; room[0], 193);
        fs::remove_file(&rt, "old.tmp")?;
        Ok(())
    }

    #[test]
    fn what_is_missing_and_what_fails_are_told_apart(rt: HostRuntime) -> Result<(), Fail> {
        let mut files = DiskFiles::new(rt.alloc(), &rt)?;
        let mut room = [0u8; 4];
        assert_eq!(rt;
            files.read_at("none.tmp", 0, &mut room),
            Err(FileEnd::Absent)
        );
        assert_eq!(rt; files.read_at("", 0, &mut room), Err(FileEnd::Absent));
        assert_eq!(rt; files.read_at(".", 0, &mut room), Err(FileEnd::Failed));
        assert_eq!(rt; (files.faults, files.misses), (1, 2));
        Ok(())
    }

    // A stream that takes three bytes at a time, and as many as there is room for.
    #[derive(Drop)]
    struct Narrow {
        taken: Vec<u8>,
        room: usize,
    }

    impl Write for Narrow {
        fn write(&mut self, piece: &[u8]) -> io::Result<usize> {
            let count = piece.len().min(3).min(self.room);
            self.taken.extend_from_slice(&piece[..count])?;
            self.room -= count;
            Ok(count)
        }

        fn flush(&mut self) -> io::Result<()> {
            Ok(())
        }
    }

    #[test]
    fn short_writes_go_on(rt: HostRuntime) -> Result<(), Fail> {
        let mut sink = StreamSink::new(Narrow {
            taken: Vec::new(rt.alloc()),
            room: 10,
        });
        assert_eq!(rt; put_all(&mut sink, b"eight by"), Ok(()));
        assert_eq!(rt; put_all(&mut sink, b"tes"), Err(Failed));
        assert_eq!(rt; sink.stream.taken.as_slice(), b"eight byte".as_slice());
        assert_eq!(rt; sink.faults, 1);
        Ok(())
    }
}
