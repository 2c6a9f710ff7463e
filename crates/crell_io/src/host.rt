// The shelf and the sinks of the system. As a shelf and as sinks they tell nothing of the bytes; what a read and a write
// do to the bytes of a reader and a writer that are known is said by `read_and_count` and `HostSink::put`.
ghost use Rattle.std.specs.Prelude.{◌≡◌, ◌≢◌, ◌≤◌, ◌<◌, ◌+◌, ◌-◌, ◌^◌, [], None, vec_len, min, IfOk, IfErr, OnOk, OnErr, IsErrOf, IfSome, is_err, if◌then◌else◌, length};
ghost use Rattle.std.specs.Io.{ReadsAtMost, WritesAtMost};
ghost use Rattle.std.specs.Io.KnownBytes.{Keeps, IsAtEnd, ReadConsumes, WriteAppends};
ghost use Rattle.crell_io.specs.Count.{raised_by};
ghost use Rattle.crell_io.specs.Shelf.Told.{Untold};
ghost use Rattle.crell_io.specs.Host.{AppendsTaken, TakesFirst, IsReadFault, raised_where_failed};

use crate::{Shelf, ShelfEnd, Sink, SinkFault};
use std::alloc::{AllocError, Global};
use std::io::{ErrorKind, Read, Write};
use std::marker::Model;
use std::rt::Files;
use std::{fs, io};

// How many bytes a turn takes at most.
const PIECE: usize = 65536;

// How often a call that a signal interrupts is tried.
const TRIES: usize = 64;

/// The files of the system, by their paths.
#[derive(Drop)]
pub struct HostShelf<R: Files + Drop> {
    host: R,
    faults: u64,
    taken: u64,
}

impl<R: Files + Drop> HostShelf<R> {
    pub fn new(host: R) -> HostShelf<R>
        ensures faults { ⟦<HostShelf<R> as Shelf>⟧.faults result ≡ 0 }
        ensures taken { ⟦<HostShelf<R> as Shelf>⟧.taken result ≡ 0 }
    {
        HostShelf {
            host,
            faults: 0,
            taken: 0,
        }
    }
}

// Room for the bytes of a turn.
fn new_piece(alloc: Global) -> Result<Vec<u8>, AllocError>
    ensures { IfOk result (λ piece. vec_len piece ≡ PIECE) }
{
    vec![in alloc; 0u8; PIECE]
}

// One read, tried again where a signal interrupts it.
fn read_some<F: Read>(file: &mut F, piece: &mut [u8]) -> Result<usize, ShelfEnd>
    ensures bound { ReadsAtMost result piece.new }
    ensures bytes { ReadConsumes (F.remaining file.old) (F.remaining file.new) result piece.new }
    ensures fault { IfErr result IsReadFault }
{
    for _ in 0..TRIES {
        match file.read(piece) {
            Ok(count) => return Ok(count),
            Err(e) => {
                if e.kind() != ErrorKind::Interrupted {
                    return Err(ShelfEnd::Failed);
                }
            }
        }
    }
    Err(ShelfEnd::Failed)
}

// Appends what one read gives. There is room for it before, so that no byte is lost where memory is refused.
fn append_some<F: Read>(
    file: &mut F,
    piece: &mut [u8],
    bytes: &mut Vec<u8>,
) -> Result<usize, ShelfEnd>
    ensures length { IfOk result (λ count. vec_len bytes.new ≡ vec_len bytes.old + count) }
    ensures within { IfOk result (λ count. count ≤ length piece.old) }
    ensures taken { AppendsTaken
        (F.remaining file.old) (F.remaining file.new) bytes.old.items bytes.new.items }
    ensures end { IfOk result (λ count. count ≡ 0 → 0 < length piece.old → IsAtEnd (F.remaining file.new)) }
    ensures kept { OnErr result (bytes.new.items ≡ bytes.old.items) }
    ensures fault { IfErr result IsReadFault }
{
    bytes.reserve(piece.len())?;
    let count = read_some(file, piece)?;
    bytes.extend_from_slice(&piece[..count]).unwrap();
    Ok(count)
}

// How many bytes a turn may take.
fn room_left(length: u64, most: u64) -> usize
    requires { length ≤ most }
    ensures { result ≡ min PIECE (most - length) }
{
    (most - length).min(PIECE as u64) as usize
}

// One turn: appends what one read gives, up to so many bytes in all.
fn append_up_to<F: Read>(
    file: &mut F,
    piece: &mut [u8],
    bytes: &mut Vec<u8>,
    most: u64,
) -> Result<usize, ShelfEnd>
    requires within { vec_len bytes.old ≤ most }
    requires piece { length piece.old ≡ PIECE }
    ensures length { IfOk result (λ count. vec_len bytes.new ≡ vec_len bytes.old + count) }
    ensures most { vec_len bytes.new ≤ most }
    ensures taken { AppendsTaken
        (F.remaining file.old) (F.remaining file.new) bytes.old.items bytes.new.items }
    ensures end { IfOk result (λ count. count ≡ 0 → vec_len bytes.new < most → IsAtEnd (F.remaining file.new)) }
    ensures fault { IfErr result IsReadFault }
{
    let room = room_left(bytes.len() as u64, most);
    append_some(file, &mut piece[..room], bytes)
}

// Appends what a file has left, up to so many bytes in all. Each turn takes a byte or more.
fn read_up_to<F: Read>(
    alloc: Global,
    file: &mut F,
    bytes: &mut Vec<u8>,
    most: u64,
) -> Result<(), ShelfEnd>
    requires { vec_len bytes.old ≤ most }
    ensures most { vec_len bytes.new ≤ most }
    ensures taken { AppendsTaken
        (F.remaining file.old) (F.remaining file.new) bytes.old.items bytes.new.items }
    ensures end { OnOk result (vec_len bytes.new < most → IsAtEnd (F.remaining file.new)) }
    ensures fault { IfErr result IsReadFault }
{
    let mut piece = new_piece(alloc)?;
    for _ in 0..most {
        if append_up_to(file, piece.as_mut_slice(), bytes, most)? == 0 {
            return Ok(());
        }
    }
    Ok(())
}

// All that a file has left, if it is at most `limit` bytes. What is taken from the file is counted.
fn read_whole<F: Read>(
    alloc: Global,
    file: &mut F,
    limit: u64,
    taken: &mut u64,
) -> Result<Vec<u8>, ShelfEnd>
    requires { limit < 2 ^ 64 - 1 }

    ensures within { IfOk result (λ bytes. vec_len bytes ≤ limit) }
    ensures whole { IfOk result
        (λ bytes. IfSome (F.remaining file.old) (λ held. bytes.items ≡ held)) }
    ensures longer { IsErrOf result ShelfEnd.TooLong →
        IfSome (F.remaining file.old) (λ held. limit < length held) }
    ensures fault { IfErr result (λ end. end ≢ ShelfEnd.TooLong → IsReadFault end) }

    // A first part was taken, and counted: all that is given, or as far as one byte past the limit.
    ensures taken { TakesFirst (F.remaining file.old) (F.remaining file.new) taken.old taken.new }
    ensures rises { taken.old ≤ taken.new }
    ensures taken_all { IfOk result (λ bytes. taken.new ≡ raised_by (length bytes.items) taken.old) }
    ensures taken_above { IsErrOf result ShelfEnd.TooLong →
        taken.new ≡ raised_by (limit + 1) taken.old }
{
    let mut bytes = Vec::new(alloc);
    let read = read_up_to(alloc, file, &mut bytes, limit + 1);
    let length = bytes.len() as u64;
    *taken = taken.saturating_add(length);
    read?;
    if length > limit {
        return Err(ShelfEnd::TooLong);
    }
    Ok(bytes)
}

// What `read_whole` gives, where a fault is counted too.
fn read_and_count<F: Read>(
    alloc: Global,
    file: &mut F,
    limit: u64,
    faults: &mut u64,
    taken: &mut u64,
) -> Result<Vec<u8>, ShelfEnd>
    requires { limit < 2 ^ 64 - 1 }

    ensures within { IfOk result (λ bytes. vec_len bytes ≤ limit) }
    ensures whole { IfOk result
        (λ bytes. IfSome (F.remaining file.old) (λ held. bytes.items ≡ held)) }
    ensures longer { IsErrOf result ShelfEnd.TooLong →
        IfSome (F.remaining file.old) (λ held. limit < length held) }
    ensures fault { IfErr result (λ end. end ≢ ShelfEnd.TooLong → IsReadFault end) }

    ensures taken { TakesFirst (F.remaining file.old) (F.remaining file.new) taken.old taken.new }
    ensures rises { taken.old ≤ taken.new }
    ensures taken_all { IfOk result (λ bytes. taken.new ≡ raised_by (length bytes.items) taken.old) }
    ensures taken_above { IsErrOf result ShelfEnd.TooLong →
        taken.new ≡ raised_by (limit + 1) taken.old }
    ensures faults { faults.new ≡ raised_where_failed result faults.old }
    ensures faults_rise { faults.old ≤ faults.new }
{
    let read = read_whole(alloc, file, limit, taken);
    if read == Err(ShelfEnd::Failed) {
        *faults = faults.saturating_add(1);
    }
    read
}

impl<R: Files + Drop> Shelf for HostShelf<R> {
    ghost told = { λ _ _. Untold };

    ghost faults = { λ shelf. shelf.faults };

    ghost taken = { λ shelf. shelf.taken };

    ghost fails_nowhere = { λ _. ⊥ };

    /// Reads a file. One that can't be opened or read is a fault.
    fn get(&mut self, alloc: Global, name: &str, limit: u64) -> Result<Vec<u8>, ShelfEnd> {
        match fs::open(&self.host, name) {
            Ok(mut file) => {
                read_and_count(alloc, &mut file, limit, &mut self.faults, &mut self.taken)
            }
            Err(_) => {
                self.faults = self.faults.saturating_add(1);
                Err(ShelfEnd::Failed)
            }
        }
    }
}

// One write, tried again where a signal interrupts it. Taking nothing of a piece that isn't empty is a fault.
fn write_some<W: Write>(writer: &mut W, piece: &[u8]) -> Result<usize, SinkFault>
    ensures bound { WritesAtMost result piece.now }
    ensures bytes { WriteAppends (W.contents writer.old) (W.contents writer.new) result piece.now }
    ensures some { IfOk result (λ count. count ≡ 0 → piece.now ≡ []) }
{
    for _ in 0..TRIES {
        match writer.write(piece) {
            Ok(count) if count > 0 || piece.is_empty() => return Ok(count),
            Ok(_) => break,
            Err(e) => {
                if e.kind() != ErrorKind::Interrupted {
                    break;
                }
            }
        }
    }
    Err(SinkFault::Failed)
}

/// Standard output or standard error, as `HostSink::new(rt.stdout())` and
/// `HostSink::new(rt.stderr())`, or another writer that keeps no bytes back.
#[derive(Drop)]
pub struct HostSink<W: Write + Drop> {
    writer: W,
    faults: u64,
}

impl<W: Write + Drop> Model for HostSink<W> {
    ghost use Rattle.crell_io.specs.Host.{HostSinkState};

    ghost Value = { HostSinkState };

    ghost view = { λ s. record { held = W.contents s.writer; faults = s.faults } };
}

impl<W: Write + Drop> HostSink<W> {
    pub fn new(writer: W) -> HostSink<W>
        ensures { result ≡ record { held = W.contents writer; faults = 0 } }
    {
        HostSink { writer, faults: 0 }
    }
}

impl<W: Write + Drop> Sink for HostSink<W> {
    ghost written = { λ _. None };

    ghost faults = { λ sink. sink.faults };

    ghost room_left = { λ _. 0 };

    /// It fails exactly where its writer takes nothing of a piece that isn't empty, and only there its count rises.
    fn put(&mut self, piece: &[u8]) -> Result<usize, SinkFault>
        ensures faults { self.old.faults ≤ self.new.faults }

        ensures within { IfOk result (λ count. count ≤ length piece.now) }
        ensures some_taken { IfOk result (λ count. count ≡ 0 → piece.now ≡ []) }
        ensures faults_exactly { self.new.faults ≡
            (if is_err result then raised_by 1 self.old.faults else self.old.faults) }

        // What the writer holds, where it tells it, grows by what is taken.
        ensures held { WriteAppends self.old.held self.new.held result piece.now }
    {
        let put = write_some(&mut self.writer, piece);
        if put.is_err() {
            self.faults = self.faults.saturating_add(1);
        }
        put
    }
}
