// A sink in memory, which tells what was written.
ghost use Rattle.std.specs.Prelude.{◌≡◌, ◌≢◌, ◌≤◌, ◌+◌, ◌↔◌, ◌++◌, [], length, take, vec_len, vec_capacity, is_err, IsTrue, IsErr, IfOk, OnErr, if◌then◌else◌, Some};
ghost use Rattle.crell_io.specs.Count.{raised_by};
ghost use Rattle.crell_io.specs.MemSink.{Refuses, share, sure_room};

use crate::count::is_in;
use crate::{Sink, SinkFault};
use std::alloc::{AllocError, Global};
use std::marker::Model;

/// Room for bytes, how many a call takes at most, and the calls that are to fail, by their numbers
/// from 0.
#[derive(Drop)]
pub struct MemSink {
    bytes: Vec<u8>,
    room: usize,
    most: usize,
    failing: Vec<u64>,
    calls: u64,
    faults: u64,
}

impl Model for MemSink {
    ghost use Rattle.std.specs.Prelude.{vec_capacity, vec_len, ◌≤◌};
    ghost use Rattle.crell_io.specs.MemSink.{SinkState};

    ghost Value = { SinkState };

    ghost view = { λ s. record {
      written = s.bytes.items;
      room = s.room;
      most = s.most;
      failing = s.failing.items;
      calls = s.calls;
      faults = s.faults;
    } };

    ghost invariant = { λ s.
        (1 ≤ s.most) × (vec_len s.bytes ≤ s.room) × (s.room ≤ vec_capacity s.bytes) };
}

impl MemSink {
    /// Reserves the room, past which nothing is taken.
    pub fn new(
        alloc: Global,
        room: usize,
        most: usize,
        failing: Vec<u64>,
    ) -> Result<MemSink, AllocError>
        requires { 1 ≤ most }
        ensures { IfOk result (λ sink. sink ≡ record {
          written = [];
          room = room;
          most = most;
          failing = failing.items;
          calls = 0;
          faults = 0;
        }) }
    {
        let bytes = Vec::with_capacity(alloc, room)?;
        Ok(MemSink {
            bytes,
            room,
            most,
            failing,
            calls: 0,
            faults: 0,
        })
    }

    /// The bytes written.
    pub fn bytes(&self) -> &[u8]
        ensures { result.now ≡ self.now.written }
    {
        self.bytes.as_slice()
    }

    /// How many calls failed.
    pub fn faults(&self) -> u64
        ensures { result ≡ self.now.faults }
    {
        self.faults
    }
}

// Appends the first bytes of a piece. There is room for them.
fn append_first(bytes: &mut Vec<u8>, piece: &[u8], count: usize)
    requires room { vec_len bytes.old + count ≤ vec_capacity bytes.old }
    requires within { count ≤ length piece.now }
    ensures bytes { bytes.new.items ≡ bytes.old.items ++ take count piece.now }
    ensures length { vec_len bytes.new ≡ vec_len bytes.old + count }
    ensures capacity { vec_capacity bytes.old ≤ vec_capacity bytes.new }
{
    bytes.extend_from_slice(&piece[..count]).unwrap();
}

impl MemSink {
    // Whether the next call fails at this piece.
    fn refuses(&self, piece: &[u8]) -> bool
        ensures { IsTrue result ↔ Refuses self.now piece.now }
    {
        if is_in(&self.failing, self.calls) {
            return true;
        }
        self.bytes.len() == self.room && !piece.is_empty()
    }
}

impl Sink for MemSink {
    ghost written = { λ sink. Some sink.written };

    ghost faults = { λ sink. sink.faults };

    ghost room_left = { sure_room };

    /// It fails exactly in the calls that are to fail and where a piece that isn't empty meets a full
    /// room, and only there its count rises.
    fn put(&mut self, piece: &[u8]) -> Result<usize, SinkFault>
        ensures faults { self.old.faults ≤ self.new.faults }

        ensures room_kept { self.new.room ≡ self.old.room }
        ensures most_kept { self.new.most ≡ self.old.most }
        ensures failing_kept { self.new.failing ≡ self.old.failing }
        ensures calls { self.new.calls ≡ raised_by 1 self.old.calls }
        ensures faults_exactly { self.new.faults ≡
            (if is_err result then raised_by 1 self.old.faults else self.old.faults) }

        ensures failed_exactly { IsErr result ↔ Refuses self.old piece.now }
        ensures taken { IfOk result (λ count. count ≡ share self.old piece.now) }
        ensures some_taken { IfOk result (λ count. piece.now ≢ [] → 1 ≤ count) }
        ensures appended { IfOk result
            (λ count. self.new.written ≡ self.old.written ++ take count piece.now) }
        ensures nothing_written { OnErr result (self.new.written ≡ self.old.written) }
    {
        let refused = self.refuses(piece);
        self.calls = self.calls.saturating_add(1);
        if refused {
            self.faults = self.faults.saturating_add(1);
            return Err(SinkFault::Failed);
        }
        let left = self.room - self.bytes.len();
        let count = piece.len().min(self.most.min(left));
        append_first(&mut self.bytes, piece, count);
        Ok(count)
    }
}
