// A sink in memory, with failures at listed calls.
ghost use Rattle.std.specs.Prelude.{◌≡◌, ◌-◌, ◌<◌, ◌≤◌, [], length, Some, IfOk, OnErr};
ghost use Rattle.outside.specs.Counts.{next_count};
ghost use Rattle.outside.specs.MemorySink.{WriteFails, WriteTakes, after_write, sure_of};

use crate::NoMemory;
use crate::sink::{Sink, SinkFault};
use std::alloc::Global;
use std::marker::Model;

/// Bytes in memory, in room that is taken when the sink is made. A write takes the lesser of `step`
/// and the piece's length, and fails at the listed numbers of its calls, counted from 1, and if
/// that does not fit.
#[derive(Debug, Drop)]
pub struct MemorySink {
    bytes: Vec<u8>,
    room: usize,
    step: usize,
    fails: Vec<u64>,
    calls: u64,
    faults: u64,
}

impl Model for MemorySink {
    ghost use Rattle.std.specs.Prelude.{◌≤◌, ◌-◌, vec_len, vec_capacity};
    ghost use Rattle.outside.specs.MemorySink.{SinkState};

    ghost Value = { SinkState };

    ghost view = { λ s. record {
      written = s.bytes.items;
      room = s.room - vec_len s.bytes;
      step = s.step;
      fails = s.fails.items;
      calls = s.calls;
      faults = s.faults;
    } };

    ghost invariant = { λ s. (vec_len s.bytes ≤ s.room) × (s.room ≤ vec_capacity s.bytes) ×
        (1 ≤ s.step) };
}

impl MemorySink {
    pub fn new(
        alloc: Global,
        room: usize,
        step: usize,
        fails: Vec<u64>,
    ) -> Result<MemorySink, NoMemory>
        requires { 1 ≤ step }
        ensures { IfOk result (λ s. s ≡ record {
          written = [];
          room = room;
          step = step;
          fails = fails.items;
          calls = 0;
          faults = 0;
        }) }
    {
        Ok(MemorySink {
            bytes: Vec::with_capacity(alloc, room)?,
            room,
            step,
            fails,
            calls: 0,
            faults: 0,
        })
    }

    pub fn written(&self) -> &[u8]
        ensures { result.now ≡ self.now.written }
    {
        &self.bytes
    }

    // Counts a failure.
    fn fail(&mut self) -> SinkFault
        ensures { self.new ≡ record self.old { faults = next_count self.old.faults } }
    {
        self.faults = self.faults.saturating_add(1);
        SinkFault::Failed
    }
}

impl Sink for MemorySink {
    ghost written = { λ s. Some s.written };

    ghost faults = { λ s. s.faults };

    ghost sure = { sure_of };

    fn write(&mut self, piece: &[u8]) -> Result<usize, SinkFault>
        requires { 0 < length piece.now }

        // Exactly the listed calls and the pieces whose share does not fit fail.
        ensures takes { IfOk result (WriteTakes self.old piece.now) }
        ensures fails { OnErr result (WriteFails self.old piece.now) }

        ensures some { IfOk result (λ count. 0 < count) }
        ensures later { self.old.faults ≤ self.new.faults }
        ensures after { self.new ≡ after_write self.old piece.now result }
    {
        self.calls = self.calls.saturating_add(1);
        let count = piece.len().min(self.step);
        if self.fails.contains(&self.calls) {
            return Err(self.fail());
        }
        if count > self.room - self.bytes.len() {
            return Err(self.fail());
        }
        match self.bytes.extend_from_slice(&piece[..count]) {
            Ok(()) => Ok(count),
            Err(_) => unreachable!(),
        }
    }
}
