// A sink takes bytes, piece by piece.
ghost use Rattle.std.specs.Prelude.{◌+◌, ◌<◌, ◌≤◌, ℕ, List, length, take, IfOk, IfErr, OnOk, OnErr, Option};
ghost use Rattle.std.specs.Io.KnownBytes.{Appends, WriteAppends};
ghost use Rattle.outside.specs.Causes.{Rose};

use thiserror::Error;

/// Why a sink takes nothing.
#[derive(Clone, Copy, Debug, PartialEq, Eq, Error)]
pub enum SinkFault {
    #[error("the host failed at a write")]
    Failed,
}

/// If bytes go, a piece at a time.
pub trait Sink {
    /// The bytes written so far, if the sink shows them.
    ghost written: { Self → Option (List ℕ) };

    /// How often the host failed. The count never falls.
    ghost faults: { Self → ℕ };

    /// So many more bytes are taken without a fault.
    ghost sure: { Self → ℕ };

    /// Writes the first bytes of a piece, one at least, or fails and has written none of it.
    fn write(&mut self, piece: &[u8]) -> Result<usize, SinkFault>
        requires { 0 < length piece.now }

        ensures some { IfOk result (λ count. 0 < count) }
        ensures bound { IfOk result (λ count. count ≤ length piece.now) }
        ensures bytes { WriteAppends (written self.old) (written self.new) result piece.now }
        ensures lowered { IfOk result (λ count. sure self.old ≤ sure self.new + count) }

        ensures failed { OnErr result (Rose (faults self.old) (faults self.new)) }
        ensures unsure { OnErr result (sure self.old < length piece.now) }

        ensures later { faults self.old ≤ faults self.new };
}

/// Why not all bytes were written, and how many were.
#[derive(Clone, Copy, Debug, PartialEq, Eq, Error)]
#[error("the host failed at a write: {taken} bytes were taken")]
pub struct WriteFault {
    pub taken: u64,
}

/// Writes all the bytes, or reports how many were written before the failure. It takes no memory.
pub fn write_all<W: Sink>(sink: &mut W, bytes: &[u8]) -> Result<(), WriteFault>
    // All bytes were written; what the sink is sure to take fell by no more than their number.
    ensures all { OnOk result (Appends (W.written sink.old) (W.written sink.new) bytes.now) }
    ensures lowered { OnOk result (W.sure sink.old ≤ W.sure sink.new + length bytes.now) }

    // Else a beginning was written, which is not all. The sink counted a failure, and was not
    // sure to take so much.
    ensures some { IfErr result (λ e.
        Appends (W.written sink.old) (W.written sink.new) (take e.taken bytes.now)) }
    ensures taken { IfErr result (λ e. e.taken < length bytes.now) }
    ensures failed { OnErr result (Rose (W.faults sink.old) (W.faults sink.new)) }
    ensures unsure { OnErr result (W.sure sink.old < length bytes.now) }

    ensures later { W.faults sink.old ≤ W.faults sink.new }
{
    let mut taken = 0;
    while taken < bytes.len() {
        match sink.write(&bytes[taken..]) {
            Ok(count) => taken += count,
            Err(SinkFault::Failed) => {
                return Err(WriteFault {
                    taken: taken as u64,
                });
            }
        }
    }
    Ok(())
}
