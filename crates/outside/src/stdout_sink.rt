// Standard output as a sink. Nothing is shown of what was written.
ghost use Rattle.std.specs.Prelude.{◌≡◌, None};

use crate::sink::{Sink, SinkFault};

/// Standard output. A write by the host that takes nothing of a piece is a fault too.
#[derive(Debug, Drop)]
pub struct StdoutSink<R: Print + Drop> {
    rt: R,
    faults: u64,
}

impl<R: Print + Drop> StdoutSink<R> {
    pub fn new(rt: R) -> StdoutSink<R>
        ensures { ⟦<StdoutSink<R> as Sink>⟧.faults result ≡ 0 }
    {
        StdoutSink { rt, faults: 0 }
    }
}

impl<R: Print + Drop> Sink for StdoutSink<R> {
    ghost written = { λ _. None };

    ghost faults = { λ s. s.faults };

    ghost sure = { λ _. 0 };

    fn write(&mut self, piece: &[u8]) -> Result<usize, SinkFault> {
        match self.rt.write_some(piece) {
            Ok(count) if count > 0 => Ok(count),
            _ => {
                self.faults = self.faults.saturating_add(1);
                Err(SinkFault::Failed)
            }
        }
    }
}
