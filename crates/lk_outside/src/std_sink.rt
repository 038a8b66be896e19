ghost use Rattle.std.specs.Prelude.{◌≡◌, None, Err, IsErr, IsOk};
ghost use Rattle.lk_outside.specs.Causes.{HasCause, count_after};

use crate::{OutFault, Sink};
use std::io;

/// The standard output. What it took isn't told.
#[derive(Drop)]
pub struct StdSink<'a, R> {
    rt: &'a R,
    faults: u64,
}

impl<'a, R: Print> StdSink<'a, R> {
    /// The standard output of this runtime. No write has failed yet.
    pub fn new(rt: &'a R) -> StdSink<'a, R>
        ensures { ⟦<StdSink<'a, R> as Sink>⟧.faults result ≡ 0 }
    {
        StdSink { rt, faults: 0 }
    }

    // What a write comes to where the system gave this answer.
    fn told(&mut self, answer: io::Result<()>) -> Result<(), OutFault>
        ensures given { IsOk answer → IsOk result }
        ensures refused { IsErr answer → result ≡ Err OutFault.Failed }
        ensures counted { self.new.faults ≡ count_after result self.old.faults }
        ensures cause { HasCause self.old.faults self.new.faults result }
    {
        match answer {
            Ok(()) => Ok(()),
            Err(_) => {
                self.faults = self.faults.saturating_add(1);
                Err(OutFault::Failed)
            }
        }
    }
}

impl<'a, R: Print> Sink for StdSink<'a, R> {
    ghost taken = { λ _. None };

    ghost faults = { λ sink. sink.faults };

    fn write(&mut self, piece: &[u8]) -> Result<(), OutFault> {
        let answer = self.rt.write_all(piece);
        self.told(answer)
    }

    fn faults(&self) -> u64 {
        self.faults
    }
}
