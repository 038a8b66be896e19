ghost use Rattle.std.specs.Prelude.{◌≡◌, ◌↔◌, [], Some, IsErrOf};
ghost use Rattle.lk_outside.specs.Calls.{NextFails};
ghost use Rattle.lk_outside.specs.Causes.{HasCause};
ghost use Rattle.lk_outside.specs.MemSink.{state_after};

use crate::calls::NumberedCalls;
use crate::{OutFault, Sink};
use lk_ast::{Bytes, List};
use std::alloc::Global;
use std::marker::Model;

/// A sink that keeps what it took. The writes of given numbers fail. A refused write takes nothing.
#[derive(Drop)]
pub struct MemSink {
    taken: Bytes,
    calls: NumberedCalls,
    faults: u64,
}

impl Model for MemSink {
    ghost use Rattle.lk_outside.specs.MemSink.{SinkState};

    ghost Value = { SinkState };

    ghost view = { λ sink. record { taken = sink.taken; calls = sink.calls; faults = sink.faults } };
}

impl MemSink {
    /// Nothing taken yet. The writes whose numbers, from 0, are in `failing` fail.
    pub fn new(alloc: Global, failing: List<u64>) -> MemSink
        ensures taken { result.taken ≡ [] }
        ensures calls { result.calls ≡ record { failing = failing; made = 0 } }
        ensures faults { result.faults ≡ 0 }
    {
        MemSink {
            taken: Bytes::new(alloc),
            calls: NumberedCalls::new(failing),
            faults: 0,
        }
    }

    /// The bytes taken.
    pub fn taken(&self) -> &Bytes
        ensures { result.now ≡ self.now.taken }
    {
        &self.taken
    }
}

impl Sink for MemSink {
    ghost taken = { λ sink. Some sink.taken };

    ghost faults = { λ sink. sink.faults };

    fn write(&mut self, piece: &[u8]) -> Result<(), OutFault>
        ensures fails { IsErrOf result OutFault.Failed ↔ NextFails self.old.calls }
        ensures after { self.new ≡ state_after result piece.now self.old }
        ensures cause { HasCause self.old.faults self.new.faults result }
    {
        if self.calls.next_fails() {
            self.faults = self.faults.saturating_add(1);
            return Err(OutFault::Failed);
        }
        self.taken.push_slice(piece)?;
        Ok(())
    }

    fn faults(&self) -> u64 {
        self.faults
    }
}
