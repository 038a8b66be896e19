ghost use Rattle.std.specs.Prelude.{◌≡◌, [], IsErr};
ghost use Rattle.lk_outside.specs.Causes.{HasCause};
ghost use Rattle.lk_outside.specs.Failures.{failures_after};

use crate::OutFault;
use lk_ast::{Bytes, Text};
use std::alloc::Global;
use std::marker::Model;

/// The reads that failed: the name of the last, and how many they are.
#[derive(Drop)]
pub(crate) struct FailedReads {
    last: Option<Text>,
    count: u64,
}

impl Model for FailedReads {
    ghost use Rattle.std.specs.Prelude.{[], unwrap_or};
    ghost use Rattle.lk_outside.specs.Failures.{Failures};

    ghost Value = { Failures };

    ghost view = { λ reads. record { failed = unwrap_or reads.last []; faults = reads.count } };
}

impl FailedReads {
    /// No read has failed yet.
    pub(crate) fn new() -> FailedReads
        ensures { result ≡ record { failed = []; faults = 0 } }
    {
        FailedReads {
            last: None,
            count: 0,
        }
    }

    /// Refuses a read of this name: with `Failed`, and counts it, or with `NoMemory` where no memory is found to keep
    /// the name.
    pub(crate) fn refuse(&mut self, alloc: Global, name: &str) -> Result<Bytes, OutFault>
        ensures refused { IsErr result }
        ensures after { self.new ≡ failures_after result name.now self.old }
        ensures cause { HasCause self.old.faults self.new.faults result }
    {
        self.last = Some(Text::from_str(alloc, name)?);
        self.count = self.count.saturating_add(1);
        Err(OutFault::Failed)
    }

    /// The name of the last, at first the empty text.
    pub(crate) fn last(&self) -> &str
        ensures { result.now ≡ self.now.failed }
    {
        match &self.last {
            None => "",
            Some(name) => name.as_str(),
        }
    }

    /// How many they are.
    pub(crate) fn count(&self) -> u64
        ensures { result ≡ self.now.faults }
    {
        self.count
    }
}
