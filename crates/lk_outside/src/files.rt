ghost use Rattle.std.specs.Prelude.{◌≡◌, ◌≤◌, List, ℕ, Option, length, IfOk, IfSome};
ghost use Rattle.lk_outside.specs.Causes.{HasCause};
ghost use Rattle.lk_outside.specs.Files.{Contents, IsFront, last_failed};

use crate::OutFault;
use lk_ast::Bytes;
use std::alloc::Global;

/// Files, which are read by name.
pub trait Files {
    /// What they contain, or `None` where that isn't told.
    ghost contents: { Self → Option Contents };

    /// The name of the last read that answered `Failed`, at first the empty text.
    ghost failed: { Self → List ℕ };

    /// The count of faults. A call that answers `Failed` raises it, and one that passes leaves it as it was.
    ghost faults: { Self → ℕ };

    /// The first `max` bytes of a file, or all of it where it has fewer. A failed read that finds no memory to keep
    /// the name is refused with `NoMemory`.
    fn read(&mut self, alloc: Global, name: &str, max: u64) -> Result<Bytes, OutFault>
        ensures contents { contents self.new ≡ contents self.old }
        ensures length { IfOk result (λ bytes. length bytes ≤ max) }
        ensures front { IfOk result (λ bytes. IfSome (contents self.old) (λ told.
            IsFront told name.now max bytes)) }
        ensures failed { failed self.new ≡ last_failed result name.now (failed self.old) }
        ensures cause { HasCause (faults self.old) (faults self.new) result };

    /// The name of the last read that answered `Failed`, at first the empty text.
    fn failed(&self) -> &str
        ensures { result.now ≡ failed self.now };

    /// The count of faults, which stays at the greatest `u64` once it is there.
    fn faults(&self) -> u64
        ensures { result ≡ faults self.now };
}
