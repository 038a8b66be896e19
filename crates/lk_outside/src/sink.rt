ghost use Rattle.std.specs.Prelude.{◌≡◌, List, ℕ, Option, OnOk, OnErr};
ghost use Rattle.lk_outside.specs.Causes.{HasCause};
ghost use Rattle.lk_outside.specs.Sink.{Appends, AppendsFront};

use crate::OutFault;

/// Where output goes.
pub trait Sink {
    /// The bytes that it took, or `None` where that isn't told.
    ghost taken: { Self → Option (List ℕ) };

    /// The count of faults. A call that answers `Failed` raises it, and one that passes leaves it as it was.
    ghost faults: { Self → ℕ };

    /// Takes a piece. `Ok` says that the whole piece was taken; where it is refused, a first part of it may have been
    /// taken.
    fn write(&mut self, piece: &[u8]) -> Result<(), OutFault>
        ensures ok { OnOk result (Appends (taken self.old) (taken self.new) piece.now) }
        ensures refused { OnErr result (AppendsFront (taken self.old) (taken self.new) piece.now) }
        ensures cause { HasCause (faults self.old) (faults self.new) result };

    /// The count of faults, which stays at the greatest `u64` once it is there.
    fn faults(&self) -> u64
        ensures { result ≡ faults self.now };
}
