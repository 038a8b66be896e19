ghost use Rattle.std.specs.Prelude.{◌≡◌};

use lk_ast::NoMemory as OutOfMemory;
use thiserror::Error;

/// Why the outside refuses a call: it failed, or memory ran out.
#[derive(Clone, Copy, Debug, PartialEq, Eq, Error)]
pub enum OutFault {
    #[error("the outside failed")]
    Failed,
    #[error("out of memory")]
    NoMemory,
}

impl From<OutOfMemory> for OutFault {
    ghost use Rattle.lk_outside.specs.declared.fault.OutFault.TheVariants.{NoMemory};

    ghost from_gives = { λ _ fault. fault ≡ NoMemory };

    fn from(_error: OutOfMemory) -> OutFault {
        OutFault::NoMemory
    }
}
