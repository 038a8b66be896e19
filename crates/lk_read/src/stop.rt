use lk_ast::NoMemory as OutOfMemory;
use thiserror::Error;

/// Why reading stopped.
#[derive(Clone, Copy, Debug, PartialEq, Eq, Error)]
pub enum Stop {
    /// At the token from which so many are left, itself included, the first one that fits nowhere; 0 at the end.
    #[error("unexpected token, {0} from the end")]
    At(usize),
    /// The room for nesting and turns was too small. Each reader says how much suffices.
    #[error("no room")]
    Spent,
    #[error("out of memory")]
    NoMemory,
}

impl From<OutOfMemory> for Stop {
    ghost use Rattle.lk_read.specs.declared.stop.Stop.TheVariants.{NoMemory};
    ghost use Rattle.std.specs.Prelude.{◌≡◌};

    ghost from_gives = { λ _ stop. stop ≡ NoMemory };

    fn from(_: OutOfMemory) -> Stop {
        Stop::NoMemory
    }
}
