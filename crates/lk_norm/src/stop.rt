//! Why the making of a normal form stops, and the bytes that are left for its text.

ghost use Rattle.lk_norm.specs.Made.{Charged, taken};
ghost use Rattle.lk_norm.specs.declared.stop.Stop.TheVariants as stops;
ghost use Rattle.std.specs.Prelude.{◌≡◌};

use lk_ast::NoMemory;

/// Why the making stops.
#[derive(Clone, Copy, PartialEq, Eq)]
pub enum Stop {
    /// The text is longer than what was left.
    TooLong,
    NoMemory,
}

impl From<NoMemory> for Stop {
    ghost from_gives = { λ _ error. error ≡ stops.NoMemory };

    fn from(_error: NoMemory) -> Stop {
        Stop::NoMemory
    }
}

/// Takes so many bytes from what is left.
pub fn charge(left: &mut u64, bytes: u64) -> Result<(), Stop>
    ensures { Charged result left.new (taken bytes left.old) }
{
    if *left < bytes {
        return Err(Stop::TooLong);
    }
    *left -= bytes;
    Ok(())
}
