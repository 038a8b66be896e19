//! Why a text isn't a schedule.

ghost use Rattle.lk_join.specs.declared.error.ScheduleError.TheVariants as errors;
ghost use Rattle.std.specs.Prelude.{◌≡◌};

use lk_ast::NoMemory;
use thiserror::Error;

/// Why a text isn't a schedule of a run.
#[derive(Clone, Copy, Debug, PartialEq, Eq, Error)]
pub enum ScheduleError {
    /// The number of the first line that has no form, counted from 1, or 0 where the text has more than 4,194,304 bytes.
    #[error("line {0} of the schedule is bad")]
    BadSchedule(u32),
    #[error("out of memory")]
    NoMemory,
}

impl From<NoMemory> for ScheduleError {
    ghost from_gives = { λ _ error. error ≡ errors.NoMemory };

    fn from(_error: NoMemory) -> ScheduleError {
        ScheduleError::NoMemory
    }
}
