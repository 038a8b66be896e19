//! Why a call is refused.

ghost use Rattle.lk_exec.specs.Causes.{raised, raised_in};
ghost use Rattle.std.specs.Prelude.{◌≡◌};

use lk_outside::OutFault;
use thiserror::Error;

/// Why a query, an insertion, an update or a deletion is refused.
#[derive(Clone, Copy, Debug, PartialEq, Eq, Error)]
pub enum ExecError {
    /// The store refused a call, or a table holds a row of other columns.
    #[error("the store failed")]
    StoreFault,
    /// The insertion would leave that many rows in its table, more than 65,536.
    #[error("a table of {0} rows")]
    TableFull(u64),
    /// Memory ran out, or parts nest over 4,096 deep.
    #[error("out of memory")]
    NoMemory,
}

/// What a fault of the store is to the caller.
pub fn raised(fault: OutFault) -> ExecError
    ensures { result ≡ raised fault }
{
    match fault {
        OutFault::Failed => ExecError::StoreFault,
        OutFault::NoMemory => ExecError::NoMemory,
    }
}

/// The same answer, or what its fault is to the caller.
pub fn raised_in<T>(answer: Result<T, OutFault>) -> Result<T, ExecError>
    ensures { result ≡ raised_in answer }
{
    match answer {
        Ok(found) => Ok(found),
        Err(fault) => Err(raised(fault)),
    }
}
