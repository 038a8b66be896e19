//! One query, reading of a table, update or deletion in SQL.

ghost use Rattle.lk_sites.specs.SiteSeen.{shown};
ghost use Rattle.lk_translate.specs.Tried.{Makes, MakesAt, stop_of};
ghost use Rattle.lk_translate.specs.Translation.{inlined_code, inlined_fault};
ghost use Rattle.lk_translate.specs.declared.block.Stop.TheVariants as stop;
ghost use Rattle.std.specs.Prelude.{◌≡◌, Some};

use crate::error::Size;
use crate::translated::Code;
use lk_ast::NoMemory;
use lk_inline::{InlineError, Inliner};
use lk_norm::{NormError, change, normalise};
use lk_query::Inlined;
use lk_sites::QuerySite;
use std::alloc::Global;

/// Why there is no SQL for what stands at a site.
#[derive(Clone, Copy, PartialEq, Eq)]
pub enum Stop {
    TooLarge(Size),
    NoMemory,
}

impl From<NoMemory> for Stop {
    ghost from_gives = { λ _ why. why ≡ stop.NoMemory };

    fn from(_error: NoMemory) -> Stop {
        Stop::NoMemory
    }
}

/// Why there is none where the normal form or its text is too large.
fn stop_of(error: NormError) -> Stop
    ensures { result ≡ stop_of error }
{
    match error {
        NormError::Branches => Stop::TooLarge(Size::Branches),
        NormError::SqlTooLong => Stop::TooLarge(Size::Text),
        NormError::NoMemory => Stop::NoMemory,
    }
}

/// What stands at a site in SQL, or what it is too large in.
pub fn code_at<'g, 'p>(
    alloc: Global,
    inliner: &Inliner<'g, 'p>,
    site: &QuerySite<'g, 'p>,
) -> Result<Code, Stop>
    ensures { MakesAt inliner.now (shown site.now) result }
{
    match inliner.inline(alloc, site) {
        Ok(inlined) => inlined_code(alloc, &inlined),
        Err(InlineError::TooManyNodes) => Err(Stop::TooLarge(Size::Nodes)),
        Err(InlineError::NoMemory) => Err(Stop::NoMemory),
    }
}

/// What is inlined in SQL, or what it is too large in.
fn inlined_code(alloc: Global, inlined: &Inlined) -> Result<Code, Stop>
    ensures { Makes result (inlined_fault inlined.now) (Some (inlined_code inlined.now)) }
{
    match inlined {
        Inlined::Query(query) => match normalise(alloc, query) {
            Ok(sql) => Ok(Code::Select(sql)),
            Err(error) => Err(stop_of(error)),
        },
        Inlined::Change(rows) => match change(alloc, rows) {
            Ok(change) => Ok(Code::Change(change)),
            Err(error) => Err(stop_of(error)),
        },
    }
}
