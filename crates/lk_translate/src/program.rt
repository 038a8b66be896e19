//! The SQL of a ground program.

ghost use Rattle.lk_ast.specs.declared.place.Span.{Span as TheSpan};
ghost use Rattle.lk_sites.specs.SiteSeen.{shown};
ghost use Rattle.lk_translate.specs.Translation.{AreTranslated, IsFirstFault, fault_at, first_fault};
ghost use Rattle.lk_translate.specs.Tried.{AreMade, IsMade};
ghost use Rattle.lk_translate.specs.declared.error.Size.{Size as TheSize};
ghost use Rattle.lk_translate.specs.declared.error.TranslateError.TheVariants as errors;
ghost use Rattle.std.specs.Prelude.{◌≡◌, Err, IfOk, Some, map};

use crate::block::{Stop, code_at};
use crate::error::TranslateError;
use crate::translated::Translated;
use lk_ast::List;
use lk_ground::GroundProgram;
use lk_inline::Inliner;
use lk_sites::{QuerySite, query_sites};
use std::alloc::Global;

/// All queries, readings of tables, updates and deletions of a ground program in SQL, in the order of their labels.
///
/// `TooLarge` where one of them has more than 65,536 nodes with those of the bodies that it calls, or else, of a query or a
/// reading, more than 1,024 branches, or else a text of more than 1,048,576 bytes, the texts of the scalars of an update or a
/// deletion counted together. It names the one with the least label. `NoMemory` where memory runs out.
pub fn translate(alloc: Global, program: &GroundProgram) -> Result<List<Translated>, TranslateError>
    ensures translated { IfOk result (AreTranslated program.now.program.now program.now) }
    ensures too_large { (size : TheSize) (at : TheSpan) → result ≡ Err (errors.TooLarge size at) → IsFirstFault program.now.program.now program.now size at }
{
    let inliner = Inliner::new(alloc, program)?;
    let sites = query_sites(alloc, program)?;
    all_sites(alloc, &inliner, sites.as_slice())
}

/// All these sites in SQL, or the refusal of the first that is too large.
fn all_sites<'g, 'p>(
    alloc: Global,
    inliner: &Inliner<'g, 'p>,
    sites: &[QuerySite<'g, 'p>],
) -> Result<List<Translated>, TranslateError>
    ensures translated { IfOk result (AreMade inliner.now (map shown sites.now)) }
    ensures too_large { (size : TheSize) (at : TheSpan) → result ≡ Err (errors.TooLarge size at) → first_fault inliner.now.program.now inliner.now.helpers (map shown sites.now) ≡ Some (size, at) }
{
    let mut all = List::new(alloc);
    for site in sites {
        match one_site(alloc, inliner, site) {
            Ok(one) => all.push(one)?,
            Err(error) => return Err(error),
        }
    }
    Ok(all)
}

/// What stands at a site in SQL, or that it is too large.
fn one_site<'g, 'p>(
    alloc: Global,
    inliner: &Inliner<'g, 'p>,
    site: &QuerySite<'g, 'p>,
) -> Result<Translated, TranslateError>
    ensures translated { IfOk result (IsMade inliner.now (shown site.now)) }
    ensures too_large { (size : TheSize) (at : TheSpan) → result ≡ Err (errors.TooLarge size at) → fault_at inliner.now.program.now inliner.now.helpers (shown site.now) ≡ Some (size, at) }
{
    match code_at(alloc, inliner, site) {
        Ok(code) => Ok(Translated {
            label: site.label,
            span: site.expr.span,
            code,
        }),
        Err(Stop::TooLarge(size)) => Err(TranslateError::TooLarge(size, site.expr.span)),
        Err(Stop::NoMemory) => Err(TranslateError::NoMemory),
    }
}
