//! `switch`.

ghost use Rattle.std.specs.Option.{option_copied};
ghost use Rattle.std.specs.Prelude.{◌≡◌, IfOk};
ghost use Rattle.lk_operators.specs.Values.{tag_in};
ghost use Rattle.lk_sem.specs.Acts.{IsAct};
ghost use Rattle.lk_evaluation.specs.Source.{case_of, in_case, in_last, switch};

use crate::act::Act;
use crate::values::after_unit;
use lk_ast::{Case, LastCase, List, NoMemory, Span, Text, Value};
use lk_locals::Locals;
use std::alloc::Global;

/// Goes on with the case of a value's tag, or with the last one; `at` is the node's span.
pub fn switch<'p>(
    alloc: Global,
    at: Span,
    value: Value,
    cases: &'p [Case],
    last: &'p Option<LastCase>,
    scope: Locals<'p>,
) -> Result<Act<'p>, NoMemory>
    ensures { IfOk result (λ a. IsAct at a (switch at value (tag_in value) cases.now last.now scope.entry)) }
{
    match value {
        Value::Tag(tag, held) => match find_case(cases, &tag) {
            Some(case) => in_case(alloc, at, case, held.into_inner(), scope),
            None => in_last(alloc, at, last, Value::Tag(tag, held), scope),
        },
        _ => Ok(Act::Lacks),
    }
}

/// The first case with that tag.
fn find_case<'p>(cases: &'p [Case], tag: &Text) -> Option<&'p Case>
    ensures { option_copied result ≡ case_of tag.now cases.now }
{
    cases.iter().find(|case| case.tag.text.equals(tag))
}

/// Goes on with a case, for what the tag holds.
fn in_case<'p>(
    alloc: Global,
    at: Span,
    case: &'p Case,
    held: Value,
    scope: Locals<'p>,
) -> Result<Act<'p>, NoMemory>
    ensures { IfOk result (λ a. IsAct at a (in_case at case.now.name case.now.body held scope.entry)) }
{
    match &case.name {
        Some(name) => {
            let inner = scope.bind(alloc, name.text.as_str(), held)?;
            Ok(Act::Tail(&case.body, inner))
        }
        None => Ok(after_unit(at, &held, &case.body, scope)),
    }
}

/// Goes on with the case for all other tags, for the whole value.
fn in_last<'p>(
    alloc: Global,
    at: Span,
    last: &'p Option<LastCase>,
    value: Value,
    scope: Locals<'p>,
) -> Result<Act<'p>, NoMemory>
    ensures { IfOk result (λ a. IsAct at a (in_last at last.now value scope.entry)) }
{
    match last {
        Some(last) => {
            let inner = scope.bind(alloc, last.name.text.as_str(), value)?;
            Ok(Act::Tail(&last.body, inner))
        }
        None => Ok(Act::Lacks),
    }
}
