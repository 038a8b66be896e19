//! Functions as values, and calls.

ghost use Rattle.std.specs.Prelude.{IfOk};
ghost use Rattle.lk_ast.specs.Functions.{function_named};
ghost use Rattle.lk_index.specs.Free.{captured};
ghost use Rattle.lk_locals.specs.Names.{bind_all, lookup_all};
ghost use Rattle.lk_sem.specs.Acts.{IsAct};
ghost use Rattle.std.specs.Prelude.{Some};
ghost use Rattle.lk_ast.specs.declared.value.FunValue.{FunValue as TheFunction};
ghost use Rattle.lk_evaluation.specs.Source.{apply, apply_first, call, closure, function_value, goto};

use crate::act::Act;
use crate::values::first;
use lk_ast::{Expr, FunValue, LambdaExpr, List, Loc, NoMemory, Span, Text, Value, Word};
use lk_index::{Index, captured};
use lk_locals::Locals;
use std::alloc::Global;

/// The value of the first function of that name; `at` is the node's span.
pub fn function_value<'p>(alloc: Global, index: &Index<'p>, at: Span, name: &Text) -> Act<'p>
    ensures { IsAct at result (function_value at (function_named index.now name.now)) }
{
    match index.function(name.as_str()) {
        Some(function) => Act::Give(Value::Fun(FunValue {
            site: function.name.at.start,
            env: List::new(alloc),
        })),
        None => Act::Lacks,
    }
}

/// The value of a lambda, with those of the names that it captures; `at` is its span.
pub fn closure<'p>(
    alloc: Global,
    at: Span,
    lambda: &'p LambdaExpr,
    scope: Locals<'p>,
) -> Result<Act<'p>, NoMemory>
    ensures { IfOk result (λ a. IsAct at a (closure at (lookup_all scope.entry (captured lambda.now)))) }
{
    let names = captured(alloc, lambda)?;
    match scope.get_all(alloc, names.as_slice())? {
        Some(env) => Ok(Act::Give(Value::Fun(FunValue {
            site: at.start,
            env,
        }))),
        None => Ok(Act::Lacks),
    }
}

/// A call of the first function of that name; `at` is the node's span.
pub fn call<'p>(
    alloc: Global,
    index: &Index<'p>,
    at: Span,
    name: &Text,
    args: List<Value>,
) -> Result<Act<'p>, NoMemory>
    ensures { IfOk result (λ a. IsAct at a (call at args (function_named index.now name.now))) }
{
    match index.function(name.as_str()) {
        Some(function) => {
            let none = Locals::new(alloc)?;
            let params = function.params.as_slice();
            go_to(
                alloc,
                at,
                function.place,
                none,
                params,
                args,
                &function.body,
            )
        }
        None => Ok(Act::Lacks),
    }
}

/// A call of the first value with the others; `at` is the node's span.
pub fn apply_first<'p>(
    alloc: Global,
    index: &Index<'p>,
    at: Span,
    values: List<Value>,
) -> Result<Act<'p>, NoMemory>
    ensures { IfOk result (λ a. IsAct at a (apply_first index.now at values)) }
{
    let Some((function, args)) = first(values) else {
        return Ok(Act::Lacks);
    };
    match function {
        Value::Fun(f) => apply(alloc, index, at, f, args),
        _ => Ok(Act::Lacks),
    }
}

/// A call of a function by its value; `at` is the node's span.
fn apply<'p>(
    alloc: Global,
    index: &Index<'p>,
    at: Span,
    f: FunValue,
    args: List<Value>,
) -> Result<Act<'p>, NoMemory>
    ensures { IfOk result (λ a. IsAct at a (apply index.now at (Some f) args)) }
{
    if let Some(function) = index.function_at(f.site) {
        let none = Locals::new(alloc)?;
        let params = function.params.as_slice();
        return go_to(
            alloc,
            at,
            function.place,
            none,
            params,
            args,
            &function.body,
        );
    }
    match index.lambda_at(f.site) {
        Some(found) => {
            let FunValue { site: _, env } = f;
            let kept = Locals::new(alloc)?.bind_each(alloc, found.names.as_slice(), env)?;
            let params = found.lambda.params.as_slice();
            go_to(
                alloc,
                at,
                found.lambda.place,
                kept,
                params,
                args,
                &found.lambda.body,
            )
        }
        None => Ok(Act::Lacks),
    }
}

/// Goes to the body of a function of that mark with the arguments under the names of the parameters, after other names;
/// `at` is the node's span.
fn go_to<'p>(
    alloc: Global,
    at: Span,
    mark: Loc,
    kept: Locals<'p>,
    params: &'p [Word],
    args: List<Value>,
    body: &'p Expr,
) -> Result<Act<'p>, NoMemory>
    ensures { IfOk result (λ a. (f : TheFunction) → IsAct at a (goto at mark f args body.now (bind_all kept.entry params.now args))) }
{
    match kept.bind_all(alloc, params, args)? {
        Some(scope) => Ok(Act::Goto(mark, body, scope)),
        None => Ok(Act::Lacks),
    }
}
