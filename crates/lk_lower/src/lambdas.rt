//! Lambdas: the node and the label of each, which are whole before its body is lowered, since that is the next node.

ghost use Rattle.lk_index.specs.Free.{captured as captured_by, texts};
ghost use Rattle.lk_lower.specs.Steps.{IsBody, OpensLambda, form_of};
ghost use Rattle.lk_lower.specs.Walked.{state_of};
ghost use Rattle.std.specs.Prelude.{◌≡◌, ◌+◌, [], IfOk};

use crate::locals::{places_of, word_places};
use crate::walk::{At, Walk, next_label, next_number, own_type, push_label, push_node, take_type};
use lk_ast::{LambdaExpr, List, NoMemory, Span, Text};
use lk_index::captured;
use lk_ir::{Body, Form, Kind, LabelForm};
use std::alloc::Global;

/// The node and the label of a lambda. Its label is answered.
pub fn begin_lambda(at: &At, span: Span, l: &LambdaExpr, walk: &mut Walk) -> Result<u32, NoMemory>
    ensures { IfOk result (OpensLambda at.now.owner at.now.within (state_of walk.old) (state_of walk.new) span l.now) }
{
    let number = next_number(walk)?;
    let label = next_label(walk)?;
    let ty = own_type(walk)?;
    let names = captured(at.alloc, l)?;
    let body = body_of(at.alloc, walk.locals, names.as_slice(), l, number)?;
    push_label(
        LabelForm {
            owner: at.owner,
            ty,
            node: Some(number),
            body: Some(body),
        },
        walk,
    )?;
    let places = places_of(at.alloc, walk.locals, names.as_slice())?;
    push_node(form_of(at, span, ty, Kind::Lambda(label, places)), walk)?;
    take_type(walk);
    Ok(label)
}

/// A node without children.
fn form_of(at: &At, span: Span, ty: u32, kind: Kind) -> Form
    ensures { result ≡ form_of at.now.within span ty kind [] [] }
{
    Form {
        at: span,
        within: at.within,
        kind,
        parts: List::new(at.alloc),
        tails: List::new(at.alloc),
        ty,
    }
}

/// The body of a lambda that captures these names and whose node has this number.
fn body_of(
    alloc: Global,
    locals: &[Text],
    names: &[&str],
    l: &LambdaExpr,
    number: u32,
) -> Result<Body, NoMemory>
    ensures { IfOk result (IsBody locals.now l.now.place (texts names.now) l.now.params (number + 1)) }
{
    Ok(Body {
        place: l.place,
        names: places_of(alloc, locals, names)?,
        params: word_places(alloc, locals, l.params.as_slice())?,
        root: number.checked_add(1).ok_or(NoMemory)?,
    })
}
