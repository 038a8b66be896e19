//! Lowering.

ghost use Rattle.lk_lower.specs.Law.{ArePreOrdered};
ghost use Rattle.lk_lower.specs.Lowering.{AreForms};
ghost use Rattle.lk_ground.specs.Language.{function_of};
ghost use Rattle.lk_ir.specs.Tables.{HasBodies, most_instances};
ghost use Rattle.lk_lower.specs.Instances.{IsMade, LowersFun, OpensFun, as_forms, beginning, made_of};
ghost use Rattle.lk_lower.specs.Once.{StandOnce};
ghost use Rattle.lk_lower.specs.Steps.{IsBody};
ghost use Rattle.lk_lower.specs.Walked.{state_of};
ghost use Rattle.std.specs.Prelude.{◌≡◌, ◌+◌, ◌++◌, ◌∷◌, ◌<◌, [], IfOk, OnOk};

use crate::bodies::{ROOM, expr};
use crate::labels::Labels;
use crate::locals::word_places;
use crate::names::local_names;
use crate::type_table::TypeTable;
use crate::walk::{At, Walk, next_label, next_number, push_label, type_number};
use lk_ast::{FunDef, List, NoMemory, Shared, Text};
use lk_ground::{GroundFun, GroundProgram};
use lk_ir::{Body, Form, Forms, Ir, LabelForm, Touched};
use lk_types::Ground;
use std::alloc::Global;

/// What a walk over all instances has made.
#[derive(Drop)]
struct Made {
    nodes: List<Form>,
    labels: List<LabelForm>,
    wholes: List<u32>,
    titles: List<Text>,
    types: List<Ground>,
    tables: List<Touched>,
}

/// A ground program as one table of nodes. `NoMemory` also where parts stand more than 4,096 deep in one another, since each takes a
/// piece of the stack, where there are 2^32 nodes, labels or types, and where types, calls or local names aren't those of a program.
pub fn lower(alloc: Global, p: &GroundProgram) -> Result<Ir, NoMemory>
    ensures lowered { IfOk result (AreForms p.now) }
    ensures ordered { IfOk result ArePreOrdered }
    ensures distinct { IfOk result (λ forms. StandOnce forms.types forms.tables) }
{
    let locals = local_names(alloc, p.funs.as_slice())?;
    let made = instances(alloc, locals.as_slice(), p.funs.as_slice())?;
    Ok(table(alloc, locals, made)?)
}

/// The table of what was made.
fn table(alloc: Global, locals: List<Text>, made: Made) -> Result<Ir, NoMemory>
    requires { HasBodies (as_forms locals made) }
    ensures { IfOk result (λ ir. ir ≡ as_forms locals made) }
{
    let Made {
        nodes,
        labels,
        wholes,
        titles,
        types,
        tables,
    } = made;
    let forms = Forms {
        nodes,
        labels,
        wholes,
        titles,
        locals,
        types,
        tables,
    };
    Ok(Ir::new(Shared::new(alloc, forms)?))
}

/// The walk over these instances.
fn instances<'w>(alloc: Global, locals: &'w [Text], funs: &'w [GroundFun]) -> Result<Made, NoMemory>
    ensures { IfOk result (IsMade funs.now locals.now) }
{
    let mut walk = begin(alloc, locals)?;
    let mut wholes = List::new(alloc);
    let mut titles = List::new(alloc);
    let mut number: u32 = 0;
    for fun in funs {
        note_fun(alloc, fun, &walk, &mut wholes, &mut titles)?;
        lower_fun(alloc, number, fun, &mut walk)?;
        number = one_more(number)?;
    }
    Ok(finish(walk, wholes, titles))
}

/// Notes the label and the name of the instance that comes next.
fn note_fun(
    alloc: Global,
    fun: &GroundFun,
    walk: &Walk,
    wholes: &mut List<u32>,
    titles: &mut List<Text>,
) -> Result<(), NoMemory>
    ensures wholes { OnOk result (wholes.new ≡ wholes.old ++ (state_of walk.now).pending.label ∷ []) }
    ensures titles { OnOk result (titles.new ≡ titles.old ++ (function_of fun.now).name.text ∷ []) }
{
    let title = fun.function.name.text.copy(alloc)?;
    wholes.push(next_label(walk)?)?;
    titles.push(title)?;
    Ok(())
}

/// The next number.
fn one_more(number: u32) -> Result<u32, NoMemory>
    ensures next { IfOk result (λ next. next ≡ number + 1) }
    ensures few { IfOk result (λ next. next < most_instances) }
{
    number.checked_add(1).ok_or(NoMemory)
}

/// What the walk has made with these labels and names of instances.
fn finish(walk: Walk, wholes: List<u32>, titles: List<Text>) -> Made
    ensures are { result ≡ made_of (state_of walk.entry) wholes titles }
    ensures distinct { StandOnce result.types result.tables }
{
    let Walk {
        locals: _,
        nodes,
        labels,
        types,
        types_left: _,
        calls_left: _,
    } = walk;
    let (labels, tables) = labels.into_parts();
    Made {
        nodes: List::from_vec(nodes),
        labels,
        wholes,
        titles,
        types: types.into_types(),
        tables,
    }
}

/// The walk at its beginning: label 0 is `print`.
fn begin(alloc: Global, locals: &[Text]) -> Result<Walk, NoMemory>
    ensures { IfOk result (λ walk. state_of walk ≡ beginning locals.now) }
{
    let mut labels = Labels::new(alloc);
    labels.push(LabelForm {
        owner: 0,
        ty: 0,
        node: None,
        body: None,
    })?;
    Ok(Walk {
        locals,
        nodes: Vec::new(alloc),
        labels,
        types: TypeTable::new(alloc),
        types_left: &[],
        calls_left: &[],
    })
}

/// The walk over an instance.
fn lower_fun<'w>(
    alloc: Global,
    number: u32,
    fun: &'w GroundFun,
    walk: &mut Walk<'w>,
) -> Result<(), NoMemory>
    ensures { OnOk result (LowersFun number fun.now (state_of walk.old) (state_of walk.new)) }
{
    let label = begin_fun(alloc, number, fun, walk)?;
    let at = At {
        alloc,
        owner: number,
        within: label,
    };
    expr(&at, ROOM, &fun.function.body, walk)?;
    Ok(())
}

/// The label of an instance, whose types and calls come next.
fn begin_fun<'w>(
    alloc: Global,
    number: u32,
    fun: &'w GroundFun,
    walk: &mut Walk<'w>,
) -> Result<u32, NoMemory>
    ensures { IfOk result (OpensFun number fun.now (state_of walk.old) (state_of walk.new)) }
{
    let label = next_label(walk)?;
    let ty = type_number(&fun.ty, walk)?;
    let body = body_of(alloc, fun.function, walk)?;
    push_label(
        LabelForm {
            owner: number,
            ty,
            node: None,
            body: Some(body),
        },
        walk,
    )?;
    walk.types_left = fun.types.as_slice();
    walk.calls_left = fun.calls.as_slice();
    Ok(label)
}

/// The body of a function, which captures nothing. It is the next node.
fn body_of(alloc: Global, function: &FunDef, walk: &Walk) -> Result<Body, NoMemory>
    ensures { IfOk result (IsBody (state_of walk.now).locals function.now.place [] function.now.params (state_of walk.now).pending.next) }
{
    Ok(Body {
        place: function.place,
        names: List::new(alloc),
        params: word_places(alloc, walk.locals, function.params.as_slice())?,
        root: next_number(walk)?,
    })
}
