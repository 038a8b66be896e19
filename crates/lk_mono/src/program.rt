//! Ground programs of typed programs.

ghost use Rattle.lk_ast.specs.declared.place.Span.{Span as TheSpan};
ghost use Rattle.lk_infer.specs.Inferred.{HasTypes};
ghost use Rattle.lk_mono.specs.Grounded.{Are, AreAllCalled, IsGrounded};
ghost use Rattle.lk_mono.specs.Held.{AreHeld, IsSource};
ghost use Rattle.lk_mono.specs.Instanced.{HasInstances};
ghost use Rattle.lk_mono.specs.Instances.{AreTooMany, Body as TheBody, IsTooLarge, uses_of};
ghost use Rattle.lk_mono.specs.Keeps.{Keeps, SameEvents};
ghost use Rattle.lk_mono.specs.Listed.{AreFound};
ghost use Rattle.lk_mono.specs.Order.{AreRanked, NoHelperCallsItself};
ghost use Rattle.lk_mono.specs.Plain.{ShowsPlain};
ghost use Rattle.lk_mono.specs.Queues.{as_list};
ghost use Rattle.lk_mono.specs.Refused.{HasFault};
ghost use Rattle.lk_mono.specs.Judged.{Judged};
ghost use Rattle.lk_mono.specs.declared.body.Source.{Source as TheSource};
ghost use Rattle.lk_mono.specs.declared.error.MonoError.TheVariants as errors;
ghost use Rattle.lk_mono.specs.declared.error.ShapeKind.{ShapeKind as TheKind};
ghost use Rattle.lk_sound.specs.Nodes.{Use as TheUse};
ghost use Rattle.std.specs.Prelude.{◌≡◌, ◌<◌, Bool, Err, IfOk, List as TheList, false, length, true};

use crate::body::{Body, Source};
use crate::calls::all_calls;
use crate::error::{MonoError, ShapeKind};
use crate::listed::Listed;
use crate::listing::{Instances, list_instances};
use crate::member::Members;
use crate::shapes::{answers_function, first_refused};
use lk_ast::{List, NoMemory, Span, main_of};
use lk_ground::{GroundFun, GroundProgram, ground_laws};
use lk_ground_types::Grounds;
use lk_infer::Typed;
use lk_names::Scoped;
use lk_principal::principal_laws;
use lk_sound::soundness_laws;
use std::alloc::Global;

/// The instances of a list as functions.
fn functions<'p>(
    alloc: Global,
    listed: Listed<'p>,
    bodies: List<Body<'_, 'p>>,
    calls: List<List<u32>>,
) -> Result<List<GroundFun<'p>>, NoMemory>
    ensures { IfOk result (λ funs. (source : TheSource) (mains helpers : TheList TheUse) (in_helper : Bool) (held : TheList TheBody) → AreHeld source bodies.entry held → uses_of held ≡ as_list listed.entry → AreAllCalled mains helpers in_helper held calls → Are source.program.now mains helpers in_helper funs held) }
{
    let mut funs = List::new(alloc);
    let bodies = bodies.into_vec().into_iter().zip(calls.into_vec());
    for (usage, (body, calls)) in listed.into_list().into_vec().into_iter().zip(bodies) {
        funs.push(GroundFun {
            function: body.member.function,
            ty: usage.ty,
            types: body.types,
            calls,
        })?;
    }
    Ok(funs)
}

/// What instances are refused for because of their shapes, if anything, and where. `main_at` is the place of the name of `main`.
fn shape_fault(
    alloc: Global,
    main_at: Span,
    instances: &Instances,
    main_calls: &[List<u32>],
    helper_calls: &[List<u32>],
) -> Result<Option<(ShapeKind, Span)>, NoMemory>
    requires { 0 < length instances.now.mains }
    ensures { IfOk result (λ fault. (source : TheSource) (found : AreFound source instances.now) → AreAllCalled (uses_of found.mains) (uses_of found.helpers) false found.mains main_calls.now → AreAllCalled (uses_of found.mains) (uses_of found.helpers) true found.helpers helper_calls.now → Judged main_at found.mains found.helpers fault) }
{
    let main = instances.mains.at(0);
    if answers_function(&main.ty) {
        return Ok(Some((ShapeKind::MainType, main_at)));
    }
    first_refused(
        alloc,
        instances.main_bodies.as_slice(),
        main_calls,
        instances.helper_bodies.as_slice(),
        helper_calls,
    )
}

/// The ground program of a program with its functions.
fn ground_source<'p>(alloc: Global, source: Source<'_, 'p>) -> Result<GroundProgram<'p>, MonoError>
    requires source { IsSource source }
    ensures grounded { IfOk result (IsGrounded source.entry.program.now source.entry.typed.now.schemes source.entry.typed.now.types) }
    ensures too_many { result ≡ Err errors.TooManyInstances → AreTooMany source.entry.program.now source.entry.typed.now.schemes source.entry.typed.now.types }
    ensures too_large { (at : TheSpan) → result ≡ Err (errors.TypeTooLarge at) → IsTooLarge source.entry.program.now source.entry.typed.now.schemes source.entry.typed.now.types at }
    ensures shape { (kind : TheKind) (at : TheSpan) → result ≡ Err (errors.Shape kind at) → HasFault source.entry.program.now source.entry.typed.now.schemes source.entry.typed.now.types kind at }
{
    let Some(main) = main_of(source.program) else {
        unreachable!();
    };
    let mut grounds = Grounds::new(alloc);
    let instances = list_instances(alloc, source, &mut grounds)?;
    let main_calls = all_calls(
        alloc,
        &grounds,
        &instances.mains,
        &instances.helpers,
        false,
        instances.main_bodies.as_slice(),
    )?;
    let helper_calls = all_calls(
        alloc,
        &grounds,
        &instances.mains,
        &instances.helpers,
        true,
        instances.helper_bodies.as_slice(),
    )?;
    let fault = shape_fault(
        alloc,
        main.name.at,
        &instances,
        main_calls.as_slice(),
        helper_calls.as_slice(),
    )?;
    if let Some((kind, at)) = fault {
        return Err(MonoError::Shape(kind, at));
    }
    Ok(GroundProgram {
        program: source.program,
        funs: functions(alloc, instances.mains, instances.main_bodies, main_calls)?,
        helpers: functions(
            alloc,
            instances.helpers,
            instances.helper_bodies,
            helper_calls,
        )?,
    })
}

/// The ground program of a typed program: its instances in the order of the queue, or what it is refused for.
///
/// An instance at a node of which a type has over 4,096 nodes is refused as `TypeTooLarge` at the first such node; over 4,096
/// instances in both lists together as `TooManyInstances`; and then what can't be shown, compared or run by a database as
/// `Shape`, at the first place. `NoMemory` where memory runs out.
///
/// Its instances are a closed set, `main` among them, whose queries are flat, with the types of their nodes and what their uses
/// call. So no function stands in what the sessions of a program that has one show, these have the same events as the sessions of
/// the ground program, and no helper calls itself, directly or through others.
pub fn ground<'p>(
    alloc: Global,
    program: &'p Scoped,
    typed: &'p Typed,
) -> Result<GroundProgram<'p>, MonoError>
    requires typed { HasTypes program.now typed.now.schemes typed.now.types }
    ensures grounded { IfOk result (IsGrounded program.now typed.now.schemes typed.now.types) }
    ensures keeps { IfOk result (Keeps program.now) }
    ensures instances { IfOk result (HasInstances program.now) }
    ensures plain { IfOk result (λ done. ShowsPlain program.now) }
    ensures events { IfOk result (SameEvents program.now) }
    ensures ranked { IfOk result AreRanked }
    ensures no_cycle { IfOk result NoHelperCallsItself }
    ensures too_many { result ≡ Err errors.TooManyInstances → AreTooMany program.now typed.now.schemes typed.now.types }
    ensures too_large { (at : TheSpan) → result ≡ Err (errors.TypeTooLarge at) → IsTooLarge program.now typed.now.schemes typed.now.types at }
    ensures shape { (kind : TheKind) (at : TheSpan) → result ≡ Err (errors.Shape kind at) → HasFault program.now typed.now.schemes typed.now.types kind at }
{
    ground_laws();
    principal_laws();
    soundness_laws();
    let program = program.program();
    let members = Members::new(alloc, program, typed)?;
    ground_source(
        alloc,
        Source {
            program,
            typed,
            members: &members,
        },
    )
}
