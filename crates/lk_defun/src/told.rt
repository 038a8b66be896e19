//! What a program tells of its labels.

ghost use Rattle.lk_code.specs.Tables.{type_at};
ghost use Rattle.lk_code.specs.Told.{effect_of, env_of, of_block, of_function, of_node, printer, taken, told, types_at};
ghost use Rattle.lk_defun.specs.Signatures.{told_by};
ghost use Rattle.lk_ir.specs.Tables.{form_at};
ghost use Rattle.lk_ir.specs.declared.nodes.Form.{Form as TheForm};
ghost use Rattle.lk_typing.specs.Types.{unit};
ghost use Rattle.std.specs.Option.{option_and_then};
ghost use Rattle.std.specs.Prelude.{◌≡◌, ◌∷◌, [], IfOk, Some};

use crate::types::{kept_types, node_types, type_at, types_at};
use lk_ast::{List, Loc, NoMemory, Shared, Text};
use lk_code::{FunInfo, FunKind};
use lk_ground_types::{copy_effects, share_type};
use lk_ir::{Block, CpsProgram, Form, Forms, Kept, Kind, LabelForm};
use lk_types::{Effect, Ground};
use std::alloc::Global;

/// The types of parameters, of the result and of what is kept, with the effects.
pub struct Signature {
    pub params: List<Ground>,
    pub effects: List<Effect>,
    pub result: Ground,
    pub env: List<Ground>,
}

impl Drop for Signature {
    fn drop(self) {
        let Self {
            params: _,
            effects: _,
            result: _,
            env: _,
        } = self;
    }
}

impl Signature {
    /// What has this name, this kind and this place.
    pub fn of(self, name: Text, kind: FunKind, place: Loc) -> FunInfo
        ensures { result ≡ record { name = name; kind = kind; place = place; params = self.params; effects = self.effects; result = self.result; env = self.env } }
    {
        let Self {
            params,
            effects,
            result,
            env,
        } = self;
        FunInfo {
            name,
            kind,
            place,
            params,
            effects,
            result,
            env,
        }
    }
}

/// What is told of a label.
pub fn told_at(
    alloc: Global,
    p: &CpsProgram,
    label: u32,
    form: &LabelForm,
) -> Result<Signature, NoMemory>
    ensures { IfOk result (λ s. told p.now.forms (env_of p.now label) form.now.ty form.now.node form.now.body ≡ Some (told_by s)) }
{
    let forms = p.forms.get();
    match (&form.body, form.node) {
        (Some(_), _) => function_told(alloc, forms, form.ty, env_of(p, label)),
        (None, Some(node)) => node_told(alloc, forms, form.ty, node),
        (None, None) => printer_told(alloc),
    }
}

/// The numbers of the types of what is kept by what has this label.
fn env_of(p: &CpsProgram, label: u32) -> &[u32]
    ensures { result.now ≡ env_of p.now label }
{
    match p.envs.get().get(label as usize) {
        Some(env) => env.as_slice(),
        None => &[],
    }
}

/// What is told of a function of the type with this number.
fn function_told(alloc: Global, forms: &Forms, ty: u32, env: &[u32]) -> Result<Signature, NoMemory>
    ensures { IfOk result (λ s. of_function (type_at forms.now ty) (types_at forms.now env.now) ≡ Some (told_by s)) }
{
    match forms.types.get(ty as usize) {
        Some(Ground::Fun(params, effects, result)) => Ok(Signature {
            params: share_all(alloc, params.get().as_slice())?,
            effects: copy_effects(alloc, effects.get().as_slice())?,
            env: types_at(alloc, forms, env)?,
            result: share_type(result.get())?,
        }),
        _ => Err(NoMemory),
    }
}

/// The same types once more.
fn share_all(alloc: Global, types: &[Ground]) -> Result<List<Ground>, NoMemory>
    ensures { IfOk result (λ same. same ≡ types.now) }
{
    let mut same = List::new(alloc);
    for ty in types {
        same.push(share_type(ty)?)?;
    }
    Ok(same)
}

/// What is told of what reads or changes tables, by its node. `NoMemory` also of other nodes, which have no label without a body.
fn node_told(alloc: Global, forms: &Forms, ty: u32, node: u32) -> Result<Signature, NoMemory>
    ensures { IfOk result (λ s. option_and_then (λ (form : TheForm). of_node forms.now (type_at forms.now ty) form.parts form.kind) (form_at forms.now node) ≡ Some (told_by s)) }
{
    match forms.nodes.get(node as usize) {
        Some(form) => match &form.kind {
            Kind::Reach(block, _, kept) => block_told(
                alloc,
                forms,
                ty,
                *block,
                kept.as_slice(),
                form.parts.as_slice(),
            ),
            _ => Err(NoMemory),
        },
        None => Err(NoMemory),
    }
}

/// What it takes and gives, and its one effect.
fn block_told(
    alloc: Global,
    forms: &Forms,
    ty: u32,
    block: Block,
    kept: &[Kept],
    parts: &[u32],
) -> Result<Signature, NoMemory>
    ensures { IfOk result (λ s. of_block block (taken forms.now block kept.now parts.now) (type_at forms.now ty) ≡ Some (told_by s)) }
{
    let params = taken(alloc, forms, block, kept, parts)?;
    let effects = one_effect(alloc, effect_of(block))?;
    Ok(Signature {
        params,
        effects,
        result: type_at(forms, ty)?,
        env: List::new(alloc),
    })
}

/// An insertion takes the value of its part, all else what it captured.
fn taken(
    alloc: Global,
    forms: &Forms,
    block: Block,
    kept: &[Kept],
    parts: &[u32],
) -> Result<List<Ground>, NoMemory>
    ensures { IfOk result (λ types. taken forms.now block kept.now parts.now ≡ Some types) }
{
    match block {
        Block::Insert => node_types(alloc, forms, parts),
        Block::Query | Block::TableRead | Block::Update | Block::Delete => kept_types(
            alloc, forms, kept,
        ),
    }
}

fn effect_of(block: Block) -> Effect
    ensures { result ≡ effect_of block }
{
    match block {
        Block::Query | Block::TableRead => Effect::Scan,
        Block::Insert | Block::Update | Block::Delete => Effect::Write,
    }
}

/// What is told of `print`.
fn printer_told(alloc: Global) -> Result<Signature, NoMemory>
    ensures { IfOk result (λ s. told_by s ≡ printer) }
{
    let effects = one_effect(alloc, Effect::Print)?;
    let result = unit_type(alloc)?;
    let mut params = List::new(alloc);
    params.push(Ground::Text)?;
    Ok(Signature {
        params,
        effects,
        result,
        env: List::new(alloc),
    })
}

/// The type of the unit value.
#[tactic(auto, using(crate::proofs::Units::unit_is))]
fn unit_type(alloc: Global) -> Result<Ground, NoMemory>
    ensures { IfOk result (λ t. t ≡ unit) }
{
    Ok(Ground::Fields(Shared::new(alloc, List::new(alloc))?))
}

fn one_effect(alloc: Global, effect: Effect) -> Result<List<Effect>, NoMemory>
    ensures { IfOk result (λ effects. effects ≡ effect ∷ []) }
{
    let mut effects = List::new(alloc);
    effects.push(effect)?;
    Ok(effects)
}
