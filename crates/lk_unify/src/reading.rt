//! Types read back of the classes of their nodes.

ghost use Rattle.std.specs.Prelude.{◌≡◌, ℕ, ◌<◌, length, map, IfOk};
ghost use Rattle.lk_types.specs.Each.{Each};
ghost use Rattle.lk_arena.specs.Kinds.{Kind, OfTypes, OfFields};
ghost use Rattle.lk_unify.specs.Loading.{kind_of, IsKinded, IsLoader};
ghost use Rattle.lk_unify.specs.Models.{IsOwn};
ghost use Rattle.lk_arena.specs.Openings.{row_type};
ghost use Rattle.lk_arena.specs.Order.{IsRanked};
ghost use Rattle.lk_unify.specs.Reading.{as_open, image_of, name_in, row_in, subst_of, type_in, with_fields, CanRead, CanReadParts};
ghost use Rattle.lk_arena.specs.Values.{IsMadeOf, Value};

use crate::chain::read_effects;
use crate::loader::Loader;
use crate::named_nodes::number_of;
use crate::row_fields::{MadeRow, into_row, only_end, with_field};
use lk_arena::{Arena, Field, Head, Shape};
use lk_ast::{Boxed, List, NoMemory};
use lk_types::{Binding, Image, RowTail, Subst, Ty, TyRow, Variable};
use std::alloc::Global;

/// The type of a node.
#[cycle(reading)]
pub fn read_type(
    alloc: Global,
    arena: &Arena,
    numbers: &[u32],
    fuel: usize,
    node: usize,
) -> Result<Ty, NoMemory>
    requires { CanRead arena.now numbers.now fuel node OfTypes }
    ensures { IfOk result (λ t. (u : ℕ → Value) → IsOwn arena.now.shapes arena.now.classes (name_in numbers.now) u → t ≡ type_in (u node)) }
{
    let class = arena.class_of(node);
    match arena.shape_of(class) {
        Shape::Made(head, parts) => {
            read_made(alloc, arena, numbers, fuel - 1, *head, parts.as_slice())
        }
        _ => Ok(Ty::Var(numbers[class])),
    }
}

/// The type that a constructor makes of the types and rows of these nodes.
#[cycle(reading)]
fn read_made(
    alloc: Global,
    arena: &Arena,
    numbers: &[u32],
    fuel: usize,
    head: Head,
    parts: &[usize],
) -> Result<Ty, NoMemory>
    requires { CanReadParts arena.now numbers.now fuel head parts.now }
    ensures { IfOk result (λ t. (u : ℕ → Value) → IsOwn arena.now.shapes arena.now.classes (name_in numbers.now) u → (x : Value) → IsMadeOf head (map u parts.now) x → t ≡ type_in x) }
{
    match head {
        Head::Int => Ok(Ty::Int),
        Head::Bool => Ok(Ty::Bool),
        Head::Text => Ok(Ty::Text),
        Head::List => {
            let item = read_type(alloc, arena, numbers, fuel, parts[0])?;
            Ok(Ty::List(Boxed::new(alloc, item)?))
        }
        Head::Fields => {
            let row = read_row(alloc, arena, numbers, fuel, parts[0])?;
            Ok(Ty::Fields(row))
        }
        Head::Tags => {
            let row = read_row(alloc, arena, numbers, fuel, parts[0])?;
            Ok(Ty::Tags(row))
        }
        Head::Fun => {
            let effects = read_effects(alloc, arena, numbers, fuel, parts[0])?;
            let answer = read_type(alloc, arena, numbers, fuel, parts[1])?;
            let params = read_types(alloc, arena, numbers, fuel, &parts[2..])?;
            Ok(Ty::Fun(params, effects, Boxed::new(alloc, answer)?))
        }
    }
}

/// The types of nodes.
#[cycle(reading)]
fn read_types(
    alloc: Global,
    arena: &Arena,
    numbers: &[u32],
    fuel: usize,
    nodes: &[usize],
) -> Result<List<Ty>, NoMemory>
    requires { Each (λ p. CanRead arena.now numbers.now fuel p OfTypes) nodes.now }
    ensures { IfOk result (λ types. (u : ℕ → Value) → IsOwn arena.now.shapes arena.now.classes (name_in numbers.now) u → types ≡ map (λ p. type_in (u p)) nodes.now) }
{
    let mut types = List::new(alloc);
    for node in nodes {
        let ty = read_type(alloc, arena, numbers, fuel, *node)?;
        types.push(ty)?;
    }
    Ok(types)
}

/// The row of a node.
#[cycle(reading)]
pub fn read_row(
    alloc: Global,
    arena: &Arena,
    numbers: &[u32],
    fuel: usize,
    node: usize,
) -> Result<TyRow, NoMemory>
    requires { CanRead arena.now numbers.now fuel node OfFields }
    ensures { IfOk result (λ row. (u : ℕ → Value) → IsOwn arena.now.shapes arena.now.classes (name_in numbers.now) u → row ≡ row_type (row_in (u node))) }
{
    let made = make_row(alloc, arena, numbers, fuel, node)?;
    into_row(alloc, made)
}

/// The row of a node, field by field.
#[cycle(reading)]
fn make_row(
    alloc: Global,
    arena: &Arena,
    numbers: &[u32],
    fuel: usize,
    node: usize,
) -> Result<MadeRow, NoMemory>
    requires { CanRead arena.now numbers.now fuel node OfFields }
    ensures { IfOk result (λ row. (u : ℕ → Value) → IsOwn arena.now.shapes arena.now.classes (name_in numbers.now) u → as_open row ≡ row_in (u node)) }
{
    let class = arena.class_of(node);
    match arena.shape_of(class) {
        Shape::Open => Ok(only_end(alloc, RowTail::Var(numbers[class]))),
        Shape::Row(own, tail) => {
            let below = make_row(alloc, arena, numbers, fuel - 1, *tail)?;
            read_fields(alloc, arena, numbers, fuel - 1, own.as_slice(), below)
        }
        _ => Ok(only_end(alloc, RowTail::Closed)),
    }
}

/// The row with these fields more.
#[cycle(reading)]
fn read_fields(
    alloc: Global,
    arena: &Arena,
    numbers: &[u32],
    fuel: usize,
    own: &[Field],
    below: MadeRow,
) -> Result<MadeRow, NoMemory>
    requires { Each (λ f. CanRead arena.now numbers.now fuel f.node OfTypes) own.now }
    ensures { IfOk result (λ row. (u : ℕ → Value) → IsOwn arena.now.shapes arena.now.classes (name_in numbers.now) u → as_open row ≡ with_fields own.now u (as_open below)) }
{
    let mut row = below;
    for i in (0..own.len()).rev() {
        let field = &own[i];
        let ty = read_type(alloc, arena, numbers, fuel, field.node)?;
        row = with_field(alloc, row, &field.label, ty)?;
    }
    Ok(row)
}

/// What a node stands for, as what is put for this variable.
pub fn read_image(
    alloc: Global,
    arena: &Arena,
    numbers: &[u32],
    fuel: usize,
    variable: Variable,
    node: usize,
) -> Result<Image, NoMemory>
    requires { CanRead arena.now numbers.now fuel node (kind_of variable) }
    ensures { IfOk result (λ image. (u : ℕ → Value) → IsOwn arena.now.shapes arena.now.classes (name_in numbers.now) u → image ≡ image_of variable (u node)) }
{
    match variable {
        Variable::Plain(_) => Ok(Image::Plain(read_type(alloc, arena, numbers, fuel, node)?)),
        Variable::Row(_) => Ok(Image::Row(read_row(alloc, arena, numbers, fuel, node)?)),
        Variable::Effects(_) => Ok(Image::Effects(read_effects(
            alloc, arena, numbers, fuel, node,
        )?)),
    }
}

/// What is put for each of these variables that has a node.
pub fn read_all(
    alloc: Global,
    loader: &Loader,
    variables: &[Variable],
    numbers: &[u32],
    fuel: usize,
) -> Result<Subst, NoMemory>
    requires whole { IsLoader loader.now }
    requires kinds { (kind : ℕ → Kind) × IsKinded loader.now kind }
    requires count { length numbers.now ≡ length loader.now.arena.shapes }
    requires ranks { (rank : ℕ → ℕ) × IsRanked loader.now.arena.shapes loader.now.arena.classes rank × ((i : ℕ) → i < length loader.now.arena.shapes → rank i < fuel) }
    ensures { IfOk result (λ s. (u : ℕ → Value) → IsOwn loader.now.arena.shapes loader.now.arena.classes (name_in numbers.now) u → s ≡ subst_of variables.now loader.now u) }
{
    let mut binds = List::new(alloc);
    for variable in variables {
        let Some(node) = loader.node_for(*variable) else {
            continue;
        };
        let image = read_image(alloc, &loader.arena, numbers, fuel, *variable, node)?;
        binds.push(Binding {
            var: number_of(*variable),
            is: image,
        })?;
    }
    Ok(Subst { binds })
}
