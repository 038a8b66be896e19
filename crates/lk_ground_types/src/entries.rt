//! The entries of a table of ground types.

ghost use Rattle.lk_ground_types.specs.Counting.{capped};
ghost use Rattle.lk_ground_types.specs.Grounds.{AreCounted, at, ground_made, part_made, types_of};
ghost use Rattle.lk_ground_types.specs.Sizes.{field_nodes, ground_nodes};
ghost use Rattle.lk_types.specs.declared.ground.Ground.TheVariants as known;
ghost use Rattle.std.specs.Prelude.{◌≡◌, ◌+◌, IfOk, length, map, sum};

use crate::copies::{copy_effects, share_type};
use crate::counter::add;
use crate::ground_level::{GroundLevel, GroundPart};
use lk_ast::{List, NoMemory, Shared};
use lk_types::{Effect, Ground, GroundField};
use std::alloc::Global;

/// A type with its level, and how many nodes it has, counted up to one more than a type may have.
#[derive(Drop)]
pub struct Entry {
    pub ty: Ground,
    pub level: GroundLevel,
    pub nodes: usize,
}

/// The type of that number once more.
fn type_at(entries: &[Entry], number: u32) -> Result<Ground, NoMemory>
    ensures { IfOk result (λ ty. ty ≡ at (types_of entries.now) number) }
{
    match entries.get(number as usize) {
        Some(entry) => share_type(&entry.ty),
        None => Ok(Ground::Int),
    }
}

/// How many nodes the type of that number has.
fn nodes_at(entries: &[Entry], number: u32) -> usize
    requires { AreCounted entries.now }
    ensures { result ≡ capped (ground_nodes (at (types_of entries.now) number)) }
{
    match entries.get(number as usize) {
        Some(entry) => entry.nodes,
        None => 1,
    }
}

/// The type that a level makes of these.
fn type_made(alloc: Global, entries: &[Entry], level: &GroundLevel) -> Result<Ground, NoMemory>
    ensures { IfOk result (λ ty. ty ≡ ground_made (types_of entries.now) level.now) }
{
    match level {
        GroundLevel::Int => Ok(Ground::Int),
        GroundLevel::Bool => Ok(Ground::Bool),
        GroundLevel::Text => Ok(Ground::Text),
        GroundLevel::List(part) => shared_at(alloc, entries, *part).map(Ground::List),
        GroundLevel::Fields(parts) => fields_made(alloc, entries, parts.as_slice()).map(
            Ground::Fields,
        ),
        GroundLevel::Tags(parts) => fields_made(alloc, entries, parts.as_slice()).map(Ground::Tags),
        GroundLevel::Fun(params, effects, answer) => {
            function_made(
                alloc,
                entries,
                params.as_slice(),
                effects.as_slice(),
                *answer,
            )
        }
    }
}

fn shared_at(alloc: Global, entries: &[Entry], number: u32) -> Result<Shared<Ground>, NoMemory>
    ensures { IfOk result (λ ty. ty ≡ at (types_of entries.now) number) }
{
    let ty = type_at(entries, number)?;
    Shared::new(alloc, ty)
}

fn fields_made(
    alloc: Global,
    entries: &[Entry],
    parts: &[GroundPart],
) -> Result<Shared<List<GroundField>>, NoMemory>
    ensures { IfOk result (λ fields. fields ≡ map (part_made (types_of entries.now)) parts.now) }
{
    let mut fields = List::new(alloc);
    for part in parts {
        let label = part.label.copy(alloc)?;
        let ty = type_at(entries, part.part)?;
        fields.push(GroundField { label, ty })?;
    }
    Shared::new(alloc, fields)
}

fn function_made(
    alloc: Global,
    entries: &[Entry],
    params: &[u32],
    effects: &[Effect],
    answer: u32,
) -> Result<Ground, NoMemory>
    ensures { IfOk result (λ ty. ty ≡ known.Fun (map (at (types_of entries.now)) params.now) effects.now (at (types_of entries.now) answer)) }
{
    let params = types_made(alloc, entries, params)?;
    let effects = Shared::new(alloc, copy_effects(alloc, effects)?)?;
    Ok(Ground::Fun(params, effects, shared_at(alloc, entries, answer)?))
}

fn types_made(
    alloc: Global,
    entries: &[Entry],
    numbers: &[u32],
) -> Result<Shared<List<Ground>>, NoMemory>
    ensures { IfOk result (λ types. types ≡ map (at (types_of entries.now)) numbers.now) }
{
    let mut types = List::new(alloc);
    for number in numbers {
        types.push(type_at(entries, *number)?)?;
    }
    Shared::new(alloc, types)
}

/// Counts the nodes of the type that a level makes.
#[tactic(auto, using(crate::proofs::GroundNodes::ground_int, crate::proofs::GroundNodes::ground_bool, crate::proofs::GroundNodes::ground_text, crate::proofs::GroundNodes::ground_list, crate::proofs::GroundNodes::ground_fields, crate::proofs::GroundNodes::ground_tags, crate::proofs::GroundNodes::ground_function, crate::proofs::EntriesMade::one_capped))]
fn nodes_made(entries: &[Entry], level: &GroundLevel) -> usize
    requires { AreCounted entries.now }
    ensures { result ≡ capped (ground_nodes (ground_made (types_of entries.now) level.now)) }
{
    match level {
        GroundLevel::Int => 1,
        GroundLevel::Bool => 1,
        GroundLevel::Text => 1,
        GroundLevel::List(part) => count_list(entries, *part),
        GroundLevel::Fields(parts) => count_parts(entries, parts.as_slice()),
        GroundLevel::Tags(parts) => count_parts(entries, parts.as_slice()),
        GroundLevel::Fun(params, effects, answer) => {
            count_function(entries, params.as_slice(), effects.as_slice(), *answer)
        }
    }
}

/// One, and the nodes of the type of that number.
fn count_list(entries: &[Entry], number: u32) -> usize
    requires { AreCounted entries.now }
    ensures { result ≡ capped (1 + ground_nodes (at (types_of entries.now) number)) }
{
    let nodes = nodes_at(entries, number);
    add(1, nodes)
}

/// One, and the nodes of parameters, effects and a result.
fn count_function(entries: &[Entry], params: &[u32], effects: &[Effect], answer: u32) -> usize
    requires { AreCounted entries.now }
    ensures { result ≡ capped (1 + (sum (map ground_nodes (map (at (types_of entries.now)) params.now)) + (length effects.now + ground_nodes (at (types_of entries.now) answer)))) }
{
    let with_params = count_types(entries, params);
    let with_effects = add(with_params, effects.len());
    let nodes = nodes_at(entries, answer);
    add(with_effects, nodes)
}

/// One, and the nodes of fields.
fn count_parts(entries: &[Entry], parts: &[GroundPart]) -> usize
    requires { AreCounted entries.now }
    ensures { result ≡ capped (1 + sum (map field_nodes (map (part_made (types_of entries.now)) parts.now))) }
{
    let mut total = 1;
    for part in parts {
        let with_label = add(total, 1);
        let nodes = nodes_at(entries, part.part);
        total = add(with_label, nodes);
    }
    total
}

/// One, and the nodes of types.
fn count_types(entries: &[Entry], numbers: &[u32]) -> usize
    requires { AreCounted entries.now }
    ensures { result ≡ capped (1 + sum (map ground_nodes (map (at (types_of entries.now)) numbers.now))) }
{
    let mut total = 1;
    for number in numbers {
        let nodes = nodes_at(entries, *number);
        total = add(total, nodes);
    }
    total
}

/// The entry of a level. `NoMemory` where memory runs out.
pub fn entry_of(alloc: Global, entries: &[Entry], level: GroundLevel) -> Result<Entry, NoMemory>
    requires { AreCounted entries.now }
    ensures ty { IfOk result (λ entry. entry.ty ≡ ground_made (types_of entries.now) level) }
    ensures level { IfOk result (λ entry. entry.level ≡ level) }
    ensures nodes { IfOk result (λ entry. entry.nodes ≡ capped (ground_nodes (ground_made (types_of entries.now) level))) }
{
    let ty = type_made(alloc, entries, &level)?;
    let nodes = nodes_made(entries, &level);
    Ok(Entry { ty, level, nodes })
}
