//! The functions of a program with what is inferred of them.

ghost use Rattle.lk_ast.specs.Functions.{functions_of as the_functions_of};
ghost use Rattle.lk_mono.specs.Members.{as_member, members_of, named_member};
ghost use Rattle.lk_mono.specs.Places.{FindsMembers};
ghost use Rattle.std.specs.Option.{option_map};
ghost use Rattle.std.specs.Prelude.{◌≡◌, IfOk, drop, map};

use lk_ast::{FunDef, List, NoMemory, Program, Text, functions_of};
use lk_infer::Typed;
use lk_outline::{Site, outline};
use lk_types::{Scheme, Types};
use std::alloc::Global;
use std::collections::BTreeMap;
use std::marker::Model;

/// A function of the program with its principal scheme, the principal types of its nodes, and the outline of its body.
#[derive(Drop)]
pub struct Member<'p> {
    pub function: &'p FunDef,
    pub scheme: &'p Scheme,
    pub types: Types,
    pub sites: List<Site<'p>>,
}

/// The functions of a program in text order, and the place of the first of each name. Contracts see the list of them.
#[derive(Drop)]
pub struct Members<'p> {
    list: List<Member<'p>>,
    places: BTreeMap<&'p str, usize>,
}

impl<'p> Model for Members<'p> {
    ghost use Rattle.lk_ast.specs.contracts.expression.Expr as e;
    ghost use Rattle.lk_ast.specs.contracts.signature.SigType as signature;
    ghost use Rattle.lk_mono.specs.Places.{FindsMembers};
    ghost use Rattle.lk_mono.specs.declared.member.Member.{Member as TheMember};
    ghost use Rattle.lk_types.specs.contracts.ty.Ty as ty;
    ghost use Rattle.std.specs.Coded.{codes};
    ghost use Rattle.std.specs.Prelude.{List};

    ghost Value = { List TheMember };

    ghost coded = { Prim.hlevel (codes, e.the_row.coded, signature.the_row.coded, ty.the_row.coded) };

    ghost view = { λ members. members.list };

    ghost invariant = { λ members. FindsMembers members.places members.list };
}

impl<'p> Members<'p> {
    /// The functions of a program in text order, each with its own of these schemes and types.
    pub fn new(
        alloc: Global,
        program: &'p Program,
        typed: &'p Typed,
    ) -> Result<Members<'p>, NoMemory>
        ensures { IfOk result (λ members. map as_member members ≡ members_of (the_functions_of program.now) typed.now.schemes typed.now.types) }
    {
        let functions = functions_of(alloc, program)?;
        let mut list = List::new(alloc);
        let mut from = 0;
        for (function, scheme) in functions.as_slice().iter().zip(typed.schemes.as_slice()) {
            let sites = outline(alloc, function)?;
            let size = sites.len();
            let types = typed.types.part(alloc, from, size)?;
            from = behind(&typed.types, from, size);
            list.push(Member {
                function,
                scheme,
                types,
                sites,
            })?;
        }
        let places = places_by_name(alloc, list.as_slice())?;
        Ok(Members { list, places })
    }

    /// The first function of that name.
    pub fn find(&self, name: &Text) -> Option<&Member<'p>>
        ensures { option_map (λ m. as_member m.now) result ≡ named_member name.now (map as_member self.now) }
    {
        match self.places.get(name.as_str()) {
            Some(place) => self.list.get(*place),
            None => None,
        }
    }
}

/// The place behind as many of the types as this, from a place on.
fn behind(types: &Types, from: usize, size: usize) -> usize
    ensures { drop result types.now ≡ drop size (drop from types.now) }
{
    match from.checked_add(size) {
        Some(place) => place,
        None => types.len(),
    }
}

/// The places of functions by their names, the first where a name comes twice.
fn places_by_name<'p>(
    alloc: Global,
    members: &[Member<'p>],
) -> Result<BTreeMap<&'p str, usize>, NoMemory>
    ensures { IfOk result (λ places. FindsMembers places members.now) }
{
    let mut places = BTreeMap::new(alloc);
    for place in (0..members.len()).rev() {
        let function = members[place].function;
        places.insert(function.name.text.as_str(), place)?;
    }
    Ok(places)
}
