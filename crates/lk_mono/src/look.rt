//! What there is in an instance: the types of its nodes, and what it uses.

ghost use Rattle.lk_ground_types.specs.Bound.{AreWithin, grounding_in};
ghost use Rattle.lk_ground_types.specs.Functions.{effects_in};
ghost use Rattle.lk_ground_types.specs.Grounds.{at};
ghost use Rattle.lk_ground_types.specs.Least.{AreSameAt, IsLeastBut};
ghost use Rattle.lk_mono.specs.Instances.{fits};
ghost use Rattle.lk_mono.specs.Looks.{AreNumbered, IsLooked, IsNumbered, IsSetting, as_found, as_uses, first_beyond, found_at, found_in};
ghost use Rattle.lk_outline.specs.Shown.{shown, shown_around, shown_site};
ghost use Rattle.lk_outline.specs.Typed.{effects_around as the_effects_around, type_at as the_type_at};
ghost use Rattle.lk_types.specs.Each.{Each};
ghost use Rattle.lk_types.specs.Grounding.{Grounding, under};
ghost use Rattle.lk_types.specs.Variables.{variables_of};
ghost use Rattle.lk_types.specs.declared.ground.Ground.{Ground as TheGround};
ghost use Rattle.lk_types.specs.declared.ground.Ground.TheVariants as known;
ghost use Rattle.lk_typing.specs.Law.{Become};
ghost use Rattle.std.specs.Option.{option_map};
ghost use Rattle.std.specs.Prelude.{◌≡◌, ◌++◌, ◌<◌, IfOk, IfSome, List as TheList, Some, drop as the_drop, length, map, not, slice_get, take as the_take};

use crate::member::Member;
use lk_ast::{List, NoMemory, Span, Text};
use lk_ground_types::{
    Bindings, GroundLevel, Grounds, effects_of, ground_all, ground_type_laws, share_type,
};
use lk_outline::{Around, Kind, Site};
use lk_types::{Effect, Ground, SharedType};
use std::alloc::Global;

/// A use of a function in a body, at a type that has this number in the table. The type may be far too large to be walked.
#[derive(Drop)]
pub struct Found<'p> {
    /// Whether it stands inside a query, an update or a deletion.
    pub inside: bool,
    pub name: &'p Text,
    pub ty: Ground,
    pub number: u32,
}

/// What there is in an instance.
#[derive(Drop)]
pub struct Looked<'p> {
    /// The types of its nodes, by their numbers.
    pub numbers: List<u32>,
    /// The uses at the nodes before the first whose type is too large.
    pub uses: List<Found<'p>>,
    /// The place of that node.
    pub large: Option<Span>,
}

/// The nodes of an instance, as far as their types are concerned.
#[derive(Clone, Copy)]
pub struct Setting<'a> {
    /// The types of the nodes, by their numbers.
    pub numbers: &'a [u32],
    /// The effects of the instance.
    pub own: &'a [Effect],
}

/// Whether the type of that number is too large.
fn is_large(grounds: &Grounds, number: u32) -> bool
    requires { number < length grounds.now }
    ensures { result ≡ not (fits (at grounds.now number)) }
{
    !grounds.fits(number)
}

/// The place of the first type that is too large, or how many there are.
fn first_large(grounds: &Grounds, numbers: &[u32]) -> usize
    requires { Each (λ n. n < length grounds.now) numbers.now }
    ensures { result ≡ first_beyond (map (at grounds.now) numbers.now) }
{
    for place in 0..numbers.len() {
        if is_large(grounds, numbers[place]) {
            return place;
        }
    }
    numbers.len()
}

/// These effects by value.
fn copy_effects(alloc: Global, effects: &[Effect]) -> Result<List<Effect>, NoMemory>
    ensures { IfOk result (λ copy. copy ≡ effects.now) }
{
    Ok(List::from_vec(effects.iter().copied().collect(alloc)?))
}

/// The effects of what stands round a node.
fn effects_around(
    alloc: Global,
    grounds: &Grounds,
    setting: Setting,
    around: Around,
) -> Result<List<Effect>, NoMemory>
    requires { Each (λ n. n < length grounds.now) setting.numbers.now }
    ensures { IfOk result (λ effects. (ts : TheList TheGround) → IsSetting grounds.now setting.entry ts → effects ≡ the_effects_around setting.entry.own.now ts (shown_around around)) }
{
    match around {
        Around::Function => copy_effects(alloc, setting.own),
        Around::Lambda(number) => match setting.numbers.get(number) {
            Some(there) => copy_effects(alloc, effects_of(grounds.get(*there))),
            None => Ok(List::new(alloc)),
        },
        Around::Query => copy_effects(alloc, &[Effect::Scan]),
        Around::Change => Ok(List::new(alloc)),
    }
}

/// The number of the type of a node.
fn number_at(
    alloc: Global,
    grounds: &mut Grounds,
    numbers: &[u32],
    node: usize,
) -> Result<u32, NoMemory>
    requires { Each (λ n. n < length grounds.old) numbers.now }
    ensures is { IfOk result (λ number. at grounds.new number ≡ the_type_at (map (at grounds.old) numbers.now) node) }
    ensures within { IfOk result (λ number. number < length grounds.new) }
    ensures more { (rest : TheList TheGround) × (grounds.new ≡ grounds.old ++ rest) }
{
    match numbers.get(node) {
        Some(number) => Ok(*number),
        None => grounds.add(alloc, GroundLevel::Fields(List::new(alloc))),
    }
}

/// The numbers of the types of arguments.
fn argument_types(
    alloc: Global,
    grounds: &mut Grounds,
    numbers: &[u32],
    args: &[usize],
) -> Result<List<u32>, NoMemory>
    requires { Each (λ n. n < length grounds.old) numbers.now }
    ensures are { IfOk result (λ params. map (at grounds.new) params ≡ map (the_type_at (map (at grounds.old) numbers.now)) args.now) }
    ensures within { IfOk result (Each (λ n. n < length grounds.new)) }
    ensures more { (rest : TheList TheGround) × (grounds.new ≡ grounds.old ++ rest) }
{
    let mut params = List::new(alloc);
    for arg in args {
        params.push(number_at(alloc, grounds, numbers, *arg)?)?;
    }
    Ok(params)
}

/// The number of the type of a function that a node calls with these arguments.
fn call_type(
    alloc: Global,
    grounds: &mut Grounds,
    setting: Setting,
    site: &Site,
    args: &[usize],
) -> Result<u32, NoMemory>
    requires { Each (λ n. n < length grounds.old) setting.numbers.now }
    ensures is { IfOk result (λ number. (ts : TheList TheGround) → IsSetting grounds.old setting.entry ts → at grounds.new number ≡ known.Fun (map (the_type_at ts) args.now) (the_effects_around setting.entry.own.now ts (shown_around site.now.around)) (the_type_at ts site.now.number)) }
    ensures within { IfOk result (λ number. number < length grounds.new) }
    ensures more { (rest : TheList TheGround) × (grounds.new ≡ grounds.old ++ rest) }
{
    let effects = effects_around(alloc, grounds, setting, site.around)?;
    let params = argument_types(alloc, grounds, setting.numbers, args)?;
    let answer = number_at(alloc, grounds, setting.numbers, site.number)?;
    grounds.add(alloc, GroundLevel::Fun(params, effects, answer))
}

/// The use of this name at the type of that number.
fn found_use<'p>(
    grounds: &Grounds,
    inside: bool,
    name: &'p Text,
    number: u32,
) -> Result<Found<'p>, NoMemory>
    requires { number < length grounds.now }
    ensures found { IfOk result (λ found. as_found found ≡ record { inside = inside; name = name.entry.now; type = at grounds.now number }) }
    ensures numbered { IfOk result (λ found. IsNumbered grounds.now found.number found.ty) }
{
    let ty = share_type(grounds.get(number))?;
    Ok(Found {
        inside,
        name,
        ty,
        number,
    })
}

/// The use at a node, if it is one.
fn use_at<'p>(
    alloc: Global,
    grounds: &mut Grounds,
    setting: Setting,
    site: &Site<'p>,
) -> Result<Option<Found<'p>>, NoMemory>
    requires { Each (λ n. n < length grounds.old) setting.numbers.now }
    ensures found { IfOk result (λ found. (ts : TheList TheGround) → IsSetting grounds.old setting.entry ts → option_map as_found found ≡ found_at setting.entry.own.now ts (shown_site site.now)) }
    ensures numbered { IfOk result (λ found. IfSome found (λ f. IsNumbered grounds.new f.number f.ty)) }
    ensures more { (rest : TheList TheGround) × (grounds.new ≡ grounds.old ++ rest) }
{
    let (name, number) = match &site.kind {
        Kind::Function(name) => (
            *name,
            number_at(alloc, grounds, setting.numbers, site.number)?,
        ),
        Kind::Call(name, args) => (
            *name,
            call_type(alloc, grounds, setting, site, args.as_slice())?,
        ),
        _ => return Ok(None),
    };
    Ok(Some(found_use(grounds, site.inside, name, number)?))
}

/// The uses at nodes.
fn uses_at<'p>(
    alloc: Global,
    grounds: &mut Grounds,
    setting: Setting,
    sites: &[Site<'p>],
) -> Result<List<Found<'p>>, NoMemory>
    requires { Each (λ n. n < length grounds.old) setting.numbers.now }
    ensures found { IfOk result (λ uses. (ts : TheList TheGround) → IsSetting grounds.old setting.entry ts → as_uses uses ≡ found_in setting.entry.own.now ts (shown sites.now)) }
    ensures numbered { IfOk result (AreNumbered grounds.new) }
    ensures more { (rest : TheList TheGround) × (grounds.new ≡ grounds.old ++ rest) }
{
    let mut uses = List::new(alloc);
    for site in sites {
        if let Some(found) = use_at(alloc, grounds, setting, site)? {
            uses.push(found)?;
        }
    }
    Ok(uses)
}

/// The first nodes, as many as this, and those behind them.
fn split<'s, 'p>(sites: &'s [Site<'p>], number: usize) -> (&'s [Site<'p>], &'s [Site<'p>])
    ensures first { result.0.now ≡ the_take number sites.now }
    ensures rest { result.1.now ≡ the_drop number sites.now }
{
    sites.split_at(number.min(sites.len()))
}

/// The place of the first of these nodes, if there is one.
fn first_place(sites: &[Site]) -> Option<Span>
    ensures { result ≡ option_map (λ s. s.span) (slice_get sites.now 0) }
{
    match sites {
        [] => None,
        [site, ..] => Some(site.span),
    }
}

/// What stands for the variables of the type of a scheme that becomes the type of that number.
fn bindings_of(
    alloc: Global,
    grounds: &Grounds,
    body: &SharedType,
    number: u32,
) -> Result<Bindings, NoMemory>
    requires { number < length grounds.now }
    ensures least { IfOk result (λ bindings. IsLeastBut (variables_of body.now) (grounding_in grounds.now bindings)) }
    ensures same { IfOk result (λ bindings. (σ : Grounding) → under σ body.now ≡ Some (at grounds.now number) → AreSameAt (variables_of body.now) (grounding_in grounds.now bindings) σ) }
    ensures within { IfOk result (AreWithin (length grounds.now)) }
{
    let tree = body.tree(alloc)?;
    Bindings::of(alloc, grounds, &tree, number)
}

/// What there is in a function at the type of that number.
pub fn look_into<'p>(
    alloc: Global,
    grounds: &mut Grounds,
    member: &Member<'p>,
    number: u32,
) -> Result<Looked<'p>, NoMemory>
    requires { number < length grounds.old }
    ensures looked { IfOk result (λ looked. (τ : Grounding) (ts : TheList TheGround) → IsLeastBut (variables_of member.now.scheme.now.body) τ → under τ member.now.scheme.now.body ≡ Some (at grounds.old number) → Become τ member.now.types ts → IsLooked grounds.new (effects_in (at grounds.old number)) ts (shown member.now.sites) looked) }
    ensures within { IfOk result (λ looked. Each (λ n. n < length grounds.new) looked.numbers) }
    ensures numbered { IfOk result (λ looked. AreNumbered grounds.new looked.uses) }
    ensures more { (rest : TheList TheGround) × (grounds.new ≡ grounds.old ++ rest) }
{
    ground_type_laws();
    let bindings = bindings_of(alloc, grounds, &member.scheme.body, number)?;
    let numbers = ground_all(alloc, grounds, &bindings, &member.types)?;
    let (before, behind) = split(
        member.sites.as_slice(),
        first_large(grounds, numbers.as_slice()),
    );
    let own = copy_effects(alloc, effects_of(grounds.get(number)))?;
    let setting = Setting {
        numbers: numbers.as_slice(),
        own: own.as_slice(),
    };
    let uses = uses_at(alloc, grounds, setting, before)?;
    let large = first_place(behind);
    Ok(Looked {
        numbers,
        uses,
        large,
    })
}
