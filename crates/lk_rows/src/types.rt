//! Types, read token by token.

ghost use Rattle.lk_read.specs.Exact.{IsFront};
ghost use Rattle.lk_read.specs.Gives.{Gives, GivesToken};
ghost use Rattle.lk_read.specs.Reader.{many, one};
ghost use Rattle.lk_rows.specs.Reading.{comma, is_label, field_with, fields_turn, fields_with, types_turn, types_with, unit_with, record_with, function_with, round_with, list_with, no_tags, some_tags_with, tags_with, named, base, type_at};
ghost use Rattle.lk_rows.specs.Types.{IsType};
ghost use Rattle.lk_read.specs.declared.stop.Stop.TheVariants.{Spent};
ghost use Rattle.std.specs.Prelude.{◌≡◌, ◌<◌, IfErr, IfOk, length};

use lk_ast::{Boxed, List, SigField, SigType, Token};
use lk_read::{
    Stop, eat_any_tag, eat_name, eat_sign, eat_tag, next_is_name, next_is_sign, next_is_tag,
    word_of,
};
use std::alloc::Global;

/// What stands before the `:` of a part.
#[derive(Clone, Copy)]
enum Label {
    /// A word that can name something, in a record.
    Name,
    /// A tag, in a variant.
    Tag,
}

/// The next token, which is such a label.
fn eat_label(label: Label, tokens: &[Token]) -> Result<(&Token, &[Token]), Stop>
    ensures { GivesToken result (one (is_label label) tokens.now) }
{
    match label {
        Label::Name => eat_name(tokens),
        Label::Tag => eat_any_tag(tokens),
    }
}

/// The type with this name.
#[tactic(auto, unfolding(crate::specs::Reading::named, lk_read::specs::Reader::eat, lk_read::specs::Reader::give))]
fn read_named<'a>(
    tokens: &'a [Token],
    name: &str,
    ty: SigType,
) -> Result<(SigType, &'a [Token]), Stop>
    ensures { Gives result (named name.now ty tokens.now) }
{
    let (_name, rest) = eat_tag(tokens, name)?;
    Ok((ty, rest))
}

/// `Int`, `Bool` or `String`.
#[tactic(auto, unfolding(crate::specs::Reading::base, lk_read::specs::Reader::when))]
fn read_base(tokens: &[Token]) -> Result<(SigType, &[Token]), Stop>
    ensures { Gives result (base tokens.now) }
{
    if next_is_tag(tokens, "Int") {
        read_named(tokens, "Int", SigType::Int)
    } else if next_is_tag(tokens, "Bool") {
        read_named(tokens, "Bool", SigType::Bool)
    } else {
        read_named(tokens, "String", SigType::Text)
    }
}

/// `l : T`.
#[cycle(types)]
#[tactic(auto, unfolding(crate::specs::Reading::field_with, lk_read::specs::Reader::bind, lk_read::specs::Reader::eat, lk_read::specs::Reader::give))]
fn read_field(
    alloc: Global,
    room: usize,
    label: Label,
    tokens: &[Token],
) -> Result<(SigField, &[Token]), Stop>
    ensures { Gives result (field_with (is_label label) (type_at room) tokens.now) }
{
    let (name, rest) = eat_label(label, tokens)?;
    let (_colon, rest) = eat_sign(rest, ":")?;
    let label = word_of(alloc, name)?;
    let (ty, rest) = read_any(alloc, room, rest)?;
    Ok((SigField { label, ty }, rest))
}

/// `, l : T` behind these.
#[cycle(types)]
#[tactic(auto, unfolding(crate::specs::Reading::fields_turn, lk_read::specs::Reader::bind, lk_read::specs::Reader::eat, lk_read::specs::Reader::give))]
fn next_field(
    alloc: Global,
    room: usize,
    label: Label,
    mut parts: List<SigField>,
    tokens: &[Token],
) -> Result<(List<SigField>, &[Token]), Stop>
    ensures { Gives result (fields_turn (is_label label) (type_at room) parts tokens.now) }
{
    let (_comma, rest) = eat_sign(tokens, ",")?;
    let (part, rest) = read_field(alloc, room, label, rest)?;
    parts.push(part)?;
    Ok((parts, rest))
}

/// All that are behind the first one.
#[cycle(types)]
fn more_fields(
    alloc: Global,
    room: usize,
    label: Label,
    first: List<SigField>,
    tokens: &[Token],
) -> Result<(List<SigField>, &[Token]), Stop>
    ensures { Gives result (many comma (fields_turn (is_label label) (type_at room)) room first tokens.now) }
{
    let mut parts = first;
    let mut rest = tokens;
    for _turn in 0..room {
        if !next_is_sign(rest, ",") {
            return Ok((parts, rest));
        }
        let (next, after) = next_field(alloc, room, label, parts, rest)?;
        parts = next;
        rest = after;
    }
    if next_is_sign(rest, ",") {
        Err(Stop::Spent)
    } else {
        Ok((parts, rest))
    }
}

/// `l : T, m : T`.
#[cycle(types)]
#[tactic(auto, unfolding(crate::specs::Reading::fields_with, lk_read::specs::Reader::bind))]
fn read_fields(
    alloc: Global,
    room: usize,
    label: Label,
    tokens: &[Token],
) -> Result<(List<SigField>, &[Token]), Stop>
    ensures { Gives result (fields_with (is_label label) (type_at room) room tokens.now) }
{
    let (part, rest) = read_field(alloc, room, label, tokens)?;
    let mut parts = List::new(alloc);
    parts.push(part)?;
    more_fields(alloc, room, label, parts, rest)
}

/// `, T` behind these.
#[cycle(types)]
#[tactic(auto, unfolding(crate::specs::Reading::types_turn, lk_read::specs::Reader::bind, lk_read::specs::Reader::eat, lk_read::specs::Reader::give))]
fn next_type(
    alloc: Global,
    room: usize,
    mut types: List<SigType>,
    tokens: &[Token],
) -> Result<(List<SigType>, &[Token]), Stop>
    ensures { Gives result (types_turn (type_at room) types tokens.now) }
{
    let (_comma, rest) = eat_sign(tokens, ",")?;
    let (ty, rest) = read_any(alloc, room, rest)?;
    types.push(ty)?;
    Ok((types, rest))
}

/// All that are behind the first one.
#[cycle(types)]
fn more_types(
    alloc: Global,
    room: usize,
    first: List<SigType>,
    tokens: &[Token],
) -> Result<(List<SigType>, &[Token]), Stop>
    ensures { Gives result (many comma (types_turn (type_at room)) room first tokens.now) }
{
    let mut types = first;
    let mut rest = tokens;
    for _turn in 0..room {
        if !next_is_sign(rest, ",") {
            return Ok((types, rest));
        }
        let (next, after) = next_type(alloc, room, types, rest)?;
        types = next;
        rest = after;
    }
    if next_is_sign(rest, ",") {
        Err(Stop::Spent)
    } else {
        Ok((types, rest))
    }
}

/// `T, T`.
#[cycle(types)]
#[tactic(auto, unfolding(crate::specs::Reading::types_with, lk_read::specs::Reader::bind))]
fn read_types(
    alloc: Global,
    room: usize,
    tokens: &[Token],
) -> Result<(List<SigType>, &[Token]), Stop>
    ensures { Gives result (types_with (type_at room) room tokens.now) }
{
    let (ty, rest) = read_any(alloc, room, tokens)?;
    let mut types = List::new(alloc);
    types.push(ty)?;
    more_types(alloc, room, types, rest)
}

/// `)` of `()`, or of `() -> T`.
#[cycle(types)]
#[tactic(auto, unfolding(crate::specs::Reading::unit_with, lk_read::specs::Reader::when, lk_read::specs::Reader::bind, lk_read::specs::Reader::eat, lk_read::specs::Reader::give))]
fn read_unit(alloc: Global, room: usize, tokens: &[Token]) -> Result<(SigType, &[Token]), Stop>
    ensures { Gives result (unit_with (type_at room) tokens.now) }
{
    let (_close, rest) = eat_sign(tokens, ")")?;
    if next_is_sign(rest, "->") {
        let (_arrow, rest) = eat_sign(rest, "->")?;
        let (answer, rest) = read_any(alloc, room, rest)?;
        let answer = Boxed::new(alloc, answer)?;
        Ok((SigType::Fun(List::new(alloc), answer), rest))
    } else {
        Ok((SigType::Fields(List::new(alloc)), rest))
    }
}

/// `l : T, m : T)` of a record.
#[cycle(types)]
#[tactic(auto, unfolding(crate::specs::Reading::record_with, lk_read::specs::Reader::bind, lk_read::specs::Reader::eat, lk_read::specs::Reader::give))]
fn read_record(alloc: Global, room: usize, tokens: &[Token]) -> Result<(SigType, &[Token]), Stop>
    ensures { Gives result (record_with (type_at room) room tokens.now) }
{
    let (parts, rest) = read_fields(alloc, room, Label::Name, tokens)?;
    let (_close, rest) = eat_sign(rest, ")")?;
    Ok((SigType::Fields(parts), rest))
}

/// `T, T) -> T` of a function.
#[cycle(types)]
#[tactic(auto, unfolding(crate::specs::Reading::function_with, lk_read::specs::Reader::bind, lk_read::specs::Reader::eat, lk_read::specs::Reader::give))]
fn read_function(alloc: Global, room: usize, tokens: &[Token]) -> Result<(SigType, &[Token]), Stop>
    ensures { Gives result (function_with (type_at room) room tokens.now) }
{
    let (params, rest) = read_types(alloc, room, tokens)?;
    let (_close, rest) = eat_sign(rest, ")")?;
    let (_arrow, rest) = eat_sign(rest, "->")?;
    let (answer, rest) = read_any(alloc, room, rest)?;
    let answer = Boxed::new(alloc, answer)?;
    Ok((SigType::Fun(params, answer), rest))
}

/// A type that begins with `(`.
#[cycle(types)]
#[tactic(auto, unfolding(crate::specs::Reading::round_with, lk_read::specs::Reader::when, lk_read::specs::Reader::eat))]
fn read_round(alloc: Global, room: usize, tokens: &[Token]) -> Result<(SigType, &[Token]), Stop>
    ensures { Gives result (round_with (type_at room) room tokens.now) }
{
    let (_open, rest) = eat_sign(tokens, "(")?;
    if next_is_sign(rest, ")") {
        read_unit(alloc, room, rest)
    } else if next_is_name(rest) {
        read_record(alloc, room, rest)
    } else {
        read_function(alloc, room, rest)
    }
}

/// `[T]`.
#[cycle(types)]
#[tactic(auto, unfolding(crate::specs::Reading::list_with, lk_read::specs::Reader::bind, lk_read::specs::Reader::eat, lk_read::specs::Reader::give))]
fn read_list(alloc: Global, room: usize, tokens: &[Token]) -> Result<(SigType, &[Token]), Stop>
    ensures { Gives result (list_with (type_at room) tokens.now) }
{
    let (_open, rest) = eat_sign(tokens, "[")?;
    let (item, rest) = read_any(alloc, room, rest)?;
    let (_close, rest) = eat_sign(rest, "]")?;
    Ok((SigType::List(Boxed::new(alloc, item)?), rest))
}

/// `|]` of `[||]`.
#[tactic(auto, unfolding(crate::specs::Reading::no_tags, lk_read::specs::Reader::eat, lk_read::specs::Reader::give))]
fn read_no_tags(alloc: Global, tokens: &[Token]) -> Result<(SigType, &[Token]), Stop>
    ensures { Gives result (no_tags tokens.now) }
{
    let (_close, rest) = eat_sign(tokens, "|]")?;
    Ok((SigType::Tags(List::new(alloc)), rest))
}

/// `A : T, B : T|]` of a variant.
#[cycle(types)]
#[tactic(auto, unfolding(crate::specs::Reading::some_tags_with, lk_read::specs::Reader::bind, lk_read::specs::Reader::eat, lk_read::specs::Reader::give))]
fn read_some_tags(alloc: Global, room: usize, tokens: &[Token]) -> Result<(SigType, &[Token]), Stop>
    ensures { Gives result (some_tags_with (type_at room) room tokens.now) }
{
    let (parts, rest) = read_fields(alloc, room, Label::Tag, tokens)?;
    let (_close, rest) = eat_sign(rest, "|]")?;
    Ok((SigType::Tags(parts), rest))
}

/// A type that begins with `[|`.
#[cycle(types)]
#[tactic(auto, unfolding(crate::specs::Reading::tags_with, lk_read::specs::Reader::when, lk_read::specs::Reader::eat))]
fn read_tags(alloc: Global, room: usize, tokens: &[Token]) -> Result<(SigType, &[Token]), Stop>
    ensures { Gives result (tags_with (type_at room) room tokens.now) }
{
    let (_open, rest) = eat_sign(tokens, "[|")?;
    if next_is_sign(rest, "|]") {
        read_no_tags(alloc, rest)
    } else {
        read_some_tags(alloc, room, rest)
    }
}

/// A type off the front of the tokens.
#[cycle(types)]
#[tactic(auto, unfolding(crate::specs::Reading::type_at, crate::specs::Reading::type_with, lk_read::specs::Reader::when, lk_read::specs::Reader::tired))]
fn read_any(alloc: Global, room: usize, tokens: &[Token]) -> Result<(SigType, &[Token]), Stop>
    ensures { Gives result (type_at room tokens.now) }
{
    if room == 0 {
        return Err(Stop::Spent);
    }
    let room = room - 1;
    if next_is_sign(tokens, "(") {
        read_round(alloc, room, tokens)
    } else if next_is_sign(tokens, "[") {
        read_list(alloc, room, tokens)
    } else if next_is_sign(tokens, "[|") {
        read_tags(alloc, room, tokens)
    } else {
        read_base(tokens)
    }
}

/// A type off the front of the tokens, and the tokens that are left.
pub fn read_type(alloc: Global, room: usize, tokens: &[Token]) -> Result<(SigType, &[Token]), Stop>
    // What is taken off the front is the type that is answered.
    ensures found { IfOk result (λ read. IsFront IsType tokens.now read.0 read.1.now) }
    // Which of the types that begin here, and where reading stops.
    ensures reads { Gives result (type_at room tokens.now) }
    // Room for one more than the tokens suffices.
    ensures lasts { length tokens.now < room → IfErr result (λ why. why ≡ Spent → ⊥) }
{
    read_any(alloc, room, tokens)
}
