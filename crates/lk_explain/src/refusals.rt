//! What is told of each refusal.

use crate::expected::expected;
use crate::messages::{message, message_at};
use crate::page::Page;
use crate::tables::of_tables;
use crate::typing::ill_typed;
use crate::usage::USAGE;
use lk_ast::{NoMemory, Span, Text};
use lk_cli::{Refusal, Refused, ShapeKind, Size, Source};
use std::alloc::Global;

/// The message for a refusal, which a person reads beside the line that is printed for it: where it is, what is wrong, and the
/// line of the text with carets under the place. For words without a form it is how the commands are used.
pub fn explain(alloc: Global, refused: &Refused) -> Result<Text, NoMemory> {
    match &refused.refusal {
        Refusal::Words => Text::from_str(alloc, USAGE),
        Refusal::ReadFault(name) => message(alloc, name.as_str(), "this file can't be read"),
        Refusal::NoStore(name) => no_store(alloc, name.as_str()),
        Refusal::StoreFault => message(alloc, "links", "the store failed"),
        Refusal::NoMemory => message(
            alloc,
            "links",
            "memory ran out, or a query, an update or a deletion nests too deep",
        ),
        Refusal::Tables(fault) => of_tables(alloc, &refused.sources, *fault),
        refusal => match &refused.sources.program {
            Some(program) => of_program(alloc, program, refusal),
            None => Ok(Text::new(alloc)),
        },
    }
}

/// The message for a name that no store has.
fn no_store(alloc: Global, name: &str) -> Result<Text, NoMemory> {
    let what = format!(in alloc; "no store is named `{name}`; there is one, `memory`")?;
    message(alloc, "links", what.as_str())
}

/// The message for a program that is refused.
fn of_program(alloc: Global, program: &Source, refusal: &Refusal) -> Result<Text, NoMemory> {
    let file = program.name.as_str();
    match refusal {
        Refusal::TextTooLong => message(alloc, file, "this has more than 1,048,576 bytes"),
        Refusal::NoMain => message(
            alloc,
            file,
            "there is no function `main` with one parameter and the mark `client`: fun main(x) client { .. }",
        ),
        Refusal::TooManyInstances => message(
            alloc,
            file,
            "this has more than 4,096 instances: each function that is used counts once for each type at which it is used, and again inside of queries and changes",
        ),
        Refusal::NotUtf8(at) => not_utf8(alloc, program, *at),
        refusal => match str::from_utf8(program.text.as_slice()) {
            Ok(text) => at_place(alloc, Page { file, text }, refusal),
            Err(_) => Ok(Text::new(alloc)),
        },
    }
}

/// The message for a text that isn't UTF-8 from this place on. The line is shown up to there.
fn not_utf8(alloc: Global, program: &Source, at: u32) -> Result<Text, NoMemory> {
    let (front, _) = program
        .text
        .as_slice()
        .split_at((at as usize).min(program.text.len()));
    let text = str::from_utf8(front).unwrap_or("");
    let what = "the bytes from here on are no UTF-8";
    message_at(
        alloc,
        program.name.as_str(),
        text,
        Span { start: at, end: at },
        what,
    )
}

/// The message for a program that is refused at a place.
fn at_place(alloc: Global, page: Page<'_>, refusal: &Refusal) -> Result<Text, NoMemory> {
    match refusal {
        Refusal::BadToken(at) => page.told(alloc, *at, bad_token(page.behind(*at))),
        Refusal::TooNested(at) => page.told(
            alloc,
            *at,
            "here brackets, operators and forms nest too deep",
        ),
        Refusal::Unexpected(at) => unexpected(alloc, page, *at),
        Refusal::Unbound(at) => named(alloc, page, *at, "names nothing that can be used here"),
        Refusal::Twice(at) => named(alloc, page, *at, "is there twice"),
        Refusal::TypeTooLarge(at) => page.told(
            alloc,
            *at,
            "with this, a type has more than 4,096 nodes",
        ),
        Refusal::IllTyped(at) => page.told(
            alloc,
            *at,
            ill_typed(alloc, page.text.as_bytes(), *at)?.as_str(),
        ),
        Refusal::Shape(kind, at) => page.told(alloc, *at, shape(*kind)),
        Refusal::QueryTooLarge(size, at) => page.told(alloc, *at, too_large(*size)),
        _ => Ok(Text::new(alloc)),
    }
}

/// What is wrong where no token begins, by what stands there.
fn bad_token(text: &str) -> &'static str {
    match text.as_bytes().first() {
        Some(b'"') =>
            "this text has no closing quote before the end of the line or a carriage return, or has an escape that is none",
        Some(b'0'..=b'9') => "this is no integer: it is over 9223372036854775807, or begins with 0",
        _ => "here no word, tag, number, text or sign begins",
    }
}

/// The message for a token that no program has behind those before it, with what could stand there.
fn unexpected(alloc: Global, page: Page<'_>, at: Span) -> Result<Text, NoMemory> {
    let wanted = expected(alloc, page.before(at))?;
    let what = match (at.start == at.end, wanted.is_empty()) {
        (true, true) => format!(in alloc; "the text ends here, and more is needed")?,
        (true, false) => format!(in alloc;
            "the text ends here, where {} could stand",
            wanted.as_str()
        )?,
        (false, true) => format!(in alloc;
            "`{}` can't stand here",
            page.part(alloc, at)?.as_str()
        )?,
        (false, false) => {
            let part = page.part(alloc, at)?;
            format!(in alloc;
                "`{}` can't stand here, but {} could",
                part.as_str(),
                wanted.as_str()
            )?
        }
    };
    page.told(alloc, at, what.as_str())
}

/// The message that quotes what stands at a place, and says this of it.
fn named(alloc: Global, page: Page<'_>, at: Span, what: &str) -> Result<Text, NoMemory> {
    let part = page.part(alloc, at)?;
    let what = format!(in alloc; "`{}` {what}", part.as_str())?;
    page.told(alloc, at, what.as_str())
}

/// Why a shape is refused.
fn shape(kind: ShapeKind) -> &'static str {
    match kind {
        ShapeKind::MainType =>
            "the type of main's answer has a function in it, and functions can't be shown",
        ShapeKind::EqualityAtFunction =>
            "functions can't be compared, and one is in the type of what this compares",
        ShapeKind::OrderAtNonBase => "only integers, truth values and texts have an order",
        ShapeKind::QueryNotFlat =>
            "this, or a function that it uses, has something that a database can't hold or compare",
        ShapeKind::QueryCapture => {
            "a name from outside is used in here whose value is no integer, truth value or text, and no record of these"
        }
    }
}

/// In what a query is too large.
fn too_large(size: Size) -> &'static str {
    match size {
        Size::Nodes => "with the functions that it calls this has more than 65,536 nodes",
        Size::Branches => "the normal form of this has more than 1,024 branches",
        Size::Text =>
            "the SQL of this, or of its condition and new values, has more than 1,048,576 bytes",
    }
}
