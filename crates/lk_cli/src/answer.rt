//! Answers to a command line, their texts and their statuses.

ghost use Rattle.std.specs.Prelude.{◌≡◌, [], ◌∷◌, IfOk};
ghost use Rattle.lk_cli.specs.Answers.{IsPrintedFor, IsShown, end_status, refusal_text, refused_at, refused_shape, refused_size, shape_name, size_name, status_of, tables_word};
ghost use Rattle.lk_report.specs.Lines.{line};

use crate::ended::{End, Ended};
use crate::queries::print_queries;
use crate::report::report;
use crate::schemes::print_schemes;
use lk_ast::{List, NoMemory as OutOfMemory, Span, TableRows, Text};
use lk_code::Code;
use lk_compile::{Accepted, CompileError};
use lk_infer::InferError;
use lk_listing::print_labels;
use lk_mono::{MonoError, ShapeKind};
use lk_names::NameError;
use lk_parse::ParseError;
use lk_tables::TablesError;
use lk_translate::Size;
use std::alloc::Global;
use thiserror::Error;

/// What a command comes to.
#[derive(Drop)]
pub enum Answer {
    /// Of `check`: the schemes of a program.
    Schemes(Accepted),
    /// Of `sql`: the queries of a program.
    Queries(Accepted),
    /// Of `labels`: the code of a program.
    Labelled(Code),
    /// Of `source`: a session.
    Run(Done),
}

/// A session that has come to its end.
#[derive(Drop)]
pub struct Done {
    /// Its run.
    pub run: Ended,
    /// The declared tables with the rows that they have then.
    pub tables: List<TableRows>,
}

/// Why a command is refused.
#[derive(Debug, Drop, Error)]
pub enum Refusal {
    #[error("no command form reads the words")]
    Words,
    #[error("a file could not be read")]
    ReadFault(Text),
    #[error("the text is too long")]
    TextTooLong,
    #[error("the text is not UTF-8")]
    NotUtf8(u32),
    #[error("no token begins here")]
    BadToken(Span),
    #[error("the text nests too deep")]
    TooNested(Span),
    #[error("the text is not a program")]
    Unexpected(Span),
    #[error("a name is not bound")]
    Unbound(Span),
    #[error("a name is there twice")]
    Twice(Span),
    #[error("the program has no main function")]
    NoMain,
    #[error("a type is too large")]
    TypeTooLarge(Span),
    #[error("not well typed")]
    IllTyped(Span),
    #[error("a shape that can not be run")]
    Shape(ShapeKind, Span),
    #[error("functions are used at too many types")]
    TooManyInstances,
    #[error("a query is too large")]
    QueryTooLarge(Size, Span),
    #[error("no store has the name")]
    NoStore(Text),
    #[error("the text is not a tables file")]
    Tables(TablesFault),
    #[error("a store failed")]
    StoreFault,
    #[error("out of memory")]
    NoMemory,
}

/// Why a text isn't a tables file.
#[derive(Clone, Copy, Debug)]
pub enum TablesFault {
    TooLong,
    NotJson,
    UnknownTable,
    BadRows,
    TooManyRows,
}

impl From<OutOfMemory> for Refusal {
    ghost use Rattle.lk_cli.specs.declared.answer.Refusal.TheVariants.{NoMemory};

    ghost from_gives = { λ _ refusal. refusal ≡ NoMemory };

    fn from(_: OutOfMemory) -> Self {
        Refusal::NoMemory
    }
}

impl From<ParseError> for Refusal {
    ghost use Rattle.lk_cli.specs.Answers.{refusal_of};

    ghost from_gives = { λ error refusal. refusal ≡ refusal_of error };

    fn from(error: ParseError) -> Self {
        match error {
            ParseError::TextTooLong(_) => Refusal::TextTooLong,
            ParseError::NotUtf8(at) => Refusal::NotUtf8(at),
            ParseError::BadToken(at) => Refusal::BadToken(at),
            ParseError::TooNested(at) => Refusal::TooNested(at),
            ParseError::Unexpected(at) => Refusal::Unexpected(at),
            ParseError::NoMemory => Refusal::NoMemory,
        }
    }
}

impl From<NameError> for Refusal {
    ghost use Rattle.lk_cli.specs.Answers.{refusal_of_names};

    ghost from_gives = { λ error refusal. refusal ≡ refusal_of_names error };

    fn from(error: NameError) -> Self {
        match error {
            NameError::Unbound(at) => Refusal::Unbound(at),
            NameError::Twice(at) => Refusal::Twice(at),
            NameError::NoMain => Refusal::NoMain,
            NameError::NoMemory => Refusal::NoMemory,
        }
    }
}

impl From<InferError> for Refusal {
    ghost use Rattle.lk_cli.specs.Answers.{refusal_of_types};

    ghost from_gives = { λ error refusal. refusal ≡ refusal_of_types error };

    fn from(error: InferError) -> Self {
        match error {
            InferError::IllTyped(at) => Refusal::IllTyped(at),
            InferError::TypeTooLarge(at) => Refusal::TypeTooLarge(at),
            InferError::NoMemory => Refusal::NoMemory,
        }
    }
}

impl From<MonoError> for Refusal {
    ghost use Rattle.lk_cli.specs.Answers.{refusal_of_ground};

    ghost from_gives = { λ error refusal. refusal ≡ refusal_of_ground error };

    fn from(error: MonoError) -> Self {
        match error {
            MonoError::TypeTooLarge(at) => Refusal::TypeTooLarge(at),
            MonoError::TooManyInstances => Refusal::TooManyInstances,
            MonoError::Shape(kind, at) => Refusal::Shape(kind, at),
            MonoError::NoMemory => Refusal::NoMemory,
        }
    }
}

impl From<CompileError> for Refusal {
    ghost use Rattle.lk_cli.specs.Answers.{refusal_of_compile};

    ghost from_gives = { λ error refusal. refusal ≡ refusal_of_compile error };

    fn from(error: CompileError) -> Self {
        match error {
            CompileError::Parse(why) => Refusal::from(why),
            CompileError::Names(why) => Refusal::from(why),
            CompileError::Infer(why) => Refusal::from(why),
            CompileError::Ground(why) => Refusal::from(why),
            CompileError::Query(size, at) => Refusal::QueryTooLarge(size, at),
            CompileError::NoMemory => Refusal::NoMemory,
        }
    }
}

impl From<TablesError> for Refusal {
    ghost use Rattle.lk_cli.specs.Answers.{refusal_of_tables};

    ghost from_gives = { λ error refusal. refusal ≡ refusal_of_tables error };

    fn from(error: TablesError) -> Self {
        match error {
            TablesError::TooLong => Refusal::Tables(TablesFault::TooLong),
            TablesError::NotJson => Refusal::Tables(TablesFault::NotJson),
            TablesError::UnknownTable => Refusal::Tables(TablesFault::UnknownTable),
            TablesError::BadRows => Refusal::Tables(TablesFault::BadRows),
            TablesError::TooManyRows => Refusal::Tables(TablesFault::TooManyRows),
            TablesError::NoMemory => Refusal::NoMemory,
        }
    }
}

/// The line of a refusal that has a place in the program's text.
fn refused_at(alloc: Global, number: u8, name: &str, at: Span) -> Result<Text, OutOfMemory>
    ensures { IfOk result (λ text. text ≡ refused_at number name.now at) }
{
    let line = format!(in alloc; "refused {} {} {} {}\n", number, name, at.start, at.end)?;
    Ok(Text::from_string(line))
}

/// The line of a refusal of a shape.
fn refused_shape(alloc: Global, kind: ShapeKind, at: Span) -> Result<Text, OutOfMemory>
    ensures { IfOk result (λ text. text ≡ refused_shape kind at) }
{
    let name = name_of_shape(kind);
    let line = format!(in alloc; "refused 12 Shape {} {} {}\n", name, at.start, at.end)?;
    Ok(Text::from_string(line))
}

fn name_of_shape(kind: ShapeKind) -> &'static str
    ensures { result.now ≡ shape_name kind }
{
    match kind {
        ShapeKind::MainType => "MainType",
        ShapeKind::EqualityAtFunction => "EqualityAtFunction",
        ShapeKind::OrderAtNonBase => "OrderAtNonBase",
        ShapeKind::QueryNotFlat => "QueryNotFlat",
        ShapeKind::QueryCapture => "QueryCapture",
    }
}

/// The line of a refusal of a query's size.
fn refused_size(alloc: Global, size: Size, at: Span) -> Result<Text, OutOfMemory>
    ensures { IfOk result (λ text. text ≡ refused_size size at) }
{
    let name = name_of_size(size);
    let line = format!(in alloc;
        "refused 14 QueryTooLarge {} {} {}\n",
        name, at.start, at.end
    )?;
    Ok(Text::from_string(line))
}

fn name_of_size(size: Size) -> &'static str
    ensures { result.now ≡ size_name size }
{
    match size {
        Size::Nodes => "nodes",
        Size::Branches => "branches",
        Size::Text => "text",
    }
}

fn word_of_tables(fault: TablesFault) -> &'static str
    ensures { result.now ≡ tables_word fault }
{
    match fault {
        TablesFault::TooLong => "TooLong",
        TablesFault::NotJson => "NotJson",
        TablesFault::UnknownTable => "UnknownTable",
        TablesFault::BadRows => "BadRows",
        TablesFault::TooManyRows => "TooManyRows",
    }
}

/// What is printed for an answer, in which no function is shown.
pub fn print_answer(alloc: Global, answer: &Result<Answer, Refusal>) -> Result<Text, OutOfMemory>
    requires shown { IsShown answer.now }
    ensures { IfOk result (IsPrintedFor answer.now) }
{
    match answer {
        Ok(Answer::Schemes(checked)) => print_schemes(
            alloc,
            checked.program.program(),
            checked.typed.schemes.as_slice(),
        ),
        Ok(Answer::Queries(checked)) => print_queries(alloc, checked.queries.as_slice()),
        Ok(Answer::Labelled(code)) => print_labels(alloc, code.tables()),
        Ok(Answer::Run(done)) => report(alloc, done),
        Err(refusal) => print_refusal(alloc, refusal),
    }
}

/// The line of a refusal.
fn print_refusal(alloc: Global, refusal: &Refusal) -> Result<Text, OutOfMemory>
    ensures { IfOk result (λ text. text ≡ refusal_text refusal.now) }
{
    match refusal {
        Refusal::Words => Text::from_str(alloc, "words\n"),
        Refusal::ReadFault(name) => line_with(alloc, "read fault", name.as_str()),
        Refusal::NotUtf8(at) => {
            let line = format!(in alloc; "refused 1 NotUtf8 {}\n", *at)?;
            Ok(Text::from_string(line))
        }
        Refusal::BadToken(at) => refused_at(alloc, 2, "BadToken", *at),
        Refusal::Unexpected(at) => refused_at(alloc, 3, "Unexpected", *at),
        Refusal::TooNested(at) => refused_at(alloc, 4, "TooNested", *at),
        Refusal::TextTooLong => Text::from_str(alloc, "refused 5 TextTooLong\n"),
        Refusal::Unbound(at) => refused_at(alloc, 6, "Unbound", *at),
        Refusal::Twice(at) => refused_at(alloc, 7, "Twice", *at),
        Refusal::NoMain => Text::from_str(alloc, "refused 8 NoMain\n"),
        Refusal::TypeTooLarge(at) => refused_at(alloc, 10, "TypeTooLarge", *at),
        Refusal::IllTyped(at) => refused_at(alloc, 11, "IllTyped", *at),
        Refusal::Shape(kind, at) => refused_shape(alloc, *kind, *at),
        Refusal::TooManyInstances => Text::from_str(alloc, "refused 13 TooManyInstances\n"),
        Refusal::QueryTooLarge(size, at) => refused_size(alloc, *size, *at),
        Refusal::NoStore(name) => line_with(alloc, "store", name.as_str()),
        Refusal::Tables(fault) => line_with(alloc, "tables", word_of_tables(*fault)),
        Refusal::StoreFault => Text::from_str(alloc, "store fault\n"),
        Refusal::NoMemory => Ok(Text::new(alloc)),
    }
}

/// A word and another behind it, as a line.
fn line_with(alloc: Global, first: &str, word: &str) -> Result<Text, OutOfMemory>
    ensures { IfOk result (λ text. text ≡ line (first.now ∷ word.now ∷ [])) }
{
    let line = format!(in alloc; "{} {}\n", first, word)?;
    Ok(Text::from_string(line))
}

/// The status of an answer that was printed whole.
pub fn answer_status(answer: &Result<Answer, Refusal>) -> u8
    ensures { result ≡ status_of answer.now }
{
    match answer {
        Ok(Answer::Schemes(_)) | Ok(Answer::Queries(_)) | Ok(Answer::Labelled(_)) => 0,
        Ok(Answer::Run(done)) => status_of_end(&done.run.end),
        Err(Refusal::TextTooLong)
        | Err(Refusal::NotUtf8(_))
        | Err(Refusal::BadToken(_))
        | Err(Refusal::TooNested(_))
        | Err(Refusal::Unexpected(_))
        | Err(Refusal::Unbound(_))
        | Err(Refusal::Twice(_))
        | Err(Refusal::NoMain)
        | Err(Refusal::TypeTooLarge(_))
        | Err(Refusal::IllTyped(_))
        | Err(Refusal::Shape(_, _))
        | Err(Refusal::TooManyInstances)
        | Err(Refusal::QueryTooLarge(_, _)) => 1,
        Err(Refusal::Words) => 2,
        Err(Refusal::ReadFault(_)) => 3,
        Err(Refusal::NoMemory) => 5,
        Err(Refusal::Tables(_)) => 6,
        Err(Refusal::NoStore(_)) => 11,
        Err(Refusal::StoreFault) => 13,
    }
}

fn status_of_end(end: &End) -> u8
    ensures { result ≡ end_status end.now }
{
    match end {
        End::Value(_) => 0,
        End::Trap(_) | End::TableFull(_) => 8,
        End::Spent => 12,
    }
}
