//! The top call, and the answers to commands.

ghost use Rattle.std.specs.List.{AllZip};
ghost use Rattle.std.specs.Prelude.{◌≡◌, ◌≤◌, ◌⊎◌, false, All, IfErr, IfOk, IfSome, IsSome, None, Result, Some, bytes_eq, find, map, string_bytes};
ghost use Rattle.lk_ast.specs.Tables.{table_defs as declared_tables};
ghost use Rattle.lk_ast.specs.declared.declaration.Program.{Program as TheProgram};
ghost use Rattle.lk_bag.specs.Blocks.{AreBlocksApart};
ghost use Rattle.lk_cli.specs.Answers.{Answers, AnswersSession, Ends, HasNoAccepted, HasNoRows, HasNoStore, IsProgram, IsShown, IsTold, TellsReads, answer_of};
ghost use Rattle.lk_cli.specs.Loading.{AreLoaded, IsOfTable};
ghost use Rattle.lk_compile.specs.Accepted.{IsAccepted};
ghost use Rattle.lk_compile.specs.Compiled.{IsCodeOf};
ghost use Rattle.lk_cli.specs.Seen.{StoresSeen, picked_seen, seen, stores_seen};
ghost use Rattle.lk_words.specs.Words.{form_of, store_of};
ghost use Rattle.lk_cli.specs.declared.answer.Answer.{Answer as TheAnswer};
ghost use Rattle.lk_cli.specs.declared.answer.Refusal.{Refusal as TheRefusal};
ghost use Rattle.lk_words.specs.declared.command.Command.TheVariants.{Check, Labels, Source, Sql};
ghost use Rattle.lk_index.specs.Places.{ArePlaced};
ghost use Rattle.lk_sound.specs.Instances.{IsShaped};
ghost use Rattle.lk_sound.specs.Law.{AreBoundAndApart};

use crate::answer::{Answer, Refusal, answer_status, print_answer};
use crate::compile::{check_program, program_code, read_program};
use crate::load::rows_to_load;
use crate::refused::{Refused, Sources, for_message};
use crate::session::{Rows, Tried, run_in_box};
use lk_ast::{Program, Text};
use lk_bag::table_defs;
use lk_code::Code;
use lk_compile::Accepted;
use lk_outside::{Files, OutFault, Sink, Store};
use lk_store::pick;
use lk_words::{
    CheckCommand, Command, LabelsCommand, SourceCommand, SqlCommand, WordsError, read_words,
};
use std::alloc::Global;

/// The status of a run, the store that was picked for it, and why it was refused, if it was.
#[derive(Drop)]
pub struct Ran {
    pub status: u8,
    pub store: Option<Box<dyn Store + Drop>>,
    pub refused: Option<Refused>,
}

/// An answer that isn't printed yet, and the store that was picked for it.
#[derive(Drop)]
struct Answered {
    answer: Result<Answer, Refusal>,
    store: Option<Box<dyn Store + Drop>>,
}

/// All that the program does: reads the words, does what they ask for over the files and a store, prints to the sink and
/// gives the status, with the store if one was picked. There is an answer that has its cause, and the run ends with it. Where
/// it is a refusal, it is handed back with the files that were read, for a message.
pub fn links_main<F: Files, O: Sink>(
    alloc: Global,
    words: &[String],
    files: &mut F,
    stores: Vec<Box<dyn Store + Drop>>,
    out: &mut O,
) -> Ran
    requires idle { All (λ store. is_open store ≡ false) stores.items }
    ensures contents { F.contents files.new ≡ F.contents files.old }
    ensures files_later { F.faults files.old ≤ F.faults files.new }
    ensures sink_later { O.faults out.old ≤ O.faults out.new }
    ensures answer { (answer : Result TheAnswer TheRefusal)
        × Answers (seen F.contents F.failed F.faults files.old files.new)
        (stores_seen (λ store. name store) (λ store. tables store) (λ store. commits store) (λ store. (⟦<dyn Store as Store>⟧ store.vtable).faults store.value) stores.items result.store (store_of (form_of (map string_bytes words.now))))
        (form_of (map string_bytes words.now)) answer
        × TellsReads (F.faults files.old) (F.faults files.new) answer
        × Ends answer (O.taken out.old) (O.taken out.new) (O.faults out.old) (O.faults out.new) result.status
        × IsTold answer result.refused }
    ensures idle { IfSome result.store (λ store. is_open store ≡ false) }
    ensures named { IfSome result.store (λ store. name store ≡ store_of (form_of (map string_bytes words.now))) }
    ensures kind { IfSome result.store (λ back. IfSome (find (λ store. bytes_eq (store_of (form_of (map string_bytes words.now))) (name store)) stores.items) (λ given. back.vtable ≡ given.vtable)) }
{
    let mut sources = Sources::none();
    let Answered { answer, store } = answer_words(alloc, words, files, stores, &mut sources);
    let status = deliver(alloc, &answer, out);
    Ran {
        status,
        store,
        refused: for_message(answer, sources),
    }
}

/// Prints an answer and gives its status, or that of a sink that failed, or of want of memory.
fn deliver<O: Sink>(alloc: Global, answer: &Result<Answer, Refusal>, out: &mut O) -> u8
    requires shown { IsShown answer.now }
    ensures later { O.faults out.old ≤ O.faults out.new }
    ensures ends { Ends answer.now (O.taken out.old) (O.taken out.new) (O.faults out.old) (O.faults out.new) result }
{
    let Ok(text) = print_answer(alloc, answer) else {
        return 5;
    };
    match out.write(text.as_str().as_bytes()) {
        Ok(()) => answer_status(answer),
        Err(OutFault::Failed) => 4,
        Err(OutFault::NoMemory) => 5,
    }
}

/// The answer to the words.
fn answer_words<F: Files>(
    alloc: Global,
    words: &[String],
    files: &mut F,
    stores: Vec<Box<dyn Store + Drop>>,
    sources: &mut Sources,
) -> Answered
    requires idle { All (λ store. is_open store ≡ false) stores.items }
    ensures contents { F.contents files.new ≡ F.contents files.old }
    ensures later { F.faults files.old ≤ F.faults files.new }
    ensures reads { TellsReads (F.faults files.old) (F.faults files.new) result.answer }
    ensures shown { IsShown result.answer }
    ensures answers { Answers (seen F.contents F.failed F.faults files.old files.new)
        (stores_seen (λ store. name store) (λ store. tables store) (λ store. commits store) (λ store. (⟦<dyn Store as Store>⟧ store.vtable).faults store.value) stores.items result.store (store_of (form_of (map string_bytes words.now))))
        (form_of (map string_bytes words.now)) result.answer }
    ensures idle { IfSome result.store (λ store. is_open store ≡ false) }
    ensures named { IfSome result.store (λ store. name store ≡ store_of (form_of (map string_bytes words.now))) }
    ensures kind { IfSome result.store (λ back. IfSome (find (λ store. bytes_eq (store_of (form_of (map string_bytes words.now))) (name store)) stores.items) (λ given. back.vtable ≡ given.vtable)) }
{
    match read_words(alloc, words) {
        Err(WordsError::NoMemory) => Answered {
            answer: Err(Refusal::NoMemory),
            store: None,
        },
        Err(WordsError::NoForm) => Answered {
            answer: Err(Refusal::Words),
            store: None,
        },
        Ok(Command::Check(command)) => Answered {
            answer: answer_check(alloc, &command, files, sources),
            store: None,
        },
        Ok(Command::Sql(command)) => Answered {
            answer: answer_sql(alloc, &command, files, sources),
            store: None,
        },
        Ok(Command::Labels(command)) => Answered {
            answer: answer_labels(alloc, &command, files, sources),
            store: None,
        },
        Ok(Command::Source(command)) => answer_source(alloc, &command, files, stores, sources),
    }
}

/// The answer to `check`, which asks for no store.
fn answer_check<F: Files>(
    alloc: Global,
    command: &CheckCommand,
    files: &mut F,
    sources: &mut Sources,
) -> Result<Answer, Refusal>
    ensures contents { F.contents files.new ≡ F.contents files.old }
    ensures later { F.faults files.old ≤ F.faults files.new }
    ensures reads { TellsReads (F.faults files.old) (F.faults files.new) result }
    ensures shown { IsShown result }
    ensures answers { (stores : StoresSeen) → stores.back ≡ None → Answers (seen F.contents F.failed F.faults files.old files.new) stores (Some (Check command.now)) result }
{
    Ok(Answer::Schemes(accepted_program(alloc, command.program.as_str(), files, sources)?))
}

/// The answer to `sql`, which asks for no store.
fn answer_sql<F: Files>(
    alloc: Global,
    command: &SqlCommand,
    files: &mut F,
    sources: &mut Sources,
) -> Result<Answer, Refusal>
    ensures contents { F.contents files.new ≡ F.contents files.old }
    ensures later { F.faults files.old ≤ F.faults files.new }
    ensures reads { TellsReads (F.faults files.old) (F.faults files.new) result }
    ensures shown { IsShown result }
    ensures answers { (stores : StoresSeen) → stores.back ≡ None → Answers (seen F.contents F.failed F.faults files.old files.new) stores (Some (Sql command.now)) result }
{
    Ok(Answer::Queries(accepted_program(alloc, command.program.as_str(), files, sources)?))
}

/// The answer to `labels`, which asks for no store.
fn answer_labels<F: Files>(
    alloc: Global,
    command: &LabelsCommand,
    files: &mut F,
    sources: &mut Sources,
) -> Result<Answer, Refusal>
    ensures contents { F.contents files.new ≡ F.contents files.old }
    ensures later { F.faults files.old ≤ F.faults files.new }
    ensures reads { TellsReads (F.faults files.old) (F.faults files.new) result }
    ensures shown { IsShown result }
    ensures answers { (stores : StoresSeen) → stores.back ≡ None → Answers (seen F.contents F.failed F.faults files.old files.new) stores (Some (Labels command.now)) result }
{
    Ok(Answer::Labelled(compiled_program(alloc, command.program.as_str(), files, sources)?))
}

/// The answer to `source`. The store is picked first and comes back with any answer. That there is none is told once the
/// program is accepted.
fn answer_source<F: Files>(
    alloc: Global,
    command: &SourceCommand,
    files: &mut F,
    stores: Vec<Box<dyn Store + Drop>>,
    sources: &mut Sources,
) -> Answered
    requires idle { All (λ store. is_open store ≡ false) stores.items }
    ensures contents { F.contents files.new ≡ F.contents files.old }
    ensures later { F.faults files.old ≤ F.faults files.new }
    ensures reads { TellsReads (F.faults files.old) (F.faults files.new) result.answer }
    ensures shown { IsShown result.answer }
    ensures answers { Answers (seen F.contents F.failed F.faults files.old files.new)
        (stores_seen (λ store. name store) (λ store. tables store) (λ store. commits store) (λ store. (⟦<dyn Store as Store>⟧ store.vtable).faults store.value) stores.items result.store command.now.store)
        (Some (Source command.now)) result.answer }
    ensures idle { IfSome result.store (λ store. is_open store ≡ false) }
    ensures named { IfSome result.store (λ store. name store ≡ command.now.store) }
    ensures kind { IfSome result.store (λ back. IfSome (find (λ store. bytes_eq command.now.store (name store)) stores.items) (λ given. back.vtable ≡ given.vtable)) }
    ensures back { (find (λ store. bytes_eq command.now.store (name store)) stores.items ≡ None) ⊎ IsSome result.store }
{
    let picked = ready(stores, command.store.as_str());
    match accepted_program(alloc, command.program.as_str(), files, sources) {
        Ok(checked) => answer_session(
            alloc,
            checked.program.program(),
            command,
            files,
            picked,
            sources,
        ),
        Err(refusal) => Answered {
            answer: Err(refusal),
            store: picked,
        },
    }
}

/// The answer to `source` for an accepted program, with the store that was picked. That there is none is told before the
/// tables file is read.
fn answer_session<F: Files>(
    alloc: Global,
    program: &Program,
    command: &SourceCommand,
    files: &mut F,
    picked: Option<Box<dyn Store + Drop>>,
    sources: &mut Sources,
) -> Answered
    requires apart { AreBoundAndApart program.now }
    requires shaped { IsShaped program.now }
    requires idle { IfSome picked (λ store. is_open store ≡ false) }
    requires named { IfSome picked (λ store. name store ≡ command.now.store) }
    ensures contents { F.contents files.new ≡ F.contents files.old }
    ensures later { F.faults files.old ≤ F.faults files.new }
    ensures reads { TellsReads (F.faults files.old) (F.faults files.new) result.answer }
    ensures shown { IsShown result.answer }
    ensures answers { AnswersSession (seen F.contents F.failed F.faults files.old files.new)
        (picked_seen (λ store. tables store) (λ store. commits store) (λ store. (⟦<dyn Store as Store>⟧ store.vtable).faults store.value) picked result.store)
        command.now program.now result.answer }
    ensures idle { IfSome result.store (λ store. is_open store ≡ false) }
    ensures named { IfSome result.store (λ store. name store ≡ command.now.store) }
    ensures kind { IfSome result.store (λ back. IfSome picked (λ given. back.vtable ≡ given.vtable)) }
    ensures back { (picked ≡ None) ⊎ IsSome result.store }
{
    let Some(store) = picked else {
        return Answered {
            answer: Err(no_store(alloc, &command.store)),
            store: None,
        };
    };
    let rows = match rows_of_session(alloc, program, command, files, sources) {
        Ok(rows) => rows,
        Err(refusal) => {
            return Answered {
                answer: Err(refusal),
                store: Some(store),
            };
        }
    };
    tell(run_in_box(alloc, program, command, rows, store))
}

/// The answer to `source` where a session was tried, with its store.
fn tell(tried: Tried) -> Answered
    ensures answer { result.answer ≡ answer_of tried.outcome }
    ensures store { result.store ≡ Some tried.store }
{
    let Tried { outcome, store } = tried;
    let store = Some(store);
    match outcome {
        Ok(done) => Answered {
            answer: Ok(Answer::Run(done)),
            store,
        },
        Err(OutFault::Failed) => Answered {
            answer: Err(Refusal::StoreFault),
            store,
        },
        Err(OutFault::NoMemory) => Answered {
            answer: Err(Refusal::NoMemory),
            store,
        },
    }
}

/// The program of the file of that name, accepted with its schemes, its types and its queries as SQL.
fn accepted_program<F: Files>(
    alloc: Global,
    file: &str,
    files: &mut F,
    sources: &mut Sources,
) -> Result<Accepted, Refusal>
    ensures contents { F.contents files.new ≡ F.contents files.old }
    ensures later { F.faults files.old ≤ F.faults files.new }
    ensures reads { TellsReads (F.faults files.old) (F.faults files.new) result }
    ensures program { IfOk result (λ checked. IsProgram (seen F.contents F.failed F.faults files.old files.new) file.now checked.program) }
    ensures accepted { IfOk result (λ checked. IsAccepted checked.program checked.typed checked.queries) }
    ensures placed { IfOk result (λ checked. ArePlaced checked.program) }
    ensures blocks { IfOk result (λ checked. AreBlocksApart checked.program) }
    ensures refused { IfErr result (HasNoAccepted (seen F.contents F.failed F.faults files.old files.new) file.now) }
{
    let program = read_program(alloc, file, files, sources)?;
    check_program(alloc, program)
}

/// The code of the program of the file of that name.
fn compiled_program<F: Files>(
    alloc: Global,
    file: &str,
    files: &mut F,
    sources: &mut Sources,
) -> Result<Code, Refusal>
    ensures contents { F.contents files.new ≡ F.contents files.old }
    ensures later { F.faults files.old ≤ F.faults files.new }
    ensures reads { TellsReads (F.faults files.old) (F.faults files.new) result }
    ensures code { IfOk result (λ code. (program : TheProgram) × IsProgram (seen F.contents F.failed F.faults files.old files.new) file.now program × IsCodeOf program code) }
    ensures refused { IfErr result (HasNoAccepted (seen F.contents F.failed F.faults files.old files.new) file.now) }
{
    let program = read_program(alloc, file, files, sources)?;
    program_code(alloc, program)
}

/// The store of that name, which has no transaction under way.
fn ready(stores: Vec<Box<dyn Store + Drop>>, wanted: &str) -> Option<Box<dyn Store + Drop>>
    requires idle { All (λ store. is_open store ≡ false) stores.items }
    ensures first { result ≡ find (λ store. bytes_eq wanted.now (name store)) stores.items }
    ensures idle { IfSome result (λ store. is_open store ≡ false) }
    ensures named { IfSome result (λ store. name store ≡ wanted.now) }
{
    pick(stores, wanted)
}

/// The refusal of a name that no store has.
fn no_store(alloc: Global, wanted: &Text) -> Refusal
    ensures { (stores : StoresSeen) → stores.given ≡ None → stores.back ≡ None → HasNoStore stores wanted.now result }
{
    match wanted.copy(alloc) {
        Ok(wanted) => Refusal::NoStore(wanted),
        Err(_) => Refusal::NoMemory,
    }
}

/// The declared tables of a program, with the rows that are asked for.
fn rows_of_session<F: Files>(
    alloc: Global,
    program: &Program,
    command: &SourceCommand,
    files: &mut F,
    sources: &mut Sources,
) -> Result<Rows, Refusal>
    ensures contents { F.contents files.new ≡ F.contents files.old }
    ensures later { F.faults files.old ≤ F.faults files.new }
    ensures reads { TellsReads (F.faults files.old) (F.faults files.new) result }
    ensures declared { IfOk result (λ rows. rows.defs ≡ declared_tables program.now) }
    ensures loaded { IfOk result (λ rows. AreLoaded (seen F.contents F.failed F.faults files.old files.new) command.now.tables (declared_tables program.now) rows.loaded) }
    ensures fit { IfOk result (λ rows. AllZip IsOfTable rows.defs rows.loaded) }
    ensures refused { IfErr result (HasNoRows (seen F.contents F.failed F.faults files.old files.new) command.now.tables (declared_tables program.now)) }
{
    let defs = table_defs(alloc, program)?;
    let loaded = rows_to_load(
        alloc,
        command.tables.as_ref(),
        defs.as_slice(),
        files,
        sources,
    )?;
    Ok(Rows { defs, loaded })
}
