//! What the process does, and the status that it ends with.

ghost use Rattle.std.specs.Prelude.{◌≡◌, ◌≢◌, ◌≤◌, [], false, All, Err, IfErr, IfOk, Some, codes, drop, length, map, string_bytes};
ghost use Rattle.std.specs.IoError.{error_kind};
ghost use Rattle.std.specs.Vec.Iter.{into_iter_items};
ghost use Rattle.lk_cli.specs.Answers.{IsTold};
ghost use Rattle.lk_cli.specs.Seen.{seen};
ghost use Rattle.lk_cli.specs.declared.answer.Refusal.TheVariants.{NoMemory};
ghost use Rattle.lk_process.specs.Statuses.{EndsFor};

use lk_cli::{Refusal, Refused, Sources, links_main};
use lk_explain::explain;
use lk_outside::{Files, OsFiles, Sink, StdSink, Store};
use lk_store::MemoryStore;
use std::alloc::Global;
use std::env::{self, Args};
use std::io::{self, ErrorKind};
use std::process::ExitCode;
use std::rt::{Env, Files as SystemFiles};

/// How a run ends: the status, and why it was refused, if it was.
#[derive(Drop)]
pub struct Ended {
    pub status: u8,
    pub refused: Option<Refused>,
}

/// Does what the words of the command line ask for over the system's files and standard output, tells on standard error why it
/// is refused, if it is, and gives the status.
pub fn run<R: Env + Print + Eprint + SystemFiles + AllocGlobal>(rt: &R) -> ExitCode {
    let alloc = rt.alloc();
    let mut files = OsFiles::new(rt);
    let mut out = StdSink::new(rt);
    let words = behind_name(alloc, env::args(rt));
    let Ended { status, refused } = end_of(alloc, words, &mut files, &mut out);
    if let Some(refused) = refused {
        tell(rt, alloc, &refused);
    }
    ExitCode::from(status)
}

/// Tells on standard error why a run was refused, where there is memory for that and standard error takes it.
fn tell<R: Eprint>(rt: &R, alloc: Global, refused: &Refused) {
    if let Ok(message) = explain(alloc, refused) {
        let _is_taken = rt.eprint(message.as_str());
    }
}

/// The words behind the first of these, which is the program's own name; or the kind of reason for which there are none.
fn behind_name(alloc: Global, args: io::Result<Args>) -> Result<Vec<String>, ErrorKind>
    ensures given { IfOk args (λ args. IfOk result (λ words. words.items ≡ drop 1 (into_iter_items args))) }
    ensures refused { IfErr args (λ error. result ≡ Err (error_kind error)) }
    ensures memory { IfOk args (λ args. IfErr result (λ kind. kind ≡ ErrorKind.OutOfMemory)) }
{
    let mut args = args.map_err(|error| error.kind())?;
    let _own_name = args.next();
    let mut words = Vec::new(alloc);
    for word in args {
        if words.push(word).is_err() {
            return Err(ErrorKind::OutOfMemory);
        }
    }
    Ok(words)
}

/// Does what these words ask for over files, a sink and a store in memory without tables. Where the system gave no words for another reason than want of memory, as where they aren't UTF-8, they are as no words at all.
pub fn end_of<F: Files, O: Sink>(
    alloc: Global,
    words: Result<Vec<String>, ErrorKind>,
    files: &mut F,
    out: &mut O,
) -> Ended
    ensures contents { F.contents files.new ≡ F.contents files.old }
    ensures files_later { F.faults files.old ≤ F.faults files.new }
    ensures sink_later { O.faults out.old ≤ O.faults out.new }
    ensures given { IfOk words (λ words. EndsFor (seen F.contents F.failed F.faults files.old files.new) (O.taken out.old) (O.taken out.new) (O.faults out.old) (O.faults out.new) (map string_bytes words.items) result.status result.refused) }
    ensures none { IfErr words (λ kind. kind ≢ ErrorKind.OutOfMemory → EndsFor (seen F.contents F.failed F.faults files.old files.new) (O.taken out.old) (O.taken out.new) (O.faults out.old) (O.faults out.new) [] result.status result.refused) }
    ensures memory { words ≡ Err ErrorKind.OutOfMemory → result.status ≡ 5 }
    ensures untouched { words ≡ Err ErrorKind.OutOfMemory → (O.taken out.new ≡ O.taken out.old) × (O.faults out.new ≡ O.faults out.old) × (F.faults files.new ≡ F.faults files.old) }
{
    match words {
        Ok(words) => end_over(alloc, &words, files, out),
        Err(ErrorKind::OutOfMemory) => no_memory(),
        Err(_) => end_over(alloc, &[], files, out),
    }
}

/// How a run without memory for anything ends.
fn no_memory() -> Ended
    ensures status { result.status ≡ 5 }
    ensures told { IsTold (Err NoMemory) result.refused }
{
    Ended {
        status: 5,
        refused: Some(Refused {
            refusal: Refusal::NoMemory,
            sources: Sources::none(),
        }),
    }
}

/// The end for words that were given.
fn end_over<F: Files, O: Sink>(alloc: Global, words: &[String], files: &mut F, out: &mut O) -> Ended
    ensures contents { F.contents files.new ≡ F.contents files.old }
    ensures files_later { F.faults files.old ≤ F.faults files.new }
    ensures sink_later { O.faults out.old ≤ O.faults out.new }
    ensures ends { EndsFor (seen F.contents F.failed F.faults files.old files.new) (O.taken out.old) (O.taken out.new) (O.faults out.old) (O.faults out.new) (map string_bytes words.now) result.status result.refused }
{
    // The stores that a command may ask for: one in memory, without tables.
    let mut stores: Vec<Box<dyn Store + Drop>> = Vec::new(alloc);
    let Ok(memory) = Box::new(alloc, MemoryStore::new(alloc)) else {
        return no_memory();
    };
    if stores.push(memory).is_err() {
        return no_memory();
    }
    end_with(alloc, words, files, stores, out)
}

/// The end for words that were given, where these are the stores: one in memory, without tables.
fn end_with<F: Files, O: Sink>(
    alloc: Global,
    words: &[String],
    files: &mut F,
    stores: Vec<Box<dyn Store + Drop>>,
    out: &mut O,
) -> Ended
    requires one { length stores.items ≡ 1 }
    requires idle { All (λ store. is_open store ≡ false) stores.items }
    requires named { All (λ store. name store ≡ codes "memory") stores.items }
    requires empty { All (λ store. tables store ≡ Some (λ _. [])) stores.items }
    requires commits { All (λ store. commits store ≡ 0) stores.items }
    requires faults { All (λ store. (⟦<dyn Store as Store>⟧ store.vtable).faults store.value ≡ 0) stores.items }
    ensures contents { F.contents files.new ≡ F.contents files.old }
    ensures files_later { F.faults files.old ≤ F.faults files.new }
    ensures sink_later { O.faults out.old ≤ O.faults out.new }
    ensures ends { EndsFor (seen F.contents F.failed F.faults files.old files.new) (O.taken out.old) (O.taken out.new) (O.faults out.old) (O.faults out.new) (map string_bytes words.now) result.status result.refused }
{
    let ran = links_main(alloc, words, files, stores, out);
    Ended {
        status: ran.status,
        refused: ran.refused,
    }
}
