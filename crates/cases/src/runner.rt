//! Runs cases.

ghost use Rattle.std.specs.Prelude.{◌≡◌, All, IfOk, IfSome, false};

use crate::case::{Case, Entry};
use crate::compare::{
    compare_message, compare_none, compare_printed, compare_status, compare_store,
};
use crate::reader::read_case;
use crate::run::Run;
use lk_ast::{Bytes, List, NoMemory, Text};
use lk_cli::{Ran, links_main};
use lk_outside::{FileEntry, MemFiles, MemSink, Store};
use lk_store::{FailingStore, MemoryStore};
use std::alloc::Global;

/// In what the case of these lines comes out otherwise than they say, a line for each.
pub fn differences(alloc: Global, settings: &str, lines: &str) -> Result<Vec<String>, NoMemory> {
    let mut told = Vec::new(alloc);
    let case = read_case(alloc, settings, lines, &mut told)?;
    run_case(alloc, &case, &mut told)?;
    Ok(told)
}

/// Runs a case over its stores, of which there are four lists.
fn run_case(alloc: Global, case: &Case, told: &mut Vec<String>) -> Result<(), NoMemory> {
    if case.runs.is_empty() {
        told.push(format!(in alloc; "nothing is run")?)?;
    }
    match case.stores.as_str() {
        "memory" => run_over_memory(alloc, case, told),
        "failing" => run_over_failing(alloc, case, told),
        "failing memory failing" => run_over_three(alloc, case, told),
        "" => run_all(alloc, case, Vec::new(alloc), told),
        _ => tell_stores(alloc, case, told),
    }
}

/// Tells that there are no such stores.
fn tell_stores(alloc: Global, case: &Case, told: &mut Vec<String>) -> Result<(), NoMemory> {
    let stores = case.stores.as_str();
    told.push(format!(in alloc; "no stores {stores}")?)?;
    Ok(())
}

/// Runs a case over a store in memory.
fn run_over_memory(alloc: Global, case: &Case, told: &mut Vec<String>) -> Result<(), NoMemory> {
    let mut stores: Vec<Box<dyn Store + Drop>> = Vec::new(alloc);
    stores.push(Box::new(alloc, MemoryStore::new(alloc))?)?;
    run_all(alloc, case, stores, told)
}

/// Runs a case over a store whose calls fail.
fn run_over_failing(alloc: Global, case: &Case, told: &mut Vec<String>) -> Result<(), NoMemory> {
    let calls = List::from_vec(case.failing_calls.clone()?);
    let mut stores: Vec<Box<dyn Store + Drop>> = Vec::new(alloc);
    stores.push(Box::new(alloc, FailingStore::new(alloc, calls))?)?;
    run_all(alloc, case, stores, told)
}

/// Runs a case over a store whose calls fail, one in memory, and one that has the name of the first, and whose calls don't
/// fail.
fn run_over_three(alloc: Global, case: &Case, told: &mut Vec<String>) -> Result<(), NoMemory> {
    let calls = List::from_vec(case.failing_calls.clone()?);
    let mut stores: Vec<Box<dyn Store + Drop>> = Vec::new(alloc);
    stores.push(Box::new(alloc, FailingStore::new(alloc, calls))?)?;
    let stores = with_store(stores, Box::new(alloc, MemoryStore::new(alloc))?)?;
    let other = FailingStore::new(alloc, List::new(alloc));
    let stores = with_store(stores, Box::new(alloc, other)?)?;
    run_all(alloc, case, stores, told)
}

/// These stores, and one more behind them.
fn with_store(
    stores: Vec<Box<dyn Store + Drop>>,
    store: Box<dyn Store + Drop>,
) -> Result<Vec<Box<dyn Store + Drop>>, NoMemory>
    requires stores { All (λ store. is_open store ≡ false) stores.items }
    requires store { is_open store ≡ false }
    ensures { IfOk result (λ stores. All (λ store. is_open store ≡ false) stores.items) }
{
    let mut stores = stores;
    stores.push(store)?;
    Ok(stores)
}

/// Runs a case over these stores, and each run but the first over the store that came back from the one before it.
fn run_all(
    alloc: Global,
    case: &Case,
    stores: Vec<Box<dyn Store + Drop>>,
    told: &mut Vec<String>,
) -> Result<(), NoMemory>
    requires { All (λ store. is_open store ≡ false) stores.items }
{
    let mut handed = stores;
    for run in case.runs.iter() {
        handed = run_once(alloc, case, run, handed, told)?;
    }
    Ok(())
}

/// Runs the top call once over these stores, tells what differs, and gives the store that came back.
fn run_once(
    alloc: Global,
    case: &Case,
    run: &Run,
    stores: Vec<Box<dyn Store + Drop>>,
    told: &mut Vec<String>,
) -> Result<Vec<Box<dyn Store + Drop>>, NoMemory>
    requires { All (λ store. is_open store ≡ false) stores.items }
    ensures { IfOk result (λ stores. All (λ store. is_open store ≡ false) stores.items) }
{
    let mut world = world_of(alloc, case, run)?;
    let World { words, files, out } = &mut world;
    let Ran {
        status,
        store,
        refused,
    } = links_main(alloc, words, files, stores, out);
    compare_printed(alloc, run, world.out.taken().as_slice(), told)?;
    compare_status(alloc, run, status, told)?;
    compare_message(alloc, run, refused, told)?;
    take_back(alloc, run, store, told)
}

/// Tells in what the store that came back differs, and gives it, if one did.
fn take_back(
    alloc: Global,
    run: &Run,
    store: Option<Box<dyn Store + Drop>>,
    told: &mut Vec<String>,
) -> Result<Vec<Box<dyn Store + Drop>>, NoMemory>
    requires { IfSome store (λ store. is_open store ≡ false) }
    ensures { IfOk result (λ stores. All (λ store. is_open store ≡ false) stores.items) }
{
    match store {
        Some(store) => keep(alloc, run, store, told),
        None => {
            compare_none(alloc, run, told)?;
            Ok(Vec::new(alloc))
        }
    }
}

/// Tells in what the store that came back differs, and gives it.
fn keep(
    alloc: Global,
    run: &Run,
    store: Box<dyn Store + Drop>,
    told: &mut Vec<String>,
) -> Result<Vec<Box<dyn Store + Drop>>, NoMemory>
    requires { is_open store ≡ false }
    ensures { IfOk result (λ stores. All (λ store. is_open store ≡ false) stores.items) }
{
    let mut store = store;
    compare_store(alloc, run, &mut *store, told)?;
    let mut stores: Vec<Box<dyn Store + Drop>> = Vec::new(alloc);
    stores.push(store)?;
    Ok(stores)
}

/// What a run is given beside its stores.
struct World {
    words: Vec<String>,
    files: MemFiles,
    out: MemSink,
}

impl Drop for World {
    fn drop(self) {
        let World {
            words: _,
            files: _,
            out: _,
        } = self;
    }
}

/// What a run is given.
fn world_of(alloc: Global, case: &Case, run: &Run) -> Result<World, NoMemory> {
    let writes = run.failing_writes.clone()?;
    let out = MemSink::new(alloc, List::from_vec(writes));
    let words = words_of(alloc, run)?;
    let files = files_of(alloc, case, run)?;
    Ok(World { words, files, out })
}

/// The words of a run. In place of one that is no text stands what no command has.
fn words_of(alloc: Global, run: &Run) -> Result<Vec<String>, NoMemory> {
    let mut words = Vec::new(alloc);
    for word in run.words.iter() {
        let text = str::from_utf8(word.as_bytes()).unwrap_or("no text");
        words.push(String::from_str(alloc, text)?)?;
    }
    Ok(words)
}

/// The files of a case, of which the reads of a run fail. Of two of a name the later one comes first, so that it is read.
fn files_of(alloc: Global, case: &Case, run: &Run) -> Result<MemFiles, NoMemory> {
    let mut entries = List::new(alloc);
    for entry in case.files.iter().rev() {
        entries.push(file_of(alloc, case, entry)?)?;
    }
    Ok(MemFiles::new(entries, List::from_vec(run.failing_reads.clone()?)))
}

/// A file of a case, with what stands before and behind it where it is `p.links`.
fn file_of(alloc: Global, case: &Case, entry: &Entry) -> Result<FileEntry, NoMemory> {
    let name = Text::from_str(alloc, entry.name.as_str())?;
    let mut content = Bytes::new(alloc);
    if entry.name.as_str() == "p.links" {
        content.push_slice(case.before.as_bytes())?;
        content.push_slice(entry.content.as_bytes())?;
        content.push_slice(case.behind.as_bytes())?;
    } else {
        content.push_slice(entry.content.as_bytes())?;
    }
    Ok(FileEntry { name, content })
}
