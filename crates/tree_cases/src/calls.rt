//! Scripts of calls of the executor, as a line of answers such as `ok, [1 2, 3 4], full 65537`.

ghost use Rattle.std.specs.Prelude.{◌≡◌, false, true};

use crate::line::Line;
use crate::made::Made;
use crate::named::are_declared;
use crate::swap::{swap, table};
use lk_ast::{Base, Cell, List, NoMemory, Row, TableDef, all_fit};
use lk_exec::{ExecError, delete_rows, insert_rows, select, update_rows};
use lk_outside::{OutFault, Store};
use lk_store::{FailingStore, MemoryStore};
use std::alloc::Global;
use std::str;

/// How many rows are shown at most.
const SHOWN: usize = 16;

/// Why a transaction ends early.
enum Stop {
    Fault,
    Full(u64),
    NoMemory,
    /// A word isn't known, or a call may not be made.
    Barred,
}

impl From<NoMemory> for Stop {
    fn from(_error: NoMemory) -> Stop {
        Stop::NoMemory
    }
}

impl From<OutFault> for Stop {
    fn from(fault: OutFault) -> Stop {
        match fault {
            OutFault::Failed => Stop::Fault,
            OutFault::NoMemory => Stop::NoMemory,
        }
    }
}

impl From<ExecError> for Stop {
    fn from(error: ExecError) -> Stop {
        match error {
            ExecError::StoreFault => Stop::Fault,
            ExecError::TableFull(size) => Stop::Full(size),
            ExecError::NoMemory => Stop::NoMemory,
        }
    }
}

/// Puts what the calls of a script answer over a store that a word names: `memory`, or `failing:3`, whose call with this number,
/// from 0, fails. It tells whether the word names one.
///
/// Each line of the script is a transaction, which a call that is refused ends: `ok` or why it is refused for each call of
/// `insert:t`, `delete:t` and `swap:t`, which swaps the columns of those rows of the table `t` for which the condition holds;
/// rows for `query` and for `scan:t`; and why it is refused for one that isn't begun or isn't committed. All other words make what
/// the calls take (`Made`). The tables are `t` and `u`, with the columns `a` and `b` of numbers.
pub fn put_calls(alloc: Global, line: &mut Line, text: &[u8], word: &str) -> bool {
    let script = str::from_utf8(text).unwrap_or("no text");
    if word == "memory" {
        put_transactions(alloc, line, script, &mut MemoryStore::new(alloc));
        return true;
    }
    match word.split_once(':') {
        Some(("failing", number)) => put_failing(alloc, line, script, number),
        _ => return false,
    }
    true
}

/// Puts what the calls answer over a store whose call with this number fails.
fn put_failing(alloc: Global, line: &mut Line, script: &str, number: &str) {
    let mut failing = List::new(alloc);
    if failing
        .push(number.parse::<u64>().unwrap_or(u64::MAX))
        .is_err()
    {
        line.put_no_memory();
        return;
    }
    put_transactions(alloc, line, script, &mut FailingStore::new(alloc, failing));
}

/// Puts what the calls of all transactions answer.
fn put_transactions(alloc: Global, line: &mut Line, script: &str, store: &mut dyn Store)
    requires { is_open store.old ≡ false }
{
    for words in script.split('\n') {
        put_transaction(alloc, line, words, store);
    }
}

/// Puts what the calls of a transaction answer, and why it ends early.
fn put_transaction(alloc: Global, line: &mut Line, words: &str, store: &mut dyn Store)
    requires { is_open store.old ≡ false }
    ensures { is_open store.new ≡ false }
{
    if let Err(fault) = store.begin(alloc) {
        put_stop(line, Stop::from(fault));
        return;
    }
    match put_answers(alloc, line, words, store) {
        Ok(()) => put_commit(alloc, line, store),
        Err(stop) => {
            put_stop(line, stop);
            store.abort();
        }
    }
}

/// Commits, and puts why that is refused.
fn put_commit(alloc: Global, line: &mut Line, store: &mut dyn Store)
    requires { is_open store.old ≡ true }
    ensures { is_open store.new ≡ false }
{
    if let Err(fault) = store.commit(alloc) {
        put_stop(line, Stop::from(fault));
    }
}

/// Puts what the calls of a transaction answer, up to the first that is refused.
fn put_answers(
    alloc: Global,
    line: &mut Line,
    words: &str,
    store: &mut dyn Store,
) -> Result<(), Stop>
    requires { is_open store.old ≡ true }
    ensures { is_open store.new ≡ true }
{
    let mut made = Made::new(alloc);
    for word in words.split(' ') {
        if !made.take(word)? {
            put_answer(alloc, line, &mut made, word, store)?;
        }
    }
    Ok(())
}

/// Puts what a call answers.
fn put_answer(
    alloc: Global,
    line: &mut Line,
    made: &mut Made,
    word: &str,
    store: &mut dyn Store,
) -> Result<(), Stop>
    requires { is_open store.old ≡ true }
    ensures { is_open store.new ≡ true }
{
    let (call, name) = word.split_once(':').unwrap_or((word, "t"));
    match call {
        "query" => put_query(alloc, line, made, store),
        "scan" => put_scan(alloc, line, name, store),
        "insert" => put_ok(line, insert(alloc, made, name, store)),
        "delete" => put_ok(line, delete(alloc, made, name, store)),
        "swap" => put_ok(line, swap_columns(alloc, made, name, store)),
        _ => Err(Stop::Barred),
    }
}

fn put_ok(line: &mut Line, answer: Result<(), Stop>) -> Result<(), Stop> {
    answer?;
    line.put_comma();
    line.put("ok");
    Ok(())
}

fn insert(alloc: Global, made: &mut Made, name: &str, store: &mut dyn Store) -> Result<(), Stop>
    requires { is_open store.old ≡ true }
    ensures { is_open store.new ≡ true }
{
    let def = table(alloc, name)?;
    let rows = made.take_rows();
    if !all_fit(&def, rows.as_slice()) {
        return Err(Stop::Barred);
    }
    Ok(insert_rows(alloc, &def, rows, store)?)
}

fn delete(alloc: Global, made: &mut Made, name: &str, store: &mut dyn Store) -> Result<(), Stop>
    requires { is_open store.old ≡ true }
    ensures { is_open store.new ≡ true }
{
    let def = table(alloc, name)?;
    let condition = made.take_scalar();
    Ok(delete_rows(alloc, &def, &condition, made.params(), store)?)
}

fn swap_columns(
    alloc: Global,
    made: &mut Made,
    name: &str,
    store: &mut dyn Store,
) -> Result<(), Stop>
    requires { is_open store.old ≡ true }
    ensures { is_open store.new ≡ true }
{
    let def = table(alloc, name)?;
    let sets = swap(alloc)?;
    let condition = made.take_scalar();
    Ok(update_rows(
        alloc,
        &def,
        &condition,
        sets.as_slice(),
        made.params(),
        store,
    )?)
}

fn put_query(
    alloc: Global,
    line: &mut Line,
    made: &mut Made,
    store: &mut dyn Store,
) -> Result<(), Stop>
    requires { is_open store.old ≡ true }
    ensures { is_open store.new ≡ true }
{
    let defs = tables(alloc)?;
    let sql = made.take_query();
    if !are_declared(defs.as_slice(), &sql) {
        return Err(Stop::Barred);
    }
    let rows = select(alloc, &sql, made.params(), defs.as_slice(), store)?;
    put_rows(line, rows.as_slice());
    Ok(())
}

fn put_scan(alloc: Global, line: &mut Line, name: &str, store: &mut dyn Store) -> Result<(), Stop>
    requires { is_open store.old ≡ true }
    ensures { is_open store.new ≡ true }
{
    let def = table(alloc, name)?;
    let rows = store.scan(alloc, &def)?;
    put_rows(line, rows.as_slice());
    Ok(())
}

/// The tables `t` and `u`.
fn tables(alloc: Global) -> Result<List<TableDef>, NoMemory> {
    let mut defs = List::new(alloc);
    defs.push(table(alloc, "t")?)?;
    defs.push(table(alloc, "u")?)?;
    Ok(defs)
}

fn put_stop(line: &mut Line, stop: Stop) {
    line.put_comma();
    match stop {
        Stop::Fault => line.put("fault"),
        Stop::NoMemory => line.put("no memory"),
        Stop::Barred => line.put("barred"),
        Stop::Full(size) => {
            line.put("full ");
            line.put_count(size);
        }
    }
}

/// Puts rows, and of many only how many there are.
fn put_rows(line: &mut Line, rows: &[Row]) {
    line.put_comma();
    if rows.len() > SHOWN {
        line.put_count(rows.len() as u64);
        line.put(" rows");
        return;
    }
    line.put("[");
    for row in rows {
        put_row(line, row.cells.as_slice());
    }
    line.put("]");
}

fn put_row(line: &mut Line, cells: &[Cell]) {
    line.put_comma();
    for (i, cell) in cells.iter().enumerate() {
        if i > 0 {
            line.put(" ");
        }
        put_base(line, &cell.value);
    }
}

fn put_base(line: &mut Line, base: &Base) {
    match base {
        Base::Int(number) => line.put_number(*number),
        Base::Bool(true) => line.put("true"),
        Base::Bool(false) => line.put("false"),
        Base::Text(text) => line.put_quoted(text.as_str()),
    }
}
