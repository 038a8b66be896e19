//! The names that the tails of a node use, and those behind all its positions.

ghost use Rattle.lk_cps.specs.Live.{LiveBehind, LiveInTails};
ghost use Rattle.lk_ir.specs.Tables.{form_at};
ghost use Rattle.lk_ir.specs.Uses.{binds, first_binds, last_binds};
ghost use Rattle.std.specs.Prelude.{◌≡◌, ℕ, [], ◌++◌, IfOk, Some, drop, map};

use crate::live::Live;
use crate::needs::own_names;
use crate::table::Table;
use lk_ast::NoMemory;
use lk_ir::{CaseForm, Form, Kind};
use std::alloc::Global;

/// The name that a tail binds, if it binds one.
fn bound_by(kind: &Kind, tail: usize) -> Option<u32>
    ensures { result ≡ first_binds (drop tail (binds kind.now)) }
{
    match kind {
        Kind::Bind(name) | Kind::For(name) => bound_in(&[], Some(*name), tail),
        Kind::Switch(cases, last) => bound_in(cases.as_slice(), *last, tail),
        Kind::Op(_)
        | Kind::Name(_)
        | Kind::Function(_)
        | Kind::Lambda(_, _)
        | Kind::Call(_)
        | Kind::Apply
        | Kind::Then
        | Kind::Choose(_)
        | Kind::Print
        | Kind::Reach(_, _, _) => bound_in(&[], None, tail),
    }
}

/// The name that one of these cases binds, or the last one, which is behind them.
fn bound_in(cases: &[CaseForm], last: Option<u32>, tail: usize) -> Option<u32>
    ensures { result ≡ first_binds (drop tail (map (λ case. case.name) cases.now ++ last_binds last)) }
{
    match cases.get(tail) {
        Some(case) => case.name,
        None => { if tail == cases.len() { last } else { None } }
    }
}

/// The names that the tails use from outside.
fn in_tails(alloc: Global, table: &mut Table, form: &Form) -> Result<Live, NoMemory>
    ensures table { table.new ≡ table.old }
    ensures live { IfOk result (LiveInTails table.old (binds form.now.kind) form.now.tails) }
{
    let mut live = Live::new(alloc);
    for i in (0..form.tails.len()).rev() {
        let bound = bound_by(&form.kind, i);
        let names = table.take(*form.tails.at(i))?;
        let own = names.without(bound);
        live = own.join(live)?;
    }
    Ok(live)
}

/// The names that are used behind all positions of a node.
pub fn behind(alloc: Global, table: &mut Table, form: &Form) -> Result<Live, NoMemory>
    requires { (n : ℕ) × (form_at table.old n ≡ Some form.now) }
    ensures table { table.new ≡ table.old }
    ensures live { IfOk result (LiveBehind table.old form.now []) }
{
    let own = own_names(alloc, table, form)?;
    let tails = in_tails(alloc, table, form)?;
    tails.join(own)
}
