//! Whether SQL names only tables that are there.

ghost use Rattle.tree_cases.specs.Named.{scalar_declared as scalar_is};
ghost use Rattle.lk_exec.specs.NamedTables.{are_declared as sql_is, is_declared as name_is, names_declared as select_is};
ghost use Rattle.lk_sql.specs.declared.tree.FromItem.{FromItem as From};
ghost use Rattle.lk_sql.specs.declared.tree.Out.{Out as AnOut};
ghost use Rattle.std.specs.List.{list_all};
ghost use Rattle.std.specs.Prelude.{◌≡◌};

use lk_ast::{TableDef, Text};
use lk_sql::{FromItem, Out, Scalar, Select, Sql};

/// Whether each table that a query names is one of these.
pub fn are_declared(defs: &[TableDef], sql: &Sql) -> bool
    ensures { result ≡ sql_is defs.now sql.now }
{
    selects_declared(defs, sql.selects.as_slice())
}

#[cycle(named)]
fn selects_declared(defs: &[TableDef], selects: &[Select]) -> bool
    ensures { result ≡ list_all (select_is defs.now) selects.now }
{
    for select in selects {
        if !select_declared(defs, select) {
            return false;
        }
    }
    true
}

#[cycle(named)]
#[tactic(auto, using(crate::proofs::NamedForms::select_form))]
fn select_declared(defs: &[TableDef], select: &Select) -> bool
    ensures { result ≡ select_is defs.now select.now }
{
    froms_declared(defs, select.froms.as_slice())
        && (scalar_declared(defs, &select.cond) && outs_declared(defs, select.outs.as_slice()))
}

fn froms_declared(defs: &[TableDef], froms: &[FromItem]) -> bool
    ensures { result ≡ list_all (λ (from : From). name_is defs.now from.table) froms.now }
{
    froms.iter().all(|from| is_declared(defs, &from.table))
}

fn is_declared(defs: &[TableDef], name: &Text) -> bool
    ensures { result ≡ name_is defs.now name.now }
{
    defs.iter().any(|def| def.name.equals(name))
}

#[cycle(named)]
fn outs_declared(defs: &[TableDef], outs: &[Out]) -> bool
    ensures { result ≡ list_all (λ (out : AnOut). scalar_is defs.now out.scalar) outs.now }
{
    for out in outs {
        if !scalar_declared(defs, &out.scalar) {
            return false;
        }
    }
    true
}

#[cycle(named)]
fn scalars_declared(defs: &[TableDef], scalars: &[Scalar]) -> bool
    ensures { result ≡ list_all (scalar_is defs.now) scalars.now }
{
    for scalar in scalars {
        if !scalar_declared(defs, scalar) {
            return false;
        }
    }
    true
}

#[cycle(named)]
#[tactic(auto, using(crate::proofs::NamedForms::lit_form, crate::proofs::NamedForms::param_form, crate::proofs::NamedForms::column_form, crate::proofs::NamedForms::op_form, crate::proofs::NamedForms::case_form, crate::proofs::NamedForms::exists_form))]
fn scalar_declared(defs: &[TableDef], scalar: &Scalar) -> bool
    ensures { result ≡ scalar_is defs.now scalar.now }
{
    match scalar {
        Scalar::Lit(_) => true,
        Scalar::Param(_) => true,
        Scalar::Column(_, _) => true,
        Scalar::Op(_, operands) => scalars_declared(defs, operands.as_slice()),
        Scalar::Case(condition, one, other) => {
            scalar_declared(defs, condition.get())
                && (scalar_declared(defs, one.get()) && scalar_declared(defs, other.get()))
        }
        Scalar::Exists(selects) => selects_declared(defs, selects.as_slice()),
    }
}
