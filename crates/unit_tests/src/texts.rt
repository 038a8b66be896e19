//! Text of values and of SQL that no program has.

use lk_ast::{Base, Field, List, NoMemory, Text, Value, holds_function, value_text};
use lk_sql::{Out, Scalar, Select, Sql, SqlOp};
use lk_sqltext::print_sql;
use std::alloc::Global;
use std::test::Fail;

/// A record with these numbers at these labels.
fn record(alloc: Global, fields: &[(&str, i64)]) -> Result<Value, NoMemory> {
    let mut made = List::new(alloc);
    for (label, number) in fields {
        let label = Text::from_str(alloc, label)?;
        let value = Value::Base(Base::Int(*number));
        made.push(Field { label, value })?;
    }
    Ok(Value::Fields(made))
}

/// The text of a value, if no function stands in it.
fn shown(alloc: Global, value: &Value) -> Result<Text, NoMemory> {
    if holds_function(value) {
        return Text::from_str(alloc, "fun");
    }
    value_text(alloc, value)
}

/// Whether this is the text of a record with these numbers at these labels.
fn is_shown(alloc: Global, fields: &[(&str, i64)], want: &str) -> Result<bool, NoMemory> {
    let record = record(alloc, fields)?;
    Ok(shown(alloc, &record)?.as_str() == want)
}

const UNSORTED: &[(&str, i64)] = &[("b", 1), ("aa", 2), ("a", 3), ("B", 4)];

const TWICE: &[(&str, i64)] = &[("a", 1), ("a", 2)];

// The fields of a program's values stand in byte order, each once.
#[test]
fn fields_in_any_order(rt: HostRuntime) -> Result<(), Fail> {
    let alloc = rt.alloc();
    assert!(rt; is_shown(alloc, UNSORTED, "{\"B\":4,\"a\":3,\"aa\":2,\"b\":1}")?);
    assert!(rt; is_shown(alloc, TWICE, "{\"a\":2}")?);
    Ok(())
}

/// An operator and its operands.
fn applied(op: SqlOp, operands: Vec<Scalar>) -> Scalar {
    Scalar::Op(op, List::from_vec(operands))
}

/// `SELECT s AS "n" WHERE TRUE`.
fn select(alloc: Global, scalar: Scalar) -> Result<Text, NoMemory> {
    let label = Text::from_str(alloc, "n")?;
    let outs = List::from_vec(vec![in alloc; Out { label, scalar }]?);
    let froms = List::new(alloc);
    let cond = Scalar::Lit(Base::Bool(true));
    let selects = List::from_vec(vec![in alloc; Select { froms, cond, outs }]?);
    let keys = List::new(alloc);
    print_sql(alloc, &Sql { selects, keys })
}

/// Whether this is the text of the query that selects a scalar alone.
fn is_selected(alloc: Global, scalar: Scalar, want: &str) -> Result<bool, NoMemory> {
    Ok(select(alloc, scalar)?.as_str() == want)
}

// A program's literals have no sign.
#[test]
fn literals_with_a_sign(rt: HostRuntime) -> Result<(), Fail> {
    let alloc = rt.alloc();
    let least = Scalar::Lit(Base::Int(i64::MIN));
    assert!(rt;
        is_selected(
            alloc,
            least,
            "SELECT -9223372036854775808 AS \"n\" WHERE TRUE"
        )?
    );
    let operands = vec![in alloc; Scalar::Lit(Base::Int(-5))]?;
    let negated = applied(SqlOp::Neg, operands);
    assert!(rt; is_selected(alloc, negated, "SELECT (- -5) AS \"n\" WHERE TRUE")?);
    Ok(())
}

/// `:12 * t4294967295."né"`.
fn product(alloc: Global) -> Result<Scalar, NoMemory> {
    let column = Scalar::Column(u32::MAX, Text::from_str(alloc, "né")?);
    let operands = vec![in alloc; Scalar::Param(12), column]?;
    Ok(applied(SqlOp::Mul, operands))
}

// A program has fewer parameters and tables, and its labels are of ASCII.
#[test]
fn large_numbers_and_other_letters(rt: HostRuntime) -> Result<(), Fail> {
    let alloc = rt.alloc();
    let product = product(alloc)?;
    assert!(rt;
        is_selected(
            alloc,
            product,
            "SELECT (:12 * t4294967295.\"né\") AS \"n\" WHERE TRUE"
        )?
    );
    Ok(())
}
