//! Rows that are made field by field.

ghost use Rattle.lk_arena.specs.Openings.{field_type, only_tail, row_type};
ghost use Rattle.lk_unify.specs.Reading.{as_open, no_types, with_entry};
ghost use Rattle.std.specs.FinMap as finite;
ghost use Rattle.std.specs.Prelude.{◌≡◌, IfOk, OnOk, map};

use lk_ast::{List, NoMemory, Text};
use lk_types::{RowTail, Ty, TyField, TyRow};
use std::alloc::Global;
use std::collections::BTreeMap;
use std::marker::Model;

/// Types under their labels.
#[derive(Drop)]
pub struct TypesByLabel {
    types: BTreeMap<Text, Ty>,
}

impl Model for TypesByLabel {
    ghost use Rattle.lk_types.specs.Rows.{label_order};
    ghost use Rattle.lk_types.specs.contracts.ty.Ty as t;
    ghost use Rattle.lk_types.specs.declared.ty.Ty.{Ty as TheTy};
    ghost use Rattle.std.specs.Coded.{coded_list, coded_ℕ};
    ghost use Rattle.std.specs.FinMap as finite;

    ghost Value = { finite.FinMap label_order TheTy };

    ghost coded = { finite.code (coded_list coded_ℕ) t.the_row.coded };

    ghost view = { λ row. finite.from_sorted row.types.entries };
}

impl TypesByLabel {
    /// No type yet.
    fn new(alloc: Global) -> TypesByLabel
        ensures { result ≡ no_types }
    {
        TypesByLabel {
            types: BTreeMap::new(alloc),
        }
    }

    /// One more type, in place of one with its label.
    fn put(&mut self, label: Text, ty: Ty) -> Result<(), NoMemory>
        ensures { OnOk result (self.new ≡ finite.insert self.old label ty) }
    {
        self.types.insert(label, ty)?;
        Ok(())
    }

    /// The types as fields, in byte order of their labels.
    fn into_fields(self, alloc: Global) -> Result<List<TyField>, NoMemory>
        ensures { IfOk result (λ fields. fields ≡ map field_type (finite.entries self)) }
    {
        let mut fields = List::new(alloc);
        for (label, ty) in self.types {
            fields.push(TyField { label, ty })?;
        }
        Ok(fields)
    }
}

/// A row that is made, in which each field is put at its place in a time that grows with the logarithm of their number.
#[derive(Drop)]
pub struct MadeRow {
    pub types: TypesByLabel,
    pub tail: RowTail,
}

/// The row that is nothing but this end.
pub fn only_end(alloc: Global, tail: RowTail) -> MadeRow
    ensures { as_open result ≡ only_tail tail }
{
    MadeRow {
        types: TypesByLabel::new(alloc),
        tail,
    }
}

/// The row with a field more.
pub fn with_field(alloc: Global, row: MadeRow, label: &Text, ty: Ty) -> Result<MadeRow, NoMemory>
    ensures { IfOk result (λ more. as_open more ≡ with_entry (as_open row) label.now ty) }
{
    let MadeRow { mut types, tail } = row;
    types.put(label.copy(alloc)?, ty)?;
    Ok(MadeRow { types, tail })
}

/// The row as a type's, its fields in byte order.
pub fn into_row(alloc: Global, row: MadeRow) -> Result<TyRow, NoMemory>
    ensures { IfOk result (λ made. made ≡ row_type (as_open row)) }
{
    let MadeRow { types, tail } = row;
    let fields = types.into_fields(alloc)?;
    Ok(TyRow { fields, tail })
}
