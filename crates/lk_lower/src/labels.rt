//! What has a label, and which table it changes.

ghost use Rattle.lk_lower.specs.Once.{AreRising};
ghost use Rattle.std.specs.Prelude.{◌≡◌, ◌++◌, ◌∷◌, [], OnOk, length};

use lk_ast::{List, NoMemory};
use lk_ir::{LabelForm, Touched};
use std::alloc::Global;
use std::marker::Model;

/// What has a label, in the order of labels, and the tables beside the labels that change one: each label stands there once. Contracts
/// see both lists.
#[derive(Drop)]
pub struct Labels {
    forms: List<LabelForm>,
    tables: List<Touched>,
}

impl Model for Labels {
    ghost use Rattle.lk_ir.specs.contracts.nodes.LabelForm as label;
    ghost use Rattle.lk_ir.specs.contracts.nodes.Touched as touched;
    ghost use Rattle.lk_ir.specs.declared.nodes.LabelForm.{LabelForm as TheLabel};
    ghost use Rattle.lk_ir.specs.declared.nodes.Touched.{Touched as TheTouched};
    ghost use Rattle.lk_lower.specs.Once.{AreBeside};
    ghost use Rattle.std.specs.Coded.{coded_list, coded×};
    ghost use Rattle.std.specs.Prelude.{List};

    ghost Value = { List TheLabel × List TheTouched };

    ghost coded = { coded× (coded_list label.the_row.coded) (coded_list touched.the_row.coded) };

    ghost view = { λ labels. (labels.forms, labels.tables) };

    ghost invariant = { λ labels. AreBeside labels.forms labels.tables };
}

impl Labels {
    /// No label.
    pub fn new(alloc: Global) -> Labels
        ensures { result ≡ ([], []) }
    {
        Labels {
            forms: List::new(alloc),
            tables: List::new(alloc),
        }
    }

    /// How many labels there are.
    pub fn len(&self) -> usize
        ensures { result ≡ length self.now.0 }
    {
        self.forms.len()
    }

    /// What has the next label.
    pub fn push(&mut self, form: LabelForm) -> Result<(), NoMemory>
        ensures { OnOk result (self.new ≡ (self.old.0 ++ form ∷ [], self.old.1)) }
    {
        self.forms.push(form)
    }

    /// What has the next label, and the table beside this label.
    pub fn push_beside(&mut self, form: LabelForm, table: Touched) -> Result<(), NoMemory>
        requires { table.label ≡ length self.old.0 }
        ensures { OnOk result (self.new ≡ (self.old.0 ++ form ∷ [], self.old.1 ++ table ∷ [])) }
    {
        self.forms.push(form)?;
        self.tables.push(table)
    }

    /// What has a label, and the tables beside labels.
    pub fn into_parts(self) -> (List<LabelForm>, List<Touched>)
        ensures are { result ≡ self }
        ensures rising { AreRising result.1 }
    {
        let Labels { forms, tables } = self;
        (forms, tables)
    }
}
