//! What nodes use, as a walk from the last to the first finds it.

ghost use Rattle.lk_cps.specs.Conts.{IsTypeOf};
ghost use Rattle.lk_cps.specs.Live.{LiveAt};
ghost use Rattle.std.specs.Prelude.{◌≡◌, IfOk};

use crate::live::Live;
use lk_ast::NoMemory;
use lk_ir::Forms;
use std::alloc::Global;
use std::marker::Model;

/// The names that nodes use, of each node that was looked at and whose names no other node has taken. Contracts see the table of
/// nodes alone.
#[derive(Drop)]
pub struct Table<'f> {
    forms: &'f Forms,
    live: Vec<Option<Live>>,
}

impl<'f> Model for Table<'f> {
    ghost use Rattle.lk_cps.specs.Live.{AreLive};
    ghost use Rattle.lk_ir.specs.declared.nodes.Forms.{Forms as TheForms};
    ghost use Rattle.lk_types.specs.contracts.ground.Ground as g;
    ghost use Rattle.std.specs.Coded.{codes};

    ghost Value = { TheForms };

    ghost coded = { Prim.hlevel (codes, g.the_row.coded) };

    ghost view = { λ table. table.forms.now };

    ghost invariant = { λ table. AreLive table.forms.now table.live.items };
}

impl<'f> Table<'f> {
    /// No node was looked at yet.
    pub fn new(alloc: Global, forms: &'f Forms) -> Result<Table<'f>, NoMemory>
        ensures { IfOk result (λ table. table ≡ forms.now) }
    {
        let mut live = Vec::new(alloc);
        for _node in forms.nodes.as_slice() {
            live.push(None)?;
        }
        Ok(Table { forms, live })
    }

    /// The nodes.
    pub fn forms(&self) -> &'f Forms
        ensures { result.now ≡ self.now }
    {
        self.forms
    }

    /// The names that a node uses, which are gone from here. `NoMemory` where they aren't here: where the node stands before the one
    /// that asks for them, or is a child of two, which isn't so in a program.
    pub fn take(&mut self, node: u32) -> Result<Live, NoMemory>
        ensures table { self.new ≡ self.old }
        ensures live { IfOk result (LiveAt self.old node) }
    {
        let place = node as usize;
        if place < self.live.len() {
            self.live[place].take().ok_or(NoMemory)
        } else {
            Err(NoMemory)
        }
    }

    /// Keeps the names that a node uses.
    pub fn put(&mut self, node: usize, live: Live)
        requires { LiveAt self.old node live }
        ensures { self.new ≡ self.old }
    {
        if node < self.live.len() {
            self.live[node] = Some(live);
        }
    }

    /// The number of the type of a name that a node uses, 0 where it doesn't. `NoMemory` where its names aren't here.
    pub fn type_of(&self, node: u32, name: u32) -> Result<u32, NoMemory>
        ensures { IfOk result (IsTypeOf self.now node name) }
    {
        let Some(slot) = self.live.get(node as usize) else {
            return Err(NoMemory);
        };
        match slot {
            Some(live) => Ok(live.get(name).unwrap_or(0)),
            None => Err(NoMemory),
        }
    }
}
