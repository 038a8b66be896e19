//! Which node stands for each variable.

ghost use Rattle.lk_types.specs.declared.ty.Variable.{Variable as TheVariable};
ghost use Rattle.lk_types.specs.Variables.{same_variable};
ghost use Rattle.lk_unify.specs.NamedNodes.{node_in, number_of};
ghost use Rattle.std.specs.Map.{lookup};
ghost use Rattle.std.specs.Prelude.{◌≡◌, ◌≢◌, ℕ, cond, slice_index_or as get_or, OnOk, None, Some};

use lk_ast::NoMemory;
use lk_types::Variable;
use std::alloc::Global;
use std::collections::BTreeMap;

/// The number of a variable.
pub fn number_of(variable: Variable) -> u32
    ensures { result ≡ number_of variable }
{
    match variable {
        Variable::Plain(number) => number,
        Variable::Row(number) => number,
        Variable::Effects(number) => number,
    }
}

/// Whether both are one variable.
fn is_same(left: Variable, right: Variable) -> bool
    ensures { result ≡ same_variable left right }
{
    match left {
        Variable::Plain(number) => match right {
            Variable::Plain(other) => number == other,
            Variable::Row(_) | Variable::Effects(_) => false,
        },
        Variable::Row(number) => match right {
            Variable::Row(other) => number == other,
            Variable::Plain(_) | Variable::Effects(_) => false,
        },
        Variable::Effects(number) => match right {
            Variable::Effects(other) => number == other,
            Variable::Plain(_) | Variable::Row(_) => false,
        },
    }
}

/// A variable and its node.
#[derive(Clone, Copy)]
pub struct NamedNode {
    pub variable: Variable,
    pub node: usize,
}

/// Puts it at the place of this number, which is made where there is none.
fn put_place(
    places: &mut Vec<Option<NamedNode>>,
    number: usize,
    found: NamedNode,
) -> Result<(), NoMemory>
    ensures here { OnOk result (get_or places.new.items number None ≡ Some found) }
    ensures there { OnOk result ((i : ℕ) → i ≢ number → get_or places.new.items i None ≡ get_or places.old.items i None) }
{
    'reaching: while places.len() <= number {
        places.push(None)?;
    }
    places[number] = Some(found);
    Ok(())
}

/// Variables with their nodes. One whose number is less than eight times that of its node and eight more has the place of that
/// number, if no other one has it, so there are not many more places than nodes. The others are in a map.
#[derive(Drop)]
pub struct NamedNodes {
    pub places: Vec<Option<NamedNode>>,
    pub others: BTreeMap<Variable, usize>,
}

impl NamedNodes {
    /// No variable has a node, which takes no memory.
    pub fn new(alloc: Global) -> NamedNodes
        ensures { (x : TheVariable) → node_in result x ≡ None }
    {
        NamedNodes {
            places: Vec::new(alloc),
            others: BTreeMap::new(alloc),
        }
    }

    /// What has the place of this number.
    fn at(&self, number: usize) -> Option<NamedNode>
        ensures { result ≡ get_or self.now.places.items number None }
    {
        if number < self.places.len() {
            return self.places[number];
        }
        None
    }

    /// What the map has for a variable.
    fn other(&self, variable: Variable) -> Option<usize>
        ensures { result ≡ lookup (same_variable variable) self.now.others.entries }
    {
        self.others.get(&variable).copied()
    }

    /// The node of a variable.
    pub fn get(&self, variable: Variable) -> Option<usize>
        ensures { result ≡ node_in self.now variable }
    {
        match self.at(number_of(variable) as usize) {
            Some(found) => {
                if is_same(variable, found.variable) {
                    return Some(found.node);
                }
                self.other(variable)
            }
            None => self.other(variable),
        }
    }

    /// Gives a variable a node at the place of its number, which no other one has.
    fn put(&mut self, variable: Variable, node: usize) -> Result<(), NoMemory>
        requires { get_or self.old.places.items (number_of variable) None ≡ None }
        ensures { OnOk result ((q : TheVariable) → node_in self.new q ≡ cond (same_variable variable q) (Some node) (node_in self.old q)) }
    {
        let number = number_of(variable);
        put_place(
            &mut self.places,
            number as usize,
            NamedNode { variable, node },
        )?;
        Ok(())
    }

    /// Gives a variable a node in the map.
    fn put_other(&mut self, variable: Variable, node: usize) -> Result<(), NoMemory>
        requires { node_in self.old variable ≡ None }
        ensures { OnOk result ((q : TheVariable) → node_in self.new q ≡ cond (same_variable variable q) (Some node) (node_in self.old q)) }
    {
        drop(self.others.insert(variable, node)?);
        Ok(())
    }

    /// Gives a variable a node.
    pub fn insert(&mut self, variable: Variable, node: usize) -> Result<(), NoMemory>
        requires { node_in self.old variable ≡ None }
        ensures { OnOk result ((q : TheVariable) → node_in self.new q ≡ cond (same_variable variable q) (Some node) (node_in self.old q)) }
    {
        let number = number_of(variable) as usize;
        if number / 8 > node {
            return self.put_other(variable, node);
        }
        match self.at(number) {
            Some(_) => self.put_other(variable, node),
            None => self.put(variable, node),
        }
    }
}
