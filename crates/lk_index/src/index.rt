//! What a program has at a name or a place, found without a search of the program.

ghost use Rattle.lk_ast.specs.Functions.{functions_of, function_named};
ghost use Rattle.lk_index.specs.Free.{texts, captured};
ghost use Rattle.lk_index.specs.Index.{FindsNamed, FindsPlaced, FindsLambdas};
ghost use Rattle.lk_index.specs.Places.{function_at, lambda_at, lambdas_of, seen, shown};
ghost use Rattle.std.specs.Option.{option_copied, option_map};
ghost use Rattle.std.specs.Prelude.{◌≡◌, IfOk, IfSome, length};

use crate::free::captured;
use crate::places::lambdas;
use lk_ast::{FunDef, LambdaExpr, List, NoMemory, Program, functions_of};
use std::alloc::Global;
use std::collections::BTreeMap;
use std::marker::Model;

/// A lambda, and the names that it captures, in byte order and each once.
#[derive(Drop)]
pub struct IndexedLambda<'p> {
    pub lambda: &'p LambdaExpr,
    pub names: List<&'p str>,
}

/// The functions of a program and its lambdas, by names and places. Contracts see the program that it was made of.
#[derive(Drop)]
pub struct Index<'p> {
    program: &'p Program,
    count: usize,
    named: BTreeMap<&'p str, &'p FunDef>,
    placed: BTreeMap<u32, &'p FunDef>,
    lambdas: BTreeMap<u32, IndexedLambda<'p>>,
}

impl<'p> Model for Index<'p> {
    ghost use Rattle.lk_ast.specs.Functions.{functions_of};
    ghost use Rattle.lk_ast.specs.contracts.expression.Expr as e;
    ghost use Rattle.lk_ast.specs.contracts.signature.SigType as ty;
    ghost use Rattle.lk_ast.specs.declared.declaration.Program.{Program as TheProgram};
    ghost use Rattle.lk_index.specs.Index.{FindsNamed, FindsPlaced, FindsLambdas};
    ghost use Rattle.lk_index.specs.Places.{lambdas_of};
    ghost use Rattle.std.specs.Coded.{codes};
    ghost use Rattle.std.specs.Prelude.{◌≡◌, length};

    ghost Value = { TheProgram };

    ghost coded = { Prim.hlevel (codes, e.the_row.coded, ty.the_row.coded) };

    ghost view = { λ index. index.program.now };

    ghost invariant = { λ index. (index.count ≡ length (functions_of index.program.now)) × FindsNamed index.named (functions_of index.program.now) × FindsPlaced index.placed (functions_of index.program.now) × FindsLambdas index.lambdas (lambdas_of (functions_of index.program.now)) };
}

impl<'p> Index<'p> {
    /// The index of a program. `NoMemory` where memory runs out.
    pub fn new(alloc: Global, program: &'p Program) -> Result<Index<'p>, NoMemory>
        ensures { IfOk result (λ index. index ≡ program.now) }
    {
        let functions = functions_of(alloc, program)?;
        let count = functions.len();
        let named = by_name(alloc, functions.as_slice())?;
        let placed = by_place(alloc, functions.as_slice())?;
        let found = lambdas(alloc, functions.as_slice())?;
        let lambdas = indexed(alloc, found.as_slice())?;
        Ok(Index {
            program,
            count,
            named,
            placed,
            lambdas,
        })
    }

    /// How many functions the program has.
    pub fn function_count(&self) -> usize
        ensures { result ≡ length (functions_of self.now) }
    {
        self.count
    }

    /// The first function of this name.
    pub fn function(&self, name: &str) -> Option<&'p FunDef>
        ensures { option_copied result ≡ function_named self.now name.now }
    {
        self.named.get(name).copied()
    }

    /// The first function whose name begins at this place.
    pub fn function_at(&self, site: u32) -> Option<&'p FunDef>
        ensures { option_copied result ≡ function_at self.now site }
    {
        self.placed.get(&site).copied()
    }

    /// The first lambda that begins at this place, with the names that it captures.
    pub fn lambda_at(&self, site: u32) -> Option<&IndexedLambda<'p>>
        ensures lambda { option_map (λ i. i.now.lambda.now) result ≡ lambda_at self.now site }
        ensures names { IfSome result (λ i. texts i.now.names ≡ captured i.now.lambda.now) }
    {
        self.lambdas.get(&site)
    }
}

/// The functions by their names, the first where a name comes twice.
fn by_name<'p>(
    alloc: Global,
    functions: &[&'p FunDef],
) -> Result<BTreeMap<&'p str, &'p FunDef>, NoMemory>
    ensures { IfOk result (λ map. FindsNamed map (shown functions.now)) }
{
    let mut map = BTreeMap::new(alloc);
    for i in (0..functions.len()).rev() {
        let function = functions[i];
        map.insert(function.name.text.as_str(), function)?;
    }
    Ok(map)
}

/// The functions by the places where their names begin, the first where a place comes twice.
fn by_place<'p>(
    alloc: Global,
    functions: &[&'p FunDef],
) -> Result<BTreeMap<u32, &'p FunDef>, NoMemory>
    ensures { IfOk result (λ map. FindsPlaced map (shown functions.now)) }
{
    let mut map = BTreeMap::new(alloc);
    for i in (0..functions.len()).rev() {
        let function = functions[i];
        map.insert(function.name.at.start, function)?;
    }
    Ok(map)
}

/// The lambdas by their places with the names that they capture, the first where a place comes twice.
fn indexed<'p>(
    alloc: Global,
    found: &[(u32, &'p LambdaExpr)],
) -> Result<BTreeMap<u32, IndexedLambda<'p>>, NoMemory>
    ensures { IfOk result (λ map. FindsLambdas map (seen found.now)) }
{
    let mut map = BTreeMap::new(alloc);
    for i in (0..found.len()).rev() {
        let placed = &found[i];
        let lambda = placed.1;
        let names = captured(alloc, lambda)?;
        // The one that stood there, if any, comes later in the text.
        drop(map.insert(placed.0, IndexedLambda { lambda, names })?);
    }
    Ok(map)
}
