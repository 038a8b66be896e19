//! Programs whose names are bound.

ghost use Rattle.lk_ast.specs.Functions.{main_of};
ghost use Rattle.lk_names.specs.Programs.{IsBound};
ghost use Rattle.std.specs.Prelude.{◌≡◌, IsSome};

use lk_ast::Program;
use std::marker::Model;

/// A program whose names are bound, each seen where it is used and none there twice, and in which a session can begin.
#[derive(Drop)]
pub struct Scoped {
    program: Program,
}

impl Model for Scoped {
    ghost use Rattle.lk_ast.specs.contracts.expression.Expr as e;
    ghost use Rattle.lk_ast.specs.contracts.signature.SigType as ty;
    ghost use Rattle.lk_ast.specs.declared.declaration.Program.{Program as TheProgram};
    ghost use Rattle.lk_names.specs.Programs.{IsBound};
    ghost use Rattle.std.specs.Coded.{codes};

    ghost Value = { TheProgram };

    ghost coded = { Prim.hlevel (codes, e.the_row.coded, ty.the_row.coded) };

    ghost view = { λ scoped. scoped.program };

    ghost invariant = { λ scoped. IsBound scoped.program };
}

impl Scoped {
    /// A program whose names are bound.
    pub fn new(program: Program) -> Scoped
        requires { IsBound program }
        ensures { result ≡ program }
    {
        Scoped { program }
    }

    /// The program.
    pub fn program(&self) -> &Program
        ensures same { result.now ≡ self.now }
        ensures bound { IsBound result.now }
        ensures begins { IsSome (main_of result.now) }
    {
        &self.program
    }

    /// The program by value.
    pub fn into_program(self) -> Program
        ensures same { result ≡ self }
        ensures bound { IsBound result }
        ensures begins { IsSome (main_of result) }
    {
        let Scoped { program } = self;
        program
    }
}
