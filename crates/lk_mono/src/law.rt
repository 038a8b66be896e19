//! The laws of refusals of ground programs.

ghost use Rattle.lk_mono.specs.Law.{GroundedLaw, RefusedLaw};

use lk_outline::outline_laws;

/// The laws for those who are told that a program has no ground program, as facts. A call does nothing. The program's names are
/// bound.
///
/// `refused`: there is one reason at the most, with one kind and one place.
///
/// `grounded`: there is none where the program has a ground program.
pub fn refusal_laws()
    ensures refused { RefusedLaw }
    ensures grounded { GroundedLaw }
{
    outline_laws();
}
