//! The laws of functions with principal schemes.

ghost use Rattle.lk_principal.specs.Law.{BodyLaw, LeastLaw, SchemesLaw, UseLaw};

use lk_ground_types::ground_type_laws;
use lk_outline::outline_laws;

/// The laws for those who make instances of functions, as facts. A call does nothing. The program has these principal schemes
/// and types.
///
/// `schemes`: each function of the program has a scheme.
///
/// `least`: it has an instance in which the least stands for all variables.
///
/// `body`: at each instance a function is typed with the principal types of its nodes, and with the least for the variables
/// of which its type says nothing.
///
/// `used`: what a typed function uses is an instance of the scheme of the function of that name, which stands before it where
/// the one isn't taken as one that may call itself.
pub fn principal_laws()
    ensures schemes { SchemesLaw }
    ensures least { LeastLaw }
    ensures body { BodyLaw }
    ensures used { UseLaw }
{
    ground_type_laws();
    outline_laws();
}
