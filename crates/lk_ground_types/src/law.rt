//! The laws of what types become.

ghost use Rattle.lk_ground_types.specs.Law.{AgreeLaw, EmptiedLaw, ExistsLaw};

/// The laws of what types become, as facts. A call does nothing.
///
/// `agree`: where the same stands for its variables, a type becomes the same.
///
/// `emptied`: where the least stands for all but some variables, each type becomes something that became something before.
///
/// `exists`: the least can stand for all but some variables.
pub fn ground_type_laws()
    ensures agree { AgreeLaw }
    ensures emptied { EmptiedLaw }
    ensures exists { ExistsLaw }
{}
