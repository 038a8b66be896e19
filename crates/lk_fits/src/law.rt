//! The laws of values and their types.

ghost use Rattle.lk_fits.specs.Law.{LevelsLaw, LongLaw};

/// The laws of values and their types, said of functions that a table tells of, as facts. A call does nothing. The lemmas in
/// `proofs/` say them of any notion of a function.
///
/// `levels`: a value is of a type just where it is what a value of such a type is, one level deep.
///
/// `long`: values that are of types one by one are as many as these.
pub fn fits_laws()
    ensures levels { LevelsLaw }
    ensures long { LongLaw }
{}
