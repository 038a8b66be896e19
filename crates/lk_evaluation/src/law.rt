//! The laws of evaluation.

ghost use Rattle.lk_evaluation.specs.Laws.{BoundedLaw, EnteredLaw, GrowsLaw, OfPrograms, RicherLaw, ShiftedLaw};

/// The laws of evaluation, of the language of programs, as facts. A call does nothing. The lemmas in `proofs/` say them of
/// every language.
///
/// `entered`: evaluation enters a point, evaluates its parts, and does what the point does with their values.
///
/// `grows`: the log only grows.
///
/// `richer`: with more fuel, answers or returns an evaluation that has ended with a value, a trap or for want of a rule
/// ends so again, and another one has a longer log.
///
/// `shifted`: an evaluation that begins so many steps later and after some entries is the same, so many steps later and
/// after them.
///
/// `bounded`: an evaluation takes at most eight steps for each unit of fuel that it uses, and eight more.
pub fn evaluation_laws()
    ensures entered { OfPrograms EnteredLaw }
    ensures grows { OfPrograms GrowsLaw }
    ensures richer { OfPrograms RicherLaw }
    ensures shifted { OfPrograms ShiftedLaw }
    ensures bounded { OfPrograms BoundedLaw }
{}
