//! The laws of sound evaluation.

ghost use Rattle.lk_sound.specs.Law.{InstanceLaw, MainLaw, PlainLaw, PointLaw, SessionLaw};

/// The laws for those who evaluate programs, as facts. A call does nothing. The program's names are bound, and its functions,
/// lambdas and queries begin at places of their own. Functions are used at the instances of a closed set, in which queries are
/// flat, and each reading is answered by rows that its query gives over tables whose rows fit.
///
/// `point`: the evaluation of a point that has a type never lacks a rule; it comes to a value of the type, or stops for a
/// reason that its effects allow, and logs nothing else than they allow. What it reads and writes are readings and writings of
/// the program: a query gives rows over all tables that fit, and a change leaves rows that fit. What a query, an update or a
/// deletion captures there has the types that the instance tells.
///
/// `session`: the same of the evaluation of a session, whose `main` has these effects and this answer.
///
/// `plain`: in a value of a type without functions stands none.
///
/// `main`: the `main` of a well typed program has some effects and an answer.
///
/// `instance`: a function has each type that is an instance of its scheme.
pub fn soundness_laws()
    ensures point { PointLaw }
    ensures session { SessionLaw }
    ensures plain { PlainLaw }
    ensures main { MainLaw }
    ensures instance { InstanceLaw }
{}
