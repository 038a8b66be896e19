//! The laws of what numbers stand for.

ghost use Rattle.lk_code.specs.Law.{FramesLaw, LaterLaw, ResumesLaw, StacksLaw, TurnsLaw};
ghost use Rattle.lk_code.specs.TypedLaw.{CallsLaw, HoldsLaw, NodesLaw, ReachesLaw, StaysLaw, TypedActsLaw, TypedChainsLaw, TypedFramesLaw, TypedPointsLaw, WholeLaw};

/// The laws of what labels and frames stand for, as facts. A call does nothing.
///
/// `later`: what a label does, and what frames do with a value, only adds to the log, with numbers that never fall.
///
/// `frames`: frames behind others go on where those end.
///
/// `stacks`: frames do what the waiting parts of an evaluation do that they stand for.
///
/// `resumes`: the rest of a frame goes on where that part of its node has its value.
///
/// `turns`: the rest of a frame at the body of a `for` goes on with the elements left.
pub fn meaning_laws()
    ensures later { LaterLaw }
    ensures frames { FramesLaw }
    ensures stacks { StacksLaw }
    ensures resumes { ResumesLaw }
    ensures turns { TurnsLaw }
{}

/// The laws of typed nodes, as facts. A call does nothing. The lemmas in `proofs/` say them of any notion of a function that agrees
/// with what is told of labels.
///
/// `whole`: sound code that runs at both places has the bodies of all functions, which the other clauses ask for.
///
/// `acts`: a typed node, from values of the types of its positions and under names that have values of theirs, never lacks a rule; what
/// it gives is of its type, and what it goes on with is typed at it.
///
/// `reaches`: a node that reads or changes tables does what its label does, with values of the types of its parameters.
///
/// `calls`: what a call enters does what its label does with what is kept and what is passed.
///
/// `points`: what `acts` says holds of a point with the names that continuations keep, and its positions are typed points.
///
/// `frames`: the frame of a continuation, with values of the types told of it, goes on from a value of the type that it waits for with what
/// is of its result's type.
///
/// `holds`: a frame that is made at a typed node holds values of the types told of it.
///
/// `chains`: frames that wait for a value of a type go on with one another up to a return, and come to the result of its label.
///
/// `nodes`: the frame of a position, with values of the types told of it, is of a typed node whose names have what is used behind it.
///
/// `stays`: where an act goes on with a node or with several, they are tails of its own.
pub fn sound_laws()
    ensures whole { WholeLaw }
    ensures acts { TypedActsLaw }
    ensures reaches { ReachesLaw }
    ensures calls { CallsLaw }
    ensures points { TypedPointsLaw }
    ensures frames { TypedFramesLaw }
    ensures holds { HoldsLaw }
    ensures chains { TypedChainsLaw }
    ensures nodes { NodesLaw }
    ensures stays { StaysLaw }
{}
