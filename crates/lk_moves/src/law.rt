//! The laws of stretches.

ghost use Rattle.lk_evaluation.specs.Laws.{OfPrograms};
ghost use Rattle.lk_moves.specs.Laws.{EqualLaw, FollowedLaw, FramesLaw, LaterLaw, MovesLaw, WholeFollowedLaw};

/// The laws of stretches of evaluation, those of a language said of the language of programs, as facts. A call does nothing. The
/// lemmas in `proofs/` say them of every language.
///
/// `equal`: outcomes that match by equality are equal.
///
/// `followed`: one stretch and then another are a stretch.
///
/// `whole_followed`: so are two of whole evaluations.
///
/// `framed`: a stretch stays one under waiting frames, the frames of two stacks do what those of one stack after those of the other
/// do, and what ends an evaluation passes all frames.
///
/// `moves`: what an evaluation does next is a stretch, or the same evaluation said of its frames: it enters a point, acts, or goes on
/// with a part or with one of several bodies while a frame waits. A call of a function of the other place is logged, and a frame
/// takes its value back. What begins a step later is behind a stretch of one step.
///
/// `later`: an evaluation only adds to the log, with numbers that never fall, from the steps at which it began to those at which
/// it ends; so does what frames do.
pub fn moves_laws()
    ensures equal { EqualLaw }
    ensures followed { FollowedLaw }
    ensures whole_followed { WholeFollowedLaw }
    ensures framed { OfPrograms FramesLaw }
    ensures moves { OfPrograms MovesLaw }
    ensures later { OfPrograms LaterLaw }
{}
