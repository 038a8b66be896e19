//! The laws of continuations.

ghost use Rattle.lk_ir.specs.Law.{ContinuesLaw, HasContsLaw, HiddenLaw, KeptLaw, ResumesLaw, TurnsLaw};

/// The laws for those who make continuations, and for those who run them, as facts. A call does nothing.
///
/// `continues`: where each continuation keeps just the names that are used behind its position, the form with continuations does
/// what the form without them does: the same end, log, fuel and steps.
///
/// `resumes`: a frame at a position with a continuation goes on alike from all names of a point that was just entered and from those
/// alone that the continuation keeps.
///
/// `turns`: so does a node behind all its positions where its body has a continuation, as that of a `for`.
///
/// `hidden`: a name that a node's only tail binds isn't used by that tail from outside.
///
/// `has_conts`: each position that isn't plain has a continuation, and so has the body of a `for`.
///
/// `kept`: the names that a continuation keeps have their values again where the kept values are bound to them anew.
pub fn ir_laws()
    ensures continues { ContinuesLaw }
    ensures resumes { ResumesLaw }
    ensures turns { TurnsLaw }
    ensures hidden { HiddenLaw }
    ensures has_conts { HasContsLaw }
    ensures kept { KeptLaw }
{}
