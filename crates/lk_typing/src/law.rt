//! The laws that join the rules, the walk and the schemes.

ghost use Rattle.lk_typing.specs.EffectRows.{EffectsLaw};
ghost use Rattle.lk_typing.specs.Law.{WalkLaw};

/// The laws for those who infer types, as facts. A call does nothing.
///
/// `walk`: the functions of a declaration have types by the rules just where something can stand for the variables of
/// the walk through them so that all that it says holds, and then with the types that the walk's types become.
///
/// `effects`: in a walk all rows of effects with one tail have the same effects before it, and so it rules nothing out
/// that a row has no effect twice. No scheme needs an effect among what a variable lacks.
pub fn typing_laws()
    ensures walk { WalkLaw }
    ensures effects { EffectsLaw }
{}
