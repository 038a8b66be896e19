//! The laws of outlines.

ghost use Rattle.lk_outline.specs.Law.{LengthLaw, OutlineLaw};

/// The laws for those who look at nodes of typed bodies, as facts. A call does nothing.
///
/// `outlined`: the nodes of a typed body are those of its outline with the types of its nodes.
///
/// `length`: a typed body has as many nodes as its outline.
pub fn outline_laws()
    ensures outlined { OutlineLaw }
    ensures length { LengthLaw }
{}
