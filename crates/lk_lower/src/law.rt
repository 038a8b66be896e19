//! The laws of lowering's tables.

ghost use Rattle.lk_lower.specs.Law.{BlocksLaw, CoveredLaw, InstancesLaw, TakenLaw};

/// The laws for those who go through the table of a ground program, as facts. A call does nothing. What such a table means is said by
/// the laws of `lk_lowered`.
///
/// `covered`: each node of such a table is that of an expression of the program, and the numbers of a node's children are above its
/// own.
///
/// `taken`: an expression takes of what is to come in its instance a type for each of its nodes, what is called for each of its uses,
/// and a label for all that is labelled in it, also for what stands in a query, an update or a deletion, which has no nodes and no
/// labels.
///
/// `instances`: the table has as many instances as the program, by their names, and the body of each runs where its function is
/// marked to.
///
/// `blocks`: what reads or changes tables has a label that tells its instance, its node and its type, captures names with the types of
/// their first uses, and is told of by the table that it changes.
pub fn lower_laws()
    ensures covered { CoveredLaw }
    ensures taken { TakenLaw }
    ensures instances { InstancesLaw }
    ensures blocks { BlocksLaw }
{}
