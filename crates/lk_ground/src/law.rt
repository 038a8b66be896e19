//! The law of instances.

ghost use Rattle.lk_ground.specs.Law.{InstancesLaw};

/// The law for those who make ground programs, as a fact. A call does nothing.
///
/// `instances`: where the functions and lambdas of a program begin at places of their own, and each instance is one of a
/// function of the program whose uses call instances of the functions that they name, a session of the ground program over any
/// answers comes to the same end as that of the program, with the same fuel and steps, and with values and events that are the
/// same but for what function values hold.
pub fn ground_laws()
    ensures instances { InstancesLaw }
{}
