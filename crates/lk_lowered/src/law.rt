//! The laws of lowering.

ghost use Rattle.lk_lowered.specs.Law.{BeginsLaw, EntersLaw, LowersLaw, SessionsLaw, SitedLaw, StandsLaw};
ghost use Rattle.lk_lowered.specs.Typing.{CapturedLaw, TypedLaw};

/// The laws for those who lower programs, as facts. A call does nothing.
///
/// `stands`: each node of the table of a ground program stands in an instance or a lambda that has a body.
///
/// `lowers`: the table of a ground program, in whose text uses, lambdas and what acts on tables begin at places apart, does step by
/// step what the program does: each node beside the expression that was lowered to it, under names with the same values.
///
/// `begins`: so stand the body of label 1, which is there, and that of the first instance, their parameters bound to an argument.
///
/// `session_same`: so a session of the table is the session of the ground program.
///
/// `enters`: and where the ground program calls a function value, it goes to what the body of the value's label is in the table: at the
/// same place, with what the value keeps and then what is passed, both do the same.
///
/// `captured`: in the table of a ground program of typed instances, each lambda uses all that it captures.
///
/// `typed`: with continuations that keep what is used behind them, each name with the type of a use, that table is typed by what it tells
/// itself of its labels: each body and each node has a rule.
///
/// `sites`: where each instance is one of a function of the program, the queries, readings of tables, updates and deletions in that table
/// are the ground program's sites, label by label: each is what the block of the site with its label was lowered to.
pub fn lowered_laws()
    ensures stands { StandsLaw }
    ensures lowers { LowersLaw }
    ensures begins { BeginsLaw }
    ensures session_same { SessionsLaw }
    ensures enters { EntersLaw }
    ensures captured { CapturedLaw }
    ensures typed { TypedLaw }
    ensures sites { SitedLaw }
{}
