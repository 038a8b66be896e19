//! The laws of the normal form.

ghost use Rattle.lk_norm.specs.Law.{ChangeLaw, ChangeOverLaw, ConditionLaw, CountLaw, GoodChangeLaw, GoodLaw, NormalFormLaw, PermutedLaw, SetsLaw};

/// The laws for those who make queries of normal forms, as facts. A call does nothing.
///
/// `normal`: over any tables the selects of a query's normal form give the rows that the query gives, each as often, where
/// the captured values are those of the parameters. Nothing is asked of the parts, of the tables or of the parameters.
///
/// `permuted`: so the rows of the query's SQL are a permutation of those that it gives.
///
/// `counted`: the normal form of a part has as many branches as are counted without making it.
///
/// `good` and `good_change`: the SQL of a query or of a change is well formed, where each of its parts gives a thing of its
/// kind.
///
/// `condition`, `sets`, `changed` and `changed_over`: the SQL of a change makes of a row with the columns of its table what the
/// change does.
pub fn normal_form_laws()
    ensures normal { NormalFormLaw }
    ensures permuted { PermutedLaw }
    ensures counted { CountLaw }
    ensures good { GoodLaw }
    ensures good_change { GoodChangeLaw }
    ensures condition { ConditionLaw }
    ensures sets { SetsLaw }
    ensures changed { ChangeLaw }
    ensures changed_over { ChangeOverLaw }
{}
