//! The law of translations.

ghost use Rattle.lk_translate.specs.Law.{AnswerLaw, ChangeLaw, GoodLaw, TranslationLaw};

use lk_inline::inline_laws;
use lk_norm::normal_form_laws;
use lk_sites::sites_laws;

/// The laws for those who let a database answer queries and change tables, as facts. A call does nothing.
///
/// Where the names of a program are bound and its instances are a closed set, the SQL of a query or of a reading may be
/// answered, over tables that fit and for all values of what it captures, with just what is the bag of the reading, sorted by its
/// keys (`answers`); the SQL of an update or a deletion changes the rows that the program changes, to what it makes of them, whatever
/// rows its tables have (`changes`); and the SQL is well formed, that of a query where each table of the program has a column
/// (`good`). All this holds for all values of what the site captures, and what a session captures is such at one of the sites of
/// that query, update or deletion (`session` of `inline_laws`). It is said of sites where the labels of records stand in order in
/// the types from there on and, of changes and of good SQL, in those of helpers. In a ground program they do, so that all that
/// `translate` makes of it is so (`translated`).
pub fn translate_laws()
    ensures answers { AnswerLaw }
    ensures changes { ChangeLaw }
    ensures good { GoodLaw }
    ensures translated { TranslationLaw }
{
    sites_laws();
    inline_laws();
    normal_form_laws();
}
