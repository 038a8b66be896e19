//! The law of queries.

ghost use Rattle.lk_queries.specs.Changes.{ChangesLaw};
ghost use Rattle.lk_queries.specs.Database.{DatabaseLaw};
ghost use Rattle.lk_queries.specs.Executed.{ExecutedLaw};
ghost use Rattle.lk_queries.specs.Keys.{AnswersLaw};
ghost use Rattle.lk_queries.specs.Law.{InPlaceLaw, QueryLaw};
ghost use Rattle.lk_queries.specs.Order.{AnyOrderLaw, EnoughLaw, ListedLaw, OrderLaw};

use lk_inline::inline_laws;
use lk_sites::sites_laws;
use lk_translate::translate_laws;

/// The laws for those who ask what a query means, as facts. A call does nothing.
///
/// `gives`: an expression of which a query may consist, evaluated at the server where each of its readings is answered by the
/// rows that the tables list, comes to just what it gives over these tables in a query, uses these answers and no others and logs
/// nothing else; with less fuel than it takes it is spent.
///
/// `in_place`: so it is with the body of each query that a program comes to, evaluated where the query stands: it comes to the rows
/// that the query has over these tables, with what it captures there.
///
/// `order`, `any_order`: the same where each reading is answered legally, in any order: what the evaluation comes to, and what the
/// query is answered with, are then the same but for the order of rows.
///
/// `answers`: so what the body comes to tells the query's answers: just these rows, in any order that its keys allow.
///
/// `enough`: and some fuel is enough, whatever the order.
///
/// `listed`: what is given over tables whose rows are listed in another order is the same but for its own order.
///
/// `changes`: the conditions and the new values of updates and deletions, evaluated where these stand for a row of their table, come to
/// what they are taken for, and read nothing.
///
/// `database`: what a database may answer to the SQL of a query is what the body of the query comes to in its place, in any order that
/// its keys allow.
///
/// `executed`: what the executor answers to that SQL, over the tables as it has scanned them, is what the query may be answered with in a
/// legal history.
pub fn query_laws()
    ensures gives { QueryLaw }
    ensures in_place { InPlaceLaw }
    ensures order { OrderLaw }
    ensures any_order { AnyOrderLaw }
    ensures answers { AnswersLaw }
    ensures enough { EnoughLaw }
    ensures listed { ListedLaw }
    ensures changes { ChangesLaw }
    ensures database { DatabaseLaw }
    ensures executed { ExecutedLaw }
{
    sites_laws();
    inline_laws();
    translate_laws();
}
