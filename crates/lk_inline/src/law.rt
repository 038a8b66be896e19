//! The laws of inlining.

ghost use Rattle.lk_inline.specs.Law.{BlockLaw, CapturedLaw, KindsLaw, SessionCapturedLaw, TypesLaw};

/// The laws of inlining for those who inline blocks of a program, as facts. A call does nothing.
///
/// `blocks`: where the names of a program are bound and its instances are a closed set, what is inlined at a site keeps the
/// meaning that the text has there. The parts of a query, and of a reading of a table, give its rows over tables that fit; those
/// of an update or a deletion say which rows change, and what becomes of them. All this holds for all values of what the block
/// captures, if the types of the nodes from the block on have their labels in order, those of records and those of lists of them.
///
/// `captured`: wherever the local names of the block have values of their types, the values that it captures are such, and with
/// them the program's evaluation reads or writes tables there.
///
/// `session`: in each session they have. What a query, an update or a deletion captured where a session has read or written by it
/// is of the kinds that are told of one of the sites, which is that query, update or deletion in an instance.
///
/// `kinds`: each part that is inlined there gives a thing of its kind, so that SQL can say it, and those of an update or a
/// deletion read no table, if the types in helpers have their labels in order, too. Of a query it is said where each table of the
/// program has a column.
///
/// `types`: in the functions and the helpers of a ground program all types have them in order.
pub fn inline_laws()
    ensures blocks { BlockLaw }
    ensures captured { CapturedLaw }
    ensures session { SessionCapturedLaw }
    ensures kinds { KindsLaw }
    ensures types { TypesLaw }
{}
