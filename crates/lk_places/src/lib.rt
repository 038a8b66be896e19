//! That a place in a program's text says which function, which lambda, which use of a function, or which query, reading of a
//! table or change is meant; and that its tables have columns.
#![tactic(auto)]

ghost use Rattle.lk_places.specs.Law.{BlocksLaw, ColumnsLaw, MarksLaw, PlacesLaw, UsesLaw};

/// Facts for those who need a place to say what is meant, or a table to have columns. A call does nothing.
///
/// `apart`: in a program that a text stands for, the names of functions and the lambdas begin each at a place of its own.
///
/// `uses`: in such a program, the uses of functions in the body of a function begin each at a place of its own.
///
/// `blocks`: in such a program, the queries, readings of tables and changes in all bodies begin each at a place of its own.
///
/// `marks`: in such a program, these and the lambdas together begin each at a place of its own.
///
/// `columns`: in such a program, each table has a column.
pub fn places_law()
    ensures apart { PlacesLaw }
    ensures uses { UsesLaw }
    ensures blocks { BlocksLaw }
    ensures marks { MarksLaw }
    ensures columns { ColumnsLaw }
{}
