//! Tests of what no command reaches or shows, on values made by hand: owners and scopes that are shared, the adapters over the
//! system, the store whose calls fail, the limit of queries, the report of a run, and pieces of text that come of no program. All
//! else that is tested is cases, which the programs `cases`, `tree_cases` and `type_cases` judge.
#![tactic(auto)]

#[cfg(test)]
mod locals;
#[cfg(test)]
mod outside;
#[cfg(test)]
mod queries;
#[cfg(test)]
mod reports;
#[cfg(test)]
mod store;
#[cfg(test)]
mod texts;
#[cfg(test)]
mod trees;
