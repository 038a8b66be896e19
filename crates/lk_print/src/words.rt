//! Parameters, marks and keys.

ghost use Rattle.lk_ast.specs.declared.token.TokenKind.TheVariants.{Sign};
ghost use Rattle.lk_print.specs.Printed.{names, name_kind, place, separated, key, order, case_name, in_round};
ghost use Rattle.lk_print.specs.Signs.{binder};
ghost use Rattle.lk_print.specs.Written.{spaced, after_comma};
ghost use Rattle.std.specs.Option.{option_copied};
ghost use Rattle.std.specs.Prelude.{◌≡◌, ◌++◌, ◌∷◌, [], OnOk, flat_map, map, codes};

use crate::token::{write_name, write_sign, write_word};
use lk_ast::{Loc, NoMemory, SortKey, Text, Word};

/// `x, y`.
#[tactic(auto, using(crate::proofs::Appends::behind_both, crate::proofs::Appends::spaced_both, crate::proofs::Appends::spaced_behind))]
pub fn write_names(line: &mut Text, words: &[Word]) -> Result<(), NoMemory>
    ensures { OnOk result (line.new ≡ line.old ++ flat_map spaced (names words.now)) }
{
    if let Some((first, rest)) = words.split_first() {
        write_name(line, first)?;
        more_names(line, rest)?;
    }
    Ok(())
}

#[tactic(auto, using(crate::proofs::Appends::behind_both, crate::proofs::Appends::spaced_both, crate::proofs::Appends::spaced_behind))]
fn more_names(line: &mut Text, words: &[Word]) -> Result<(), NoMemory>
    ensures { OnOk result (line.new ≡ line.old ++ flat_map (λ x. after_comma (name_kind x ∷ [])) words.now) }
{
    for name in words {
        write_sign(line, ",")?;
        write_name(line, name)?;
    }
    Ok(())
}

/// `var x =`, where a statement binds a name.
#[tactic(auto, using(crate::proofs::Appends::behind_both, crate::proofs::Appends::spaced_both, crate::proofs::Appends::spaced_behind))]
pub fn write_binder(line: &mut Text, name: Option<&Word>) -> Result<(), NoMemory>
    ensures { OnOk result (line.new ≡ line.old ++ flat_map spaced (binder (option_copied name.entry))) }
{
    match name {
        None => Ok(()),
        Some(name) => {
            write_word(line, "var")?;
            write_name(line, name)?;
            write_sign(line, "=")
        }
    }
}

/// The mark of a function, where it has one.
#[tactic(auto, using(crate::proofs::Appends::behind_both, crate::proofs::Appends::spaced_both, crate::proofs::Appends::spaced_behind))]
pub fn write_place(line: &mut Text, mark: Loc) -> Result<(), NoMemory>
    ensures { OnOk result (line.new ≡ line.old ++ flat_map spaced (place mark)) }
{
    match mark {
        Loc::Any => Ok(()),
        Loc::Client => write_word(line, "client"),
        Loc::Server => write_word(line, "server"),
    }
}

/// Nothing, or `orderby (l, m desc)`.
#[tactic(auto, using(crate::proofs::Appends::behind_both, crate::proofs::Appends::spaced_both, crate::proofs::Appends::spaced_behind))]
pub fn write_order(line: &mut Text, keys: &[SortKey]) -> Result<(), NoMemory>
    ensures { OnOk result (line.new ≡ line.old ++ flat_map spaced (order keys.now)) }
{
    match keys.split_first() {
        None => Ok(()),
        Some((first, rest)) => {
            write_word(line, "orderby")?;
            write_sign(line, "(")?;
            write_keys(line, first, rest)?;
            write_sign(line, ")")
        }
    }
}

#[tactic(auto, using(crate::proofs::Appends::behind_both, crate::proofs::Appends::spaced_both, crate::proofs::Appends::spaced_behind))]
fn write_keys(line: &mut Text, first: &SortKey, rest: &[SortKey]) -> Result<(), NoMemory>
    ensures { OnOk result (line.new ≡ line.old ++ flat_map spaced (separated (map key (first.now ∷ rest.now)))) }
{
    write_key(line, first)?;
    more_keys(line, rest)
}

#[tactic(auto, using(crate::proofs::Appends::behind_both, crate::proofs::Appends::spaced_both, crate::proofs::Appends::spaced_behind))]
fn more_keys(line: &mut Text, keys: &[SortKey]) -> Result<(), NoMemory>
    ensures { OnOk result (line.new ≡ line.old ++ flat_map (λ k. after_comma (key k)) keys.now) }
{
    for key in keys {
        write_sign(line, ",")?;
        write_key(line, key)?;
    }
    Ok(())
}

#[tactic(auto, using(crate::proofs::Appends::behind_both, crate::proofs::Appends::spaced_both, crate::proofs::Appends::spaced_behind))]
fn write_key(line: &mut Text, sort: &SortKey) -> Result<(), NoMemory>
    ensures { OnOk result (line.new ≡ line.old ++ flat_map spaced (key sort.now)) }
{
    write_name(line, &sort.label)?;
    if sort.desc {
        write_word(line, "desc")
    } else {
        Ok(())
    }
}

/// `(x)`, where a case has a name.
#[tactic(auto, using(crate::proofs::Appends::behind_both, crate::proofs::Appends::spaced_both, crate::proofs::Appends::spaced_behind))]
pub fn write_case_name(line: &mut Text, name: Option<&Word>) -> Result<(), NoMemory>
    ensures { OnOk result (line.new ≡ line.old ++ flat_map spaced (case_name (option_copied name.entry))) }
{
    match name {
        None => Ok(()),
        Some(name) => {
            write_sign(line, "(")?;
            write_name(line, name)?;
            write_sign(line, ")")
        }
    }
}

/// `(x <-- t)`.
#[tactic(auto, using(crate::proofs::Appends::behind_both, crate::proofs::Appends::spaced_both, crate::proofs::Appends::spaced_behind))]
pub fn write_source(line: &mut Text, name: &Word, table: &Word) -> Result<(), NoMemory>
    ensures { OnOk result (line.new ≡ line.old ++ flat_map spaced (in_round (name_kind name.now ∷ Sign (codes "<--") ∷ name_kind table.now ∷ []))) }
{
    write_sign(line, "(")?;
    write_name(line, name)?;
    write_sign(line, "<--")?;
    write_name(line, table)?;
    write_sign(line, ")")
}
