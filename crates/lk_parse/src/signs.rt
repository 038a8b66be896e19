//! Signs.

ghost use Rattle.lk_parse.specs.Scanner.{sign_in_front};
ghost use Rattle.std.specs.Option.{option_copied};
ghost use Rattle.std.specs.List.{starts_with};
ghost use Rattle.std.specs.Prelude.{◌≡◌, find, map, nat_eq};

/// Longer signs stand before shorter ones, so that the first one found is the longest.
const SIGNS: [&str; 32] = [
    "<--", "[|", "|]", "::", "==", "<>", "<=", ">=", "<-", "->", "++", "^^", "&&", "||", "(", ")",
    "{", "}", "[", "]", ",", ";", ":", "=", "<", ">", "+", "-", "*", "/", "|", ".",
];

/// The first text of a table that stands in front.
fn first_in_front<'a>(bytes: &[u8], table: &[&'a str]) -> Option<&'a str>
    ensures { option_copied result ≡ find (starts_with nat_eq bytes.now) (map (λ entry. entry.now) table.now) }
{
    table
        .iter()
        .find(|entry| bytes.starts_with(entry.as_bytes()))
        .copied()
}

/// The longest sign in front.
#[tactic(auto, unfolding(crate::specs::Scanner::sign_in_front))]
pub fn sign_in_front(bytes: &[u8]) -> Option<&'static str>
    ensures { option_copied result ≡ sign_in_front bytes.now }
{
    first_in_front(bytes, &SIGNS)
}
