//! Tables of words and signs.

ghost use Rattle.lk_read.specs.Keywords.{is_keyword};
ghost use Rattle.std.specs.List.{list_any};
ghost use Rattle.std.specs.Prelude.{◌≡◌};
ghost use Rattle.std.specs.Str.{bytes_eq};

/// The words that name nothing.
const KEYWORDS: [&str; 31] = [
    "table",
    "with",
    "sig",
    "fun",
    "mutual",
    "client",
    "server",
    "var",
    "if",
    "else",
    "for",
    "where",
    "switch",
    "case",
    "query",
    "orderby",
    "desc",
    "insert",
    "values",
    "update",
    "set",
    "delete",
    "true",
    "false",
    "mod",
    "print",
    "not",
    "hd",
    "tl",
    "empty",
    "intToString",
];

/// Whether a text is one of a table.
pub fn is_one_of(text: &str, table: &[&str]) -> bool
    ensures { result ≡ list_any (λ entry. bytes_eq text.now entry.now) table.now }
{
    table.iter().any(|entry| text == *entry)
}

/// Whether a word is a keyword.
#[tactic(auto, unfolding(crate::specs::Keywords::is_keyword))]
pub fn is_keyword(word: &str) -> bool
    ensures { result ≡ is_keyword word.now }
{
    is_one_of(word, &KEYWORDS)
}
