ghost use Rattle.lk_ast.specs.Texts.{bytes_of};
ghost use Rattle.std.specs.Cmp.{partial_equiv_from_equiv};
ghost use Rattle.std.specs.Cmp.Lexicographic.{nat_list_cmp_total, nat_list_eq_equiv, slice_cmp, texts_po, texts_ties};
ghost use Rattle.std.specs.Ordering.{nat_cmp};
ghost use Rattle.std.specs.Prelude.{◌≡◌, [], ◌++◌, length, bytes_eq, IsTrue, ◌↔◌, IfOk, OnOk, OnErr, Some, refl, string_bytes};

use crate::memory::NoMemory;
use crate::shared::Shared;
use std::alloc::Global;
use std::cmp::Ordering;
use std::fmt;
use std::marker::Model;

/// A text, which contracts see as the list of its bytes in UTF-8. Copies of a text that was made of a `&str` share its bytes.
pub struct Text {
    bytes: TextBytes,
}

/// The bytes of a text: its own, which may grow, or those that it shares with its copies.
enum TextBytes {
    Own(String),
    Shared(Shared<String>),
}

impl Drop for Text {
    fn drop(self) {
        let Self { bytes: _ } = self;
    }
}

impl Drop for TextBytes {
    fn drop(self) {
        match self {
            Self::Own(_) => {}
            Self::Shared(_) => {}
        }
    }
}

impl Model for Text {
    ghost use Rattle.lk_ast.specs.Texts.{bytes_of};
    ghost use Rattle.std.specs.Prelude.{List, ℕ};

    ghost Value = { List ℕ };

    ghost view = { λ text. bytes_of text.bytes };
}

impl PartialEq for Text {
    ghost eq = { bytes_eq };

    ghost laws = { partial_equiv_from_equiv nat_list_eq_equiv };

    fn eq(&self, other: &Text) -> bool {
        self.as_str() == other.as_str()
    }
}

impl Eq for Text {
    ghost laws = { nat_list_eq_equiv };
}

impl PartialOrd for Text {
    ghost partial_cmp = { λ a b. Some (slice_cmp nat_cmp a b) };

    ghost laws = { texts_po };

    fn partial_cmp(&self, other: &Text) -> Option<Ordering> {
        Some(self.cmp(other))
    }
}

/// Texts are in the order of their bytes.
impl Ord for Text {
    ghost cmp = { slice_cmp nat_cmp };

    ghost total = { nat_list_cmp_total };

    ghost matches_partial_cmp = { λ a b. refl };

    ghost matches_eq = { texts_ties };

    fn cmp(&self, other: &Text) -> Ordering {
        self.as_str().cmp(other.as_str())
    }
}

impl fmt::Debug for Text {
    fn fmt<W: fmt::Write>(&self, f: &mut fmt::Formatter<W>) -> fmt::Result {
        fmt::Debug::fmt(self.as_str(), f)
    }
}

impl Text {
    /// The empty text, which takes no memory.
    pub fn new(alloc: Global) -> Text
        ensures { result ≡ [] }
    {
        Text::from_string(String::new(alloc))
    }

    /// A copy of a `&str`.
    pub fn from_str(alloc: Global, text: &str) -> Result<Text, NoMemory>
        ensures { IfOk result (λ made. made ≡ text.now) }
    {
        let text = String::from_str(alloc, text)?;
        Ok(Text {
            bytes: TextBytes::Shared(Shared::new(alloc, text)?),
        })
    }

    /// The text of a `String`.
    pub fn from_string(text: String) -> Text
        ensures { result ≡ string_bytes text }
    {
        Text {
            bytes: TextBytes::Own(text),
        }
    }

    /// The text as a `&str`.
    pub fn as_str(&self) -> &str
        ensures { result.now ≡ self.now }
    {
        match &self.bytes {
            TextBytes::Own(text) => text.as_str(),
            TextBytes::Shared(text) => text.get().as_str(),
        }
    }

    /// How many bytes it has.
    pub fn len(&self) -> usize
        ensures { result ≡ length self.now }
    {
        self.as_str().len()
    }

    /// Whether it has no byte.
    pub fn is_empty(&self) -> bool
        ensures { IsTrue result ↔ (self.now ≡ []) }
    {
        self.as_str().is_empty()
    }

    /// Adds a piece at the end, or is refused for want of memory and stays as it was.
    pub fn push(&mut self, piece: &str) -> Result<(), NoMemory>
        ensures ok { OnOk result (self.new ≡ self.old ++ piece.now) }
        ensures err { OnErr result (self.new ≡ self.old) }
    {
        match &mut self.bytes {
            TextBytes::Own(text) => {
                text.push_str(piece)?;
            }
            TextBytes::Shared(text) => {
                let grown = joined(text.get(), piece)?;
                self.bytes = TextBytes::Own(grown);
            }
        }
        Ok(())
    }

    /// Whether both are the same text.
    pub fn equals(&self, other: &Text) -> bool
        ensures same { IsTrue result ↔ (self.now ≡ other.now) }
        ensures test { result ≡ bytes_eq self.now other.now }
    {
        self.as_str() == other.as_str()
    }

    /// The same text once more.
    pub fn copy(&self, alloc: Global) -> Result<Text, NoMemory>
        ensures { IfOk result (λ copy. copy ≡ self.now) }
    {
        match &self.bytes {
            TextBytes::Own(text) => Text::from_str(alloc, text.as_str()),
            TextBytes::Shared(text) => Ok(Text {
                bytes: TextBytes::Shared(text.share()?),
            }),
        }
    }
}

/// A text and a piece behind it.
fn joined(text: &String, piece: &str) -> Result<String, NoMemory>
    ensures { IfOk result (λ joined. string_bytes joined ≡ string_bytes text.now ++ piece.now) }
{
    let mut joined = String::from_str(*text.allocator(), text.as_str())?;
    joined.push_str(piece)?;
    Ok(joined)
}
