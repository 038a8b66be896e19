//! Words once more.

ghost use Rattle.std.specs.Prelude.{◌≡◌, IfOk};
ghost use Rattle.std.specs.Option.{option_copied};

use crate::expression::SortKey;
use crate::list::List;
use crate::memory::NoMemory;
use crate::place::Word;
use std::alloc::Global;

/// The same word once more.
pub fn copy_word(alloc: Global, word: &Word) -> Result<Word, NoMemory>
    ensures { IfOk result (λ copy. copy ≡ word.now) }
{
    let at = word.at;
    let text = word.text.copy(alloc)?;
    Ok(Word { at, text })
}

/// The same word once more, where there is one.
pub fn copy_some(alloc: Global, word: Option<&Word>) -> Result<Option<Word>, NoMemory>
    ensures { IfOk result (λ copy. copy ≡ option_copied word.entry) }
{
    match word {
        None => Ok(None),
        Some(word) => copy_word(alloc, word).map(Some),
    }
}

/// The same words once more.
pub fn copy_words(alloc: Global, words: &[Word]) -> Result<List<Word>, NoMemory>
    ensures { IfOk result (λ copy. copy ≡ words.now) }
{
    let mut copies = List::new(alloc);
    for word in words {
        copies.push(copy_word(alloc, word)?)?;
    }
    Ok(copies)
}

/// The same keys once more.
pub fn copy_keys(alloc: Global, keys: &[SortKey]) -> Result<List<SortKey>, NoMemory>
    ensures { IfOk result (λ copy. copy ≡ keys.now) }
{
    let mut copies = List::new(alloc);
    for key in keys {
        let label = copy_word(alloc, &key.label)?;
        let desc = key.desc;
        copies.push(SortKey { label, desc })?;
    }
    Ok(copies)
}
