//! Numbers of a schedule.

ghost use Rattle.std.specs.Prelude.{◌≡◌, ◌<◌, get_or};
ghost use Rattle.lk_join.specs.Schedule.{count_of, number_of, session_of};

/// The most steps or bytes of a line.
const MOST_COUNT: u64 = 1_000_000_000;

/// The number that begins with a zero.
const ZERO: &[u8] = b"0";

/// How many steps or bytes a word says.
pub fn count_of(word: &[u8]) -> Option<u64>
    ensures { result ≡ count_of word.now }
{
    number_of(word, MOST_COUNT)
}

/// The number of a session, of which there are so many.
pub fn session_of(word: &[u8], sessions: u32) -> Option<u32>
    ensures { result ≡ session_of sessions word.now }
{
    let number = number_of(word, u64::from(sessions))?;
    if 0 < number {
        Some(number as u32)
    } else {
        None
    }
}

/// The number of a word, where it has one up to the most.
fn number_of(word: &[u8], most: u64) -> Option<u64>
    ensures { result ≡ number_of most word.now }
{
    if word == ZERO {
        return Some(0);
    }
    // No other number begins with a zero or a sign, which come before the other digits.
    let first = *word.first()?;
    if first <= b'0' {
        return None;
    }
    positive(word, most)
}

/// The number of a word that doesn't begin with a sign or a zero.
fn positive(word: &[u8], most: u64) -> Option<u64>
    requires first { 48 < get_or word.now 0 0 }
    ensures { result ≡ number_of most word.now }
{
    let Ok(text) = str::from_utf8(word) else {
        return None;
    };
    match text.parse::<u64>() {
        Ok(number) if number <= most => Some(number),
        Ok(_) => None,
        Err(_) => None,
    }
}
