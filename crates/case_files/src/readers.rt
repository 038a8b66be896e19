//! Readers of what stands in a line.

use lk_ast::NoMemory;

/// The first word of a line, and what stands behind the space behind it.
pub fn parted(line: &str) -> (&str, &str) {
    line.split_once(' ').unwrap_or((line, ""))
}

/// Adds numbers that are written with a space between two of them. It tells whether all that stands there is such numbers.
pub fn add_numbers(numbers: &mut Vec<u64>, text: &str) -> Result<bool, NoMemory> {
    for word in text.split(' ') {
        let Ok(number) = word.parse::<u64>() else {
            return Ok(false);
        };
        numbers.push(number)?;
    }
    Ok(true)
}

/// Adds bytes that are written as hexadecimal numbers with a space between two of them. It tells whether all that stands
/// there is such bytes.
pub fn add_bytes(bytes: &mut Vec<u8>, text: &str) -> Result<bool, NoMemory> {
    for word in text.split(' ') {
        let Ok(byte) = u8::from_str_radix(word, 16) else {
            return Ok(false);
        };
        bytes.push(byte)?;
    }
    Ok(true)
}
