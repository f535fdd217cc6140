//! Tables of worked cases as texts: a case a line, its cells parted by ` | `. A line that begins with
//! `#` is a remark. In a cell `\n`, `\r` and `\t` stand for LF, CR and a tab, and `\` with two
//! hexadecimal digits for that byte.
use std::alloc::{AllocError, Global};

/// The cases of a table.
pub fn is_case(line: &str) -> bool {
    !line.is_empty() && !line.starts_with('#')
}

/// Cell number `number` of a case, counted from 0, without the blanks beside its bars.
pub fn cell(case: &str, number: usize) -> &str {
    let Some(cell) = case.split('|').nth(number) else {
        return "";
    };
    let cell = cell.strip_prefix(' ').unwrap_or(cell);
    cell.strip_suffix(' ').unwrap_or(cell)
}

/// The value of a hexadecimal digit.
fn digit(byte: u8) -> u8 {
    match byte {
        b'0'..=b'9' => byte - b'0',
        b'a'..=b'f' => byte - b'a' + 10,
        _ => 0,
    }
}

/// The bytes that a cell stands for.
pub fn bytes_of(alloc: Global, cell: &str) -> Result<Vec<u8>, AllocError> {
    let mut bytes = Vec::new(alloc);
    let mut pieces = cell.split('\\');
    if let Some(front) = pieces.next() {
        bytes.extend_from_slice(front.as_bytes())?;
    }
    for piece in pieces {
        let rest = match piece.as_bytes() {
            [b'n', rest @ ..] => {
                bytes.push(b'\n')?;
                rest
            }
            [b'r', rest @ ..] => {
                bytes.push(b'\r')?;
                rest
            }
            [b't', rest @ ..] => {
                bytes.push(b'\t')?;
                rest
            }
            [high, low, rest @ ..] => {
                bytes.push((digit(*high) << 4) | digit(*low))?;
                rest
            }
            rest => rest,
        };
        bytes.extend_from_slice(rest)?;
    }
    Ok(bytes)
}

/// The words of a cell, parted by single blanks; `''` is the empty word.
pub fn words_of(alloc: Global, cell: &str) -> Result<Vec<String>, AllocError> {
    let mut words = Vec::new(alloc);
    for word in cell.split_whitespace() {
        let word = if word == "''" { "" } else { word };
        words.push(String::from_str(alloc, word)?)?;
    }
    Ok(words)
}

/// The number of a cell that holds digits.
pub fn number(cell: &str) -> u64 {
    cell.parse::<u64>().unwrap_or(0)
}
