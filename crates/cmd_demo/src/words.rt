//! The words of `demo`.
ghost use Rattle.std.specs.Prelude.{◌≡◌, map, string_bytes, option_map};
ghost use Rattle.torx_words.specs.Accepted.{IsAsked, asked};
ghost use Rattle.torx_words.specs.Values.{decimal_of, number_in};
ghost use Rattle.cmd_demo.specs.declared.limits.TheConstants.{LEAST_DEMO, MOST_DEMO};
ghost use Rattle.cmd_demo.specs.Size.{demo_of, demo_shape};

use crate::limits::{LEAST_DEMO, MOST_DEMO};
use crate::size::Size;
use std::alloc::Global;
use text_scan::decimal;
use torx_words::{Form, WordsError, read_words};

/// The size that the words after the command ask for, where there is one.
pub(crate) fn read_size(alloc: Global, words: &[String]) -> Result<Option<Size>, WordsError>
    ensures { IsAsked (asked demo_shape demo_of (map string_bytes words.now)) (option_map (λ (s : _). s.number)) result }
{
    let given = read_words(alloc, &Form::plain(&[], 1, 1), words)?;
    Ok(size_of(given.required_file(0)))
}

/// The size of which the word is the number.
fn size_of(word: &str) -> Option<Size>
    ensures { option_map (λ (s : _). s.number) result ≡ number_in LEAST_DEMO MOST_DEMO word.now }
{
    let number = number_of(word)?;
    if LEAST_DEMO <= number && number <= MOST_DEMO {
        Some(Size {
            number: number as u32,
        })
    } else {
        None
    }
}

fn number_of(word: &str) -> Option<u64>
    ensures { result ≡ decimal_of word.now }
{
    decimal(word.as_bytes())
}
