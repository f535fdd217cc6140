//! Texts that are cut at a byte.
ghost use Rattle.std.specs.Prelude.{◌≡◌, MatchOption};
ghost use Rattle.text_scan.specs.Cut.{Lacks, IsCut, IsLastCut};

use memchr::{memchr, memrchr};

/// The bytes before the first mark and those after it; None where there is no mark.
pub fn cut_at(bytes: &[u8], mark: u8) -> Option<(&[u8], &[u8])>
    ensures { MatchOption result (Lacks mark bytes.now) (λ cut. IsCut mark bytes.now cut.0.now cut.1.now) }
{
    match memchr(mark, bytes) {
        None => None,
        Some(place) => Some((&bytes[..place], &bytes[place + 1..])),
    }
}

/// The bytes before the last mark and those after it; None where there is no mark.
pub fn cut_at_last(bytes: &[u8], mark: u8) -> Option<(&[u8], &[u8])>
    ensures { MatchOption result (Lacks mark bytes.now) (λ cut. IsLastCut mark bytes.now cut.0.now cut.1.now) }
{
    match memrchr(mark, bytes) {
        None => None,
        Some(place) => Some((&bytes[..place], &bytes[place + 1..])),
    }
}

/// The bytes before the first line end and those after it; None where there is no line end.
pub fn next_line(bytes: &[u8]) -> Option<(&[u8], &[u8])>
    ensures { MatchOption result (Lacks 10 bytes.now) (λ cut. IsCut 10 bytes.now cut.0.now cut.1.now) }
{
    cut_at(bytes, b'\n')
}
