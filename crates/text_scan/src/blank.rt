//! Blanks at the ends of a text.
ghost use Rattle.std.specs.Prelude.{◌≡◌};
ghost use Rattle.text_scan.specs.Blank.{is_blank, without_front, without_back, trimmed};

/// The bytes without the spaces and tabs at both ends.
pub fn trim(bytes: &[u8]) -> &[u8]
    ensures { result.now ≡ trimmed bytes.now }
{
    trim_back(trim_front(bytes))
}

fn blank(byte: u8) -> bool
    ensures { result ≡ is_blank byte }
{
    byte == b' ' || byte == b'\t'
}

fn trim_front(bytes: &[u8]) -> &[u8]
    ensures { result.now ≡ without_front bytes.now }
{
    let mut rest = bytes;
    while let [first, after @ ..] = rest {
        if !blank(*first) {
            return rest;
        }
        rest = after;
    }
    rest
}

fn trim_back(bytes: &[u8]) -> &[u8]
    ensures { result.now ≡ without_back bytes.now }
{
    let mut rest = bytes;
    while let [before @ .., last] = rest {
        if !blank(*last) {
            return rest;
        }
        rest = before;
    }
    rest
}
