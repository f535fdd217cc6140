//! Rows of bits, as words of 64.
ghost use Rattle.lts_base.specs.declared.limits.TheConstants.{MOST_LABELS};
ghost use Rattle.std.specs.Prelude.{◌≡◌, ◌≢◌, ℕ, ◌*◌, ◌<◌, ◌≤◌, ◌↔◌, length, ◌⊎◌, IsTrue};
ghost use Rattle.std.specs.Int.{bit_at};
ghost use Rattle.state_sets.specs.Finds.{IsLeastFrom};
ghost use Rattle.state_sets.specs.Rows.{HasBit};

/// Whether this bit of the word is set.
fn is_set(word: u64, bit: u32) -> bool
    requires { bit < 64 }
    ensures { IsTrue result ↔ (bit_at word bit ≡ 1) }
{
    word & (1 << bit) != 0
}

/// The word with this bit too.
fn with_bit(word: u64, bit: u32) -> u64
    requires { bit < 64 }
    ensures same { bit_at result bit ≡ 1 }
    ensures others { (i : ℕ) → i ≢ bit → bit_at result i ≡ bit_at word i }
{
    word | (1 << bit)
}

/// The least bit of the word from this one on; where there is none, 64.
fn first_bit(word: u64, from: u32) -> u32
    requires { from < 64 }
    ensures { IsLeastFrom (λ (i : ℕ). bit_at word i ≡ 1) from 64 result }
{
    let rest = word >> from;
    if rest == 0 {
        return 64;
    }
    from + rest.trailing_zeros()
}

/// Whether the bit at this place is set.
pub(crate) fn has_bit(row: &[u64], place: u32) -> bool
    requires { place < 64 * length row.now }
    ensures { IsTrue result ↔ HasBit row.now place }
{
    is_set(row[(place / 64) as usize], place % 64)
}

/// Sets the bit at this place.
pub(crate) fn set_bit(row: &mut [u64], place: u32)
    requires { place < 64 * length row.old }
    ensures long { length row.new ≡ length row.old }
    ensures bits { (i : ℕ) → HasBit row.new i ↔ (HasBit row.old i ⊎ (i ≡ place)) }
{
    let at = (place / 64) as usize;
    row[at] = with_bit(row[at], place % 64);
}

/// Takes off all bits.
pub(crate) fn clear_bits(row: &mut [u64])
    ensures long { length row.new ≡ length row.old }
    ensures bits { (i : ℕ) → ¬ HasBit row.new i }
{
    'words: for at in 0..row.len() {
        row[at] = 0;
    }
}

/// Sets the bits that the other row has.
pub(crate) fn join_bits(row: &mut [u64], other: &[u64])
    requires { length other.now ≡ length row.old }
    ensures long { length row.new ≡ length row.old }
    ensures bits { (i : ℕ) → HasBit row.new i ↔ (HasBit row.old i ⊎ HasBit other.now i) }
{
    'words: for at in 0..row.len() {
        row[at] = row[at] | other[at];
    }
}

/// The least place from `from` on at which a bit is set, where it is below `most`; else `most`.
pub(crate) fn next_bit(row: &[u64], from: u32, most: u32) -> u32
    requires from { from ≤ most }
    requires most { most ≤ 64 * length row.now }
    requires few { most ≤ MOST_LABELS }
    ensures { IsLeastFrom (HasBit row.now) from most result }
{
    let mut place = from;
    'words: while place < most {
        let bit = first_bit(row[(place / 64) as usize], place % 64);
        let next = place / 64 * 64 + bit;
        if next >= most {
            return most;
        }
        if bit < 64 {
            return next;
        }
        place = next;
    }
    most
}

/// The least place from `from` on at which a bit is set that the other row doesn't have, where it
/// is below `most`; else `most`.
pub fn first_missing(row: &[u64], other: &[u64], from: u32, most: u32) -> u32
    requires same { length other.now ≡ length row.now }
    requires from { from ≤ most }
    requires most { most ≤ 64 * length row.now }
    requires few { most ≤ MOST_LABELS }
    ensures { IsLeastFrom (λ (i : ℕ). HasBit row.now i × ¬ HasBit other.now i) from most result }
{
    let mut place = from;
    'words: while place < most {
        let word = row[(place / 64) as usize] & !other[(place / 64) as usize];
        let bit = first_bit(word, place % 64);
        let next = place / 64 * 64 + bit;
        if next >= most {
            return most;
        }
        if bit < 64 {
            return next;
        }
        place = next;
    }
    most
}
