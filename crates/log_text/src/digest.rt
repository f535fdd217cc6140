//! Digests: of a content, and as hexadecimal digits.
ghost use Rattle.std.specs.Prelude.{◌≡◌, ◌<◌, length, All, IfOk, MatchOption, string_bytes};
ghost use Rattle.hex.specs.Hex.{encode_lower};
ghost use Rattle.sha2.specs.Sha256.{sha256};
ghost use Rattle.log_text.specs.Logs.{IsDigest};
ghost use Rattle.log_text.specs.Adding.{AreDigitsOf, AreNoDigits};

use crate::log::Digest;
use crate::piece::is_text;
use hex::FromHex;
use sha2::{Digest as Hasher, Sha256};
use std::alloc::{AllocError, Global};

/// The digest of a content.
pub fn digest_of(bytes: &[u8]) -> Digest
    ensures value { result.0 ≡ sha256 bytes.now }
    ensures digest { IsDigest result }
{
    digest_from(Sha256::digest(bytes))
}

/// That each byte fits: a clause can't say it of an array, and the walk is compiled away.
fn each_fits(bytes: &[u8; 32])
    ensures { (length bytes.now ≡ 32) × All (λ b. b < 256) bytes.now }
{
    'bytes: for place in 0..32 {
        let _ = bytes[place];
    }
}

/// The digest that these bytes are.
pub fn digest_from(bytes: [u8; 32]) -> Digest
    ensures value { result.0 ≡ bytes }
    ensures digest { IsDigest result }
{
    each_fits(&bytes);
    Digest(bytes)
}

/// The lower-case hexadecimal digits of a digest.
pub fn digits_of(alloc: Global, digest: &Digest) -> Result<String, AllocError>
    ensures { IfOk result (λ text. string_bytes text ≡ encode_lower digest.now.0) }
{
    let text = hex::encode(alloc, &digest.0)?;
    Ok(text)
}

/// The digest whose lower-case hexadecimal digits the text is.
pub fn digest_named(alloc: Global, text: &[u8]) -> Result<Option<Digest>, AllocError>
    ensures { IfOk result (λ o. MatchOption o (AreNoDigits text.now) (AreDigitsOf text.now)) }
{
    let Ok(bytes) = <[u8; 32] as FromHex>::from_hex(text) else {
        return Ok(None);
    };
    let digest = digest_from(bytes);
    let digits = digits_of(alloc, &digest)?;
    if !is_text(digits.as_bytes(), text) {
        return Ok(None);
    }
    Ok(Some(digest))
}
