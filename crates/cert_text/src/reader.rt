//! The reader of certificates.
ghost use Rattle.std.specs.Prelude.{◌≡◌, ◌⊎◌, ℕ, ◌+◌, ◌-◌, ◌^◌, ◌<◌, length, MatchResult};
ghost use Rattle.text_scan.specs.Lines.{lines_of};
ghost use Rattle.cert_text.specs.Certificate.{IsCertOf};
ghost use Rattle.cert_text.specs.Faults.{RefusesCert, IsRead, IsRefused};
ghost use Rattle.cert_text.specs.Adding.{Finishes};

use crate::cert::Cert;
use crate::error::CertError;
use crate::line::read_line;
use crate::stage::Stage;
use lts_base::Labels;
use std::alloc::Global;
use text_scan::next_line;

/// The certificate that the content is the text of, for systems over the labels with so many
/// states. There are fewer than 2^32 - 1 lines. A content is the text of one certificate, or
/// it has one first line at fault.
pub fn read_cert(
    alloc: Global,
    bytes: &[u8],
    labels: &Labels,
    imp_states: u32,
    spec_states: u32,
) -> Result<Cert, CertError>
    requires { length (lines_of bytes.now) < 2 ^ 32 - 1 }
    ensures read { MatchResult result (IsCertOf labels.now imp_states spec_states bytes.now) (RefusesCert labels.now imp_states spec_states bytes.now) }
    ensures only { (cert : Cert) → IsCertOf labels.now imp_states spec_states bytes.now cert → IsRead cert result }
    ensures fault { (e : CertError) → RefusesCert labels.now imp_states spec_states bytes.now e → ¬ (e ≡ CertError.Memory) → IsRefused e result }
{
    // the call tells what an alphabet is
    let _ = labels.inputs();
    read_lines(alloc, bytes, labels, imp_states, spec_states)
}

fn read_lines(
    alloc: Global,
    bytes: &[u8],
    labels: &Labels,
    imp_states: u32,
    spec_states: u32,
) -> Result<Cert, CertError>
    requires { length (lines_of bytes.now) < 2 ^ 32 - 1 }
    ensures { MatchResult result (IsCertOf labels.now imp_states spec_states bytes.now) (RefusesCert labels.now imp_states spec_states bytes.now) }
{
    let mut stage = Stage::Opening;
    let mut rest = bytes;
    let mut number: u32 = 0;
    while let Some((line, after)) = next_line(rest) {
        number += 1;
        stage = read_line(alloc, stage, line, labels, imp_states, spec_states, number)?;
        rest = after;
    }
    finish(stage, rest, number + 1)
}

/// The certificate, where it is ended and nothing follows it. Line `number` would be the next one.
fn finish(stage: Stage, rest: &[u8], number: u32) -> Result<Cert, CertError>
    ensures { Finishes stage rest.now number result }
{
    match stage {
        Stage::Ended(cert) => {
            if !rest.is_empty() {
                return Err(CertError::Line(number));
            }
            Ok(cert)
        }
        _ => Err(CertError::Cut(number)),
    }
}
