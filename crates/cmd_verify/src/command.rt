//! `verify`, from its words to its report.
ghost use Rattle.std.specs.Prelude.{◌≡◌, map, string_bytes, IfOk};
ghost use Rattle.edge_io.specs.Outside.{KeepsFiles};
ghost use Rattle.tool_base.specs.Loaded.{AreTwoOver};
ghost use Rattle.tool_base.specs.Pages.{Answers, IsOnPage};
ghost use Rattle.cmd_verify.specs.Asked.{request_from};
ghost use Rattle.cmd_verify.specs.Verify.{verify_command, verify_page, IsCheckedBody};
ghost use Rattle.cmd_verify.specs.Printable.{LoadsCert, IsCheckable, IsReportOn};

use crate::outcome::{VerifyOutcome, outcome_of};
use crate::text::verify_text;
use crate::words::{Request, read_request};
use cert_check::{Checked, check_relation, check_trace};
use cert_text::{Cert, CertBody};
use edge_io::Files;
use lts_base::{Lts, Memory};
use std::alloc::Global;
use tool_base::{Report, Stop, TwoSystems, load_cert, two_systems, words_stop};

/// Says whether the systems of two files are as the certificate of a third file states. `words` are
/// those after the command's name.
pub fn verify<F: Files>(
    alloc: Global,
    files: &mut F,
    words: &[String],
) -> Result<Report<VerifyOutcome>, Stop>
    ensures answers { Answers verify_command (map string_bytes words.now) (F.told files.old) (F.told files.new) result }
    ensures keeps { KeepsFiles (F.told files.old) (F.told files.new) }
{
    match read_request(alloc, words) {
        Ok(request) => on_files(alloc, files, &request),
        Err(error) => Err(words_stop(error)),
    }
}

/// The answer for the files that are asked for.
fn on_files<F: Files>(
    alloc: Global,
    files: &mut F,
    request: &Request<'_>,
) -> Result<Report<VerifyOutcome>, Stop>
    ensures page { IsOnPage (verify_page (F.told files.old).content (request_from request.now)) (F.told files.old) (F.told files.new) result }
    ensures keeps { KeepsFiles (F.told files.old) (F.told files.new) }
{
    let both = two_systems(
        alloc,
        files,
        request.spec,
        request.imp,
        request.sorting,
        request.divergence,
    )?;
    let cert = certificate(alloc, files, request.cert, &both)?;
    let report = report(alloc, &both, &cert)?;
    Ok(report)
}

/// The certificate of a file, for two systems over their alphabet, the specification first.
fn certificate<F: Files>(
    alloc: Global,
    files: &mut F,
    name: &str,
    both: &TwoSystems,
) -> Result<Cert, Stop>
    ensures loaded { LoadsCert (F.told files.old) (F.told files.new) name.now both.now result }
    ensures keeps { KeepsFiles (F.told files.old) (F.told files.new) }
{
    let imp_states = both.second.states();
    let spec_states = both.first.states();
    load_cert(alloc, files, name, &both.labels, imp_states, spec_states)
}

/// The report on two systems over their alphabet, the specification first, and a certificate.
fn report(alloc: Global, both: &TwoSystems, cert: &Cert) -> Result<Report<VerifyOutcome>, Memory>
    requires over { AreTwoOver both.now }
    requires cert { IsCheckable both.now.second both.now.first cert.now.body }
    ensures { IfOk result (IsReportOn both.now cert.now) }
{
    let answer = checked(alloc, &both.second, &both.first, cert)?;
    let outcome = outcome_of(answer);
    let text = verify_text(alloc, &both.labels, &outcome)?;
    Ok(Report { outcome, text })
}

/// What the check of the certificate answers.
fn checked(alloc: Global, imp: &Lts, spec: &Lts, cert: &Cert) -> Result<Checked, Memory>
    requires inputs { spec.now.inputs ≡ imp.now.inputs }
    requires outputs { spec.now.outputs ≡ imp.now.outputs }
    requires body { IsCheckable imp.now spec.now cert.now.body }
    ensures { IfOk result (IsCheckedBody cert.now.mode imp.now spec.now cert.now.body) }
{
    match &cert.body {
        CertBody::Related(relation) => check_relation(alloc, imp, spec, cert.mode, relation),
        CertBody::Shown { trace, shown } => {
            check_trace(alloc, imp, spec, cert.mode, trace, *shown)
        }
    }
}
