//! The text of a certificate.
ghost use Rattle.std.specs.Prelude.{◌≡◌, ◌+◌, ◌∷◌, ◌++◌, ◌^◌, ◌<◌, ℕ, [], length, map, All, IfOk, OnOk, codes, decimal};
ghost use Rattle.trace_text.specs.Items.{IsItem, IsShown};
ghost use Rattle.cert_text.specs.Printed as text_of;
ghost use Rattle.cert_text.specs.Certificate.{IsCert, IsWithin, IsCertOf};

use crate::cert::{Cert, CertBody};
use crate::packed::{PackedLists, PackedRelation};
use lts_base::{Item, Labels, Listed, Memory, Mode, Text};
use std::alloc::{AllocError, Global};
use trace_text::{put_item, put_items, put_line};

/// The text of a certificate. For numbers of states above all states in its lists, it is the text
/// of this certificate.
pub fn print_cert(alloc: Global, cert: &Cert, labels: &Labels) -> Result<Text, Memory>
    requires { IsCert labels.now cert.now }
    ensures text { IfOk result (λ text. text ≡ text_of.printed labels.now.texts cert.now) }
    ensures again { (imp spec : ℕ) → IsWithin imp spec cert.now → IfOk result (λ text. IsCertOf labels.now imp spec text cert.now) }
{
    let text = print_lines(alloc, cert, labels)?;
    Ok(text)
}

fn print_lines(alloc: Global, cert: &Cert, labels: &Labels) -> Result<Text, Memory>
    requires { IsCert labels.now cert.now }
    ensures { IfOk result (λ text. text ≡ text_of.printed labels.now.texts cert.now) }
{
    let mut text = Vec::new(alloc);
    put_line(&mut text, b"torx certificate 1", b"")?;
    put_line(&mut text, b"mode ", mode_word(cert.mode))?;
    match &cert.body {
        CertBody::Related(relation) => put_relation(alloc, &mut text, relation)?,
        CertBody::Shown { trace, shown } => {
            put_trace(alloc, &mut text, trace.as_slice(), *shown, labels)?
        }
    }
    Ok(Listed::from_vec(text))
}

fn mode_word(mode: Mode) -> &'static [u8]
    ensures { result.now ≡ text_of.mode_text mode }
{
    match mode {
        Mode::Ioco => b"ioco",
        Mode::Uioco => b"uioco",
    }
}

/// Appends a space and a number.
fn put_number(alloc: Global, text: &mut Vec<u8>, number: u64) -> Result<(), AllocError>
    ensures { OnOk result (text.new.items ≡ text.old.items ++ 32 ∷ decimal number) }
{
    let digits = format!(in alloc; " {number}")?;
    text.extend_from_slice(digits.as_bytes())
}

fn put_relation(
    alloc: Global,
    text: &mut Vec<u8>,
    relation: &PackedRelation,
) -> Result<(), AllocError>
    ensures { OnOk result (text.new.items ≡ text.old.items ++ text_of.with_ends (text_of.body_lines [] (CertBody.Related relation.now))) }
{
    put_line(text, b"kind relation", b"")?;
    put_lists(alloc, text, b"left", relation.left())?;
    put_lists(alloc, text, b"right", relation.right())?;
    let pairs = relation.pairs();
    put_pairs(alloc, text, pairs)?;
    put_end(alloc, text, pairs.len())?;
    Ok(())
}

fn put_lists(
    alloc: Global,
    text: &mut Vec<u8>,
    word: &[u8],
    lists: &PackedLists,
) -> Result<(), AllocError>
    ensures { OnOk result (text.new.items ≡ text.old.items ++ text_of.with_ends (map (text_of.number_line word.now) lists.now)) }
{
    'lists: for place in 0..lists.len() {
        put_list(alloc, text, word, lists.get(place))?;
    }
    Ok(())
}

fn put_list(
    alloc: Global,
    text: &mut Vec<u8>,
    word: &[u8],
    states: &[u32],
) -> Result<(), AllocError>
    ensures { OnOk result (text.new.items ≡ text.old.items ++ (text_of.number_line word.now states.now ++ 10 ∷ [])) }
{
    text.extend_from_slice(word)?;
    'states: for state in states {
        put_number(alloc, text, *state as u64)?;
    }
    text.extend_from_slice(b"\n")
}

fn put_pairs(alloc: Global, text: &mut Vec<u8>, pairs: &[(u32, u32)]) -> Result<(), AllocError>
    ensures { OnOk result (text.new.items ≡ text.old.items ++ text_of.with_ends (map text_of.pair_line pairs.now)) }
{
    'pairs: for pair in pairs {
        put_pair(alloc, text, *pair)?;
    }
    Ok(())
}

fn put_pair(alloc: Global, text: &mut Vec<u8>, pair: (u32, u32)) -> Result<(), AllocError>
    ensures { OnOk result (text.new.items ≡ text.old.items ++ (text_of.pair_line pair ++ 10 ∷ [])) }
{
    let (left, right) = pair;
    text.extend_from_slice(b"pair")?;
    put_number(alloc, text, left as u64 + 1)?;
    put_number(alloc, text, right as u64 + 1)?;
    text.extend_from_slice(b"\n")
}

fn put_end(alloc: Global, text: &mut Vec<u8>, count: usize) -> Result<(), AllocError>
    ensures { OnOk result (text.new.items ≡ text.old.items ++ (text_of.end_line count ++ 10 ∷ [])) }
{
    text.extend_from_slice(b"end")?;
    put_number(alloc, text, count as u64)?;
    text.extend_from_slice(b"\n")
}

fn put_trace(
    alloc: Global,
    text: &mut Vec<u8>,
    trace: &[Item],
    shown: Item,
    labels: &Labels,
) -> Result<(), AllocError>
    requires trace { All (IsItem labels.now) trace.now }
    requires shown { IsShown labels.now shown }
    ensures { OnOk result (text.new.items ≡ text.old.items ++ text_of.with_ends (text_of.body_lines labels.now.texts (CertBody.Shown trace.now shown))) }
{
    // the call tells that the inputs are among the labels
    let _ = labels.inputs();
    put_line(text, b"kind trace", b"")?;
    put_items(text, b"after ", labels, trace)?;
    put_item(text, b"shows ", labels, shown)?;
    put_end(alloc, text, trace.len())?;
    Ok(())
}
