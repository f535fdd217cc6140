//! The text of a system.
ghost use Rattle.std.specs.Prelude.{◌≡◌, ◌++◌, ◌<◌, length, IfOk, OnOk};
ghost use Rattle.lts_base.specs.System.{IsActOf, refused};
ghost use Rattle.lts_base.specs.Alphabet.{IsOver};
ghost use Rattle.aut_text.specs.Grammar.{IsAut};
ghost use Rattle.aut_text.specs.Printed.{AreWritable, FitsFile, Says, SplitsAgain};
ghost use Rattle.aut_text.specs.Printed as text_of;

use lts_base::{Act, Labels, Lts, Memory, Move, Text};
use std::alloc::{AllocError, Global};

/// The system as an Aldebaran file without blanks, its labels in quotes. Where a file has room for
/// it and no label is `i` or `tau`, the text is a file of the same system. Where the moves carry
/// all labels, the same rule splits that file into the same labels and the same system, read so that
/// cycles of internal moves mean nothing.
pub fn print(alloc: Global, lts: &Lts, labels: &Labels) -> Result<Text, Memory>
    requires { IsOver labels.now lts.now }
    ensures text { IfOk result (λ text. text ≡ text_of.printed labels.now lts.now) }
    ensures again { AreWritable labels.now.texts → FitsFile lts.now → (r : _) → Says labels.now lts.now r → IfOk result (λ text. IsAut text r) }
    ensures splits { IfOk result (SplitsAgain labels.now lts.now) }
{
    // the call tells that the inputs are among the labels
    let _ = labels.count();
    let mut text = Vec::new(alloc);
    push_header(alloc, &mut text, lts)?;
    for entry in lts.moves() {
        push_move(alloc, &mut text, entry, labels)?;
    }
    Ok(Text::from_vec(text))
}

fn push_header(alloc: Global, text: &mut Vec<u8>, lts: &Lts) -> Result<(), AllocError>
    ensures { OnOk result (text.new.items ≡ text.old.items ++ text_of.header_text lts.now) }
{
    let start = lts.start();
    let moves = lts.moves().len();
    let states = lts.states();
    let line = format!(in alloc; "des ({start},{moves},{states})\n")?;
    text.extend_from_slice(line.as_bytes())
}

fn push_move(
    alloc: Global,
    text: &mut Vec<u8>,
    entry: &Move,
    labels: &Labels,
) -> Result<(), AllocError>
    requires { IsActOf (length labels.now.texts) entry.now.act }
    ensures { OnOk result (text.new.items ≡ text.old.items ++ text_of.line_text labels.now.texts entry.now) }
{
    match entry.act {
        Act::Tau => push_line(alloc, text, entry.from, b"tau", entry.to),
        Act::Label(label) => push_line(alloc, text, entry.from, labels.text(label), entry.to),
    }
}

fn push_line(
    alloc: Global,
    text: &mut Vec<u8>,
    from: u32,
    label: &[u8],
    to: u32,
) -> Result<(), AllocError>
    ensures { OnOk result (text.new.items ≡ text.old.items ++ text_of.move_text from label.now to) }
{
    let front = format!(in alloc; "({from},\"")?;
    text.extend_from_slice(front.as_bytes())?;
    text.extend_from_slice(label)?;
    let back = format!(in alloc; "\",{to})\n")?;
    text.extend_from_slice(back.as_bytes())
}
