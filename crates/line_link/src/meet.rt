//! What a link meets next: from its buffer, or by reads of its stream.
ghost use Rattle.std.specs.Prelude.{◌≡◌, [], false, IfOk, IfSome, IsTrue, OnErr};
ghost use Rattle.edge_io.specs.Links.{IsSaid, is_idle};
ghost use Rattle.edge_io.specs.Streams.{KeepsStream, StreamFails, StreamIdles};
ghost use Rattle.line_link.specs.AtHand.{IsMore};
ghost use Rattle.line_link.specs.Hearing.{IsHeard, IsUnfinished, pending};

use crate::line_buffer::{Found, LineBuffer, READ_BYTES};
use edge_io::{Failed, Got, Heard, Stream};

// What is met next.
pub(crate) fn meet<S: Stream>(
    stream: &mut S,
    lines: &mut LineBuffer,
    is_over: &mut bool,
) -> Result<Heard, Failed>
    ensures heard { IfOk result (λ heard.
        IsHeard (pending (S.told stream.old) lines.old.bytes is_over.old) heard lines.new.said (pending (S.told stream.new) lines.new.bytes is_over.new)) }
    ensures said { IfOk result (λ heard. IsSaid heard lines.new.said) }
    ensures idle { IfOk result (λ heard. IsTrue (is_idle heard) → StreamIdles (S.told stream.old) (S.told stream.new)) }
    ensures none { OnErr result (lines.new.said ≡ []) }
    ensures written { (S.told stream.new).written ≡ (S.told stream.old).written }
    ensures failed { OnErr result (StreamFails (S.told stream.old) (S.told stream.new)) }
    ensures later { KeepsStream (S.told stream.old) (S.told stream.new) }
{
    loop {
        match lines.take_line() {
            Found::Line => return Ok(Heard::Line),
            Found::Long => return Ok(Heard::TooLong),
            Found::Part => {}
        }
        if *is_over {
            return Ok(Heard::End);
        }
        match read_more(stream, lines, is_over)? {
            Some(heard) => return Ok(heard),
            None => {}
        }
    }
}

// Reads once; None where bytes came.
fn read_more<S: Stream>(
    stream: &mut S,
    lines: &mut LineBuffer,
    is_over: &mut bool,
) -> Result<Option<Heard>, Failed>
    requires part { IsUnfinished lines.old.bytes }
    requires said { lines.old.said ≡ lines.old.bytes }
    requires over { is_over.old ≡ false }
    ensures more { IfOk result (
        IsMore (pending (S.told stream.old) lines.old.bytes is_over.old) (pending (S.told stream.new) lines.new.bytes is_over.new) lines.new.said) }
    ensures said { IfOk result (λ heard. IfSome heard (λ h. IsSaid h lines.new.said)) }
    ensures idle { IfOk result (λ heard. IfSome heard (λ h. IsTrue (is_idle h) → StreamIdles (S.told stream.old) (S.told stream.new))) }
    ensures none { OnErr result (lines.new.said ≡ []) }
    ensures written { (S.told stream.new).written ≡ (S.told stream.old).written }
    ensures failed { OnErr result (StreamFails (S.told stream.old) (S.told stream.new)) }
    ensures later { KeepsStream (S.told stream.old) (S.told stream.new) }
{
    let mut piece = [0; READ_BYTES];
    match stream.read(&mut piece) {
        Ok(Got::Bytes(count)) => {
            lines.add(&piece[..count]);
            Ok(None)
        }
        Ok(Got::Idle) => {
            if lines.is_empty() {
                return Ok(Some(Heard::Idle));
            }
            Ok(Some(Heard::IdleMid))
        }
        Ok(Got::End) => {
            *is_over = true;
            Ok(Some(Heard::End))
        }
        Err(Failed) => {
            lines.hush();
            Err(Failed)
        }
    }
}
