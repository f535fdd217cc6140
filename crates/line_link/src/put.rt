//! A line onto a stream.
ghost use Rattle.std.specs.Prelude.{◌≡◌, ◌∷◌, [], ◌++◌, ℕ, take, OnErr, OnOk};
ghost use Rattle.edge_io.specs.Outside.{Gains};
ghost use Rattle.edge_io.specs.Streams.{KeepsStream, StreamFails};

use edge_io::{Failed, Stream};

// Writes the text and LF.
pub(crate) fn put_line<S: Stream>(stream: &mut S, text: &[u8]) -> Result<(), Failed>
    ensures ok { OnOk result (Gains (S.told stream.old).written (S.told stream.new).written (text.now ++ 10 ∷ [])) }
    ensures front { OnErr result ((n : ℕ) × Gains (S.told stream.old).written (S.told stream.new).written (take n (text.now ++ 10 ∷ []))) }
    ensures answers { (S.told stream.new).answers ≡ (S.told stream.old).answers }
    ensures failed { OnErr result (StreamFails (S.told stream.old) (S.told stream.new)) }
    ensures later { KeepsStream (S.told stream.old) (S.told stream.new) }
{
    put_bytes(stream, text)?;
    put_bytes(stream, b"\n")
}

// Writes all of the bytes, piece after piece.
fn put_bytes<S: Stream>(stream: &mut S, bytes: &[u8]) -> Result<(), Failed>
    ensures ok { OnOk result (Gains (S.told stream.old).written (S.told stream.new).written bytes.now) }
    ensures front { OnErr result ((n : ℕ) × Gains (S.told stream.old).written (S.told stream.new).written (take n bytes.now)) }
    ensures answers { (S.told stream.new).answers ≡ (S.told stream.old).answers }
    ensures failed { OnErr result (StreamFails (S.told stream.old) (S.told stream.new)) }
    ensures later { KeepsStream (S.told stream.old) (S.told stream.new) }
{
    let mut done = 0;
    while done < bytes.len() {
        done += stream.write(&bytes[done..])?;
    }
    Ok(())
}
