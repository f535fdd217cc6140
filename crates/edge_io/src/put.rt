//! All bytes into a sink.
ghost use Rattle.std.specs.Prelude.{OnOk, OnErr};
ghost use Rattle.edge_io.specs.Outside.{KeepsSink, SinkFails, AppendsTo, AppendsFrontTo};

use crate::failed::Failed;
use crate::sink::Sink;

/// Writes all of `bytes`, piece after piece, and takes no memory.
pub fn put_all<S: Sink>(sink: &mut S, bytes: &[u8]) -> Result<(), Failed>
    ensures ok { OnOk result (AppendsTo (S.told sink.old) (S.told sink.new) bytes.now) }
    ensures front { OnErr result (AppendsFrontTo (S.told sink.old) (S.told sink.new) bytes.now) }
    ensures keeps { KeepsSink (S.told sink.old) (S.told sink.new) }
    ensures failed { OnErr result (SinkFails (S.told sink.old) (S.told sink.new)) }
{
    let mut done = 0;
    while done < bytes.len() {
        done += sink.write(&bytes[done..])?;
    }
    Ok(())
}
