// A whole piece into a sink.
ghost use Rattle.std.specs.Prelude.{OnOk, OnErr};
ghost use Rattle.law_io.specs.Counts.{HasCause};
ghost use Rattle.law_io.specs.Takings.{Grows, GrewByPrefix};

use crate::streams::{Failed, Sink};

/// Pushes all of `bytes`, in as many calls as the sink wants.
///
/// # Errors
///
/// `Failed` at the first push that fails. A part from the front of `bytes` was taken by then.
pub fn push_all<K: Sink>(sink: &mut K, bytes: &[u8]) -> Result<(), Failed>
    ensures all { OnOk result (Grows (K.taken sink.old) (K.taken sink.new) bytes.now) }
    ensures part { OnErr result (GrewByPrefix (K.taken sink.old) (K.taken sink.new) bytes.now) }
    ensures cause { HasCause (K.faults sink.old) (K.faults sink.new) result }
{
    let mut at = 0;
    while at < bytes.len() {
        at += sink.push(&bytes[at..])?;
    }
    Ok(())
}
