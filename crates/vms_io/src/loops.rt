ghost use Rattle.std.specs.Prelude.{◌≡◌, ℕ, ◌<◌, [], take, length, OnOk, OnErr};
ghost use Rattle.std.specs.Io.KnownBytes.{Appends};
ghost use Rattle.vms_io.specs.Faults.{CountsFaults, LastFails};

use crate::{Failed, Sink};

/// Writes all of `bytes`, or fails after some first part of them.
pub fn write_all<K: Sink>(out: &mut K, bytes: &[u8]) -> Result<(), Failed>
    ensures ok { OnOk result (Appends (K.written out.old) (K.written out.new) bytes.now) }
    ensures err { OnErr result ((n : ℕ) × (n < length bytes.now)
        × Appends (K.written out.old) (K.written out.new) (take n bytes.now)) }
    ensures faults { CountsFaults (K.faults out.old) (K.faults out.new) result }
    ensures last { OnErr result (LastFails K.written K.faults K.calls out.old out.new) }
    ensures empty { bytes.now ≡ [] → out.new ≡ out.old }
{
    let mut rest = bytes;
    while !rest.is_empty() {
        let taken = out.write(rest)?;
        rest = &rest[taken..];
    }
    Ok(())
}
