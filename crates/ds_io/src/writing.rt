//! Writing a text to a sink.
ghost use Rattle.std.specs.Prelude.{◌≡◌, ◌≤◌, length, take, IfErr, OnErr, OnOk};
ghost use Rattle.std.specs.Io.KnownBytes.{Appends};
ghost use Rattle.ds_io.specs.Faults.{Rose, next_count};

use crate::traits::Sink;

/// Writes a text to its end, or says how many of its bytes were taken when a write failed; no further one is made.
pub fn write_all<O: Sink>(output: &mut O, text: &[u8]) -> Result<(), usize>
    ensures ok { OnOk result (Appends (O.held output.old) (O.held output.new) text.now) }
    ensures err { IfErr result (λ sent. Appends (O.held output.old) (O.held output.new) (take sent text.now)) }
    ensures within { IfErr result (λ sent. sent ≤ length text.now) }
    ensures rose { OnErr result (Rose (O.faults output.old) (O.faults output.new)) }
    ensures fault { OnErr result (O.faults output.new ≡ next_count (O.faults output.old)) }
    ensures no_fault { OnOk result (O.faults output.new ≡ O.faults output.old) }
{
    let mut sent = 0;
    'write: while sent < text.len() {
        let Ok(n) = output.write(&text[sent..]) else {
            return Err(sent);
        };
        sent += n;
    }
    Ok(())
}
