ghost use Rattle.std.specs.Prelude.{◌≡◌, ◌≢◌, ◌<◌, ◌≤◌, [], None, take, length, IfOk, OnErr, OnOk, Ok};
ghost use Rattle.std.specs.Io.KnownBytes.{Appends, Keeps};
ghost use Rattle.outside.specs.Causes.{Rose, next_count};

use crate::{Failed, Sink};
use std::io::Write;
use std::marker::Model;

/// A sink over a writer, as standard output. It is seen as what the writer holds, where the writer tells that, and as
/// its count of faults; as a sink it tells nothing.
#[derive(Drop)]
pub struct StdSink<W: Write> {
    writer: W,
    faults: u64,
}

impl<W: Write> Model for StdSink<W> {
    ghost use Rattle.outside.specs.Written.{Written};

    ghost Value = { Written };

    ghost view = { λ s. record { contents = W.contents s.writer; faults = s.faults } };
}

impl<W: Write + Drop> StdSink<W> {
    /// A sink over this writer. A write that fails, or takes nothing, is a fault.
    pub fn new(writer: W) -> StdSink<W>
        ensures { result ≡ record { contents = W.contents writer; faults = 0 } }
    {
        StdSink { writer, faults: 0 }
    }
}

impl<W: Write + Drop> Sink for StdSink<W> {
    ghost shows = { λ s. record { taken = None; faults = s.faults } };

    fn put(&mut self, piece: &[u8]) -> Result<usize, Failed>
        ensures empty { piece.now ≡ [] → result ≡ Ok 0 }
        ensures some { piece.now ≢ [] → IfOk result (λ n. 1 ≤ n) }
        ensures within { IfOk result (λ n. n ≤ length piece.now) }
        ensures failed { OnErr result (Rose self.old.faults self.new.faults) }
        ensures kept { OnOk result (self.new.faults ≡ self.old.faults) }
        ensures later { self.old.faults ≤ self.new.faults }

        ensures counted { OnErr result (self.new.faults ≡ next_count self.old.faults) }
        ensures written { IfOk result (λ n. Appends self.old.contents self.new.contents (take n piece.now)) }
        ensures unwritten { OnErr result (Keeps self.old.contents self.new.contents) }
    {
        if piece.is_empty() {
            return Ok(0);
        }
        let written = write_some(&mut self.writer, piece);
        if written.is_err() {
            self.faults = self.faults.saturating_add(1);
        }
        written
    }
}

/// Writes the first bytes of the piece. A write that takes nothing of it fails.
fn write_some<W: Write>(writer: &mut W, piece: &[u8]) -> Result<usize, Failed>
    ensures some { IfOk result (λ n. (1 ≤ n) × (n ≤ length piece.now)) }
    ensures written { IfOk result (λ n. Appends (W.contents writer.old) (W.contents writer.new) (take n piece.now)) }
    ensures unwritten { OnErr result (Keeps (W.contents writer.old) (W.contents writer.new)) }
{
    match writer.write(piece) {
        Ok(count) if count > 0 => Ok(count),
        _ => Err(Failed),
    }
}
