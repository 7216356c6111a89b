//! The sink of a real output. It tells nothing of its text, but what the output tells of its own bytes.

ghost use Rattle.std.specs.Prelude.{◌≡◌, ◌<◌, ◌≤◌, ℕ, IsErrOf, None, OnErr, OnOk, length, take};
ghost use Rattle.std.specs.Io.KnownBytes.{Appends};
ghost use Rattle.uz_shelf.specs.Faults.{Rose};
ghost use Rattle.uz_shelf.specs.RealFiles.{count_after_write};
ghost use Rattle.uz_shelf.specs.RealOutput.{faults_of, output_of};
ghost use Rattle.uz_shelf.specs.Text.{TakesAll, TakesPrefix};

use crate::errors::WriteError;
use crate::sink::Sink;
use crate::writing::write_piece;
use std::alloc::Global;
use std::io::Write;

/// A real output, as standard output, with the count of the faults that it has met.
#[derive(Drop)]
pub struct OutSink<W: Write + Drop> {
    out: W,
    faults: u64,
}

impl<W: Write + Drop> OutSink<W> {
    /// A sink over that output, with no fault met. Takes no memory.
    pub fn new(out: W) -> OutSink<W>
        ensures output { output_of result ≡ out }
        ensures faults { faults_of result ≡ 0 }
    {
        OutSink { out, faults: 0 }
    }
}

impl<W: Write + Drop> Sink for OutSink<W> {
    ghost use Rattle.std.specs.Prelude.{None};
    ghost use Rattle.uz_shelf.specs.RealOutput.{faults_of};

    ghost text = { λ _. None };

    ghost faults = { λ s. faults_of s };

    ghost may_lack = { ⊥ };

    fn put(&mut self, _alloc: Global, piece: &[u8]) -> Result<(), WriteError>
        ensures ok { OnOk result (TakesAll None piece.now None) }
        ensures err { OnErr result (TakesPrefix None piece.now None) }
        ensures failed { IsErrOf result WriteError.Failed → Rose (faults_of self.old) (faults_of self.new) }
        ensures memory { IsErrOf result WriteError.Memory → ⊥ }
        ensures faults { faults_of self.old ≤ faults_of self.new }

        // Where the output tells its bytes, the piece is added to them once, and a prefix of it where this fails, which no
        // empty piece does. Each failure raises the count by one, and nothing else does.
        ensures written { OnOk result (Appends (W.contents (output_of self.old)) (W.contents (output_of self.new)) piece.now) }
        ensures written_part { OnErr result ((count : ℕ) × Appends (W.contents (output_of self.old)) (W.contents (output_of self.new))
            (take count piece.now)) }
        ensures some { OnErr result (0 < length piece.now) }
        ensures counted { faults_of self.new ≡ count_after_write result (faults_of self.old) }
    {
        let written = write_piece(&mut self.out, piece);
        if matches!(&written, Err(WriteError::Failed)) {
            self.faults = self.faults.saturating_add(1);
        }
        written
    }
}
