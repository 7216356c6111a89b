//! The sound of a run as a file whose samples grow with its lines.

ghost use Rattle.std.specs.Prelude.{◌≡◌, ◌≤◌, ◌<◌, ◌^◌, ◌+◌, ◌↔◌, ◌∷◌, ◌++◌, [], List, length, Err, OnErr, OnOk, vec_capacity, vec_len};
ghost use Rattle.uz_core.specs.declared.machine.Edge.{Edge};

use crate::header::wave_header;
use std::alloc::{AllocError, Global};
use uz_core::Edge;
use uz_scan::{Scan, Scanner};

/// The most samples of a file, whose lengths are 32-bit numbers.
const MOST_SAMPLES: usize = (1 << 30) - 1;

/// Why a file takes no edge.
#[derive(Clone, Copy, Debug)]
pub enum WaveError {
    /// It has 2^30 - 1 samples, the most.
    Full,
    /// There was not enough memory.
    Memory,
}

impl From<AllocError> for WaveError {
    ghost use Rattle.std.specs.Prelude.{◌≡◌};
    ghost use Rattle.uz_report.specs.declared.sound_file.WaveError.TheVariants.{Memory};

    ghost from_gives = { λ _ error. error ≡ Memory };

    fn from(_e: AllocError) -> WaveError {
        WaveError::Memory
    }
}

/// The WAVE file of the lines that have ended so far, in three parts: its head, one byte a line, the sound value at its end,
/// and a byte that makes their number even.
#[derive(Drop)]
pub struct Wave {
    pub(crate) scanner: Scanner,
    pub(crate) sounds: Vec<u8>,
    ghost few: { length sounds.items < 2 ^ 30 },
}

impl Wave {
    ghost use Rattle.uz_report.specs.Waves.{Holds, clock_of, header_bytes, heard, pad_after, samples};

    /// The file of no edge.
    pub fn new(alloc: Global) -> Wave
        ensures holds { Holds result [] }
        ensures clock { clock_of result ≡ 0 }
    {
        Wave {
            scanner: Scanner::new(),
            sounds: Vec::new(alloc),
        }
    }

    /// Takes the next edge, whose clock isn't below the last one's. Refused exactly where the file has the most samples, and for
    /// want of memory; the file is then as it was.
    pub fn edge(&mut self, edge: Edge) -> Result<(), WaveError>
        requires { clock_of self.old ≤ edge.clock }
        ensures ok { OnOk result ((edges : List Edge) → Holds self.old edges → Holds self.new (edge ∷ edges)) }
        ensures err { OnErr result ((edges : List Edge) → Holds self.old edges → Holds self.new edges) }
        ensures full { (edges : List Edge) → Holds self.old edges → (result ≡ Err WaveError.Full) ↔ (length (samples edges) + 1 ≡ 2 ^ 30) }
        ensures clock { OnOk result (clock_of self.new ≡ edge.clock) }
        ensures clock_stays { OnErr result (clock_of self.new ≡ clock_of self.old) }
    {
        if self.sounds.len() == MOST_SAMPLES {
            return Err(WaveError::Full);
        }
        self.sounds.reserve(1)?;
        let shown = self.scanner.edge(edge);
        self.take(shown);
        Ok(())
    }

    /// Adds the sample of a line that has ended.
    fn take(&mut self, shown: Scan)
        requires room { vec_len self.old.sounds + 1 ≤ vec_capacity self.old.sounds }
        requires few { vec_len self.old.sounds + 1 < 2 ^ 30 }
        ensures sounds { self.new.sounds.items ≡ self.old.sounds.items ++ heard shown }
        ensures same { self.new.scanner ≡ self.old.scanner }
    {
        match shown {
            Scan::Line(line) => self.sample(line.sound),
            Scan::More => {}
            Scan::Frame(_) => {}
        }
    }

    /// Adds a sample, for which there is room.
    fn sample(&mut self, sound: u8)
        requires room { vec_len self.old.sounds + 1 ≤ vec_capacity self.old.sounds }
        requires few { vec_len self.old.sounds + 1 < 2 ^ 30 }
        ensures sounds { self.new.sounds.items ≡ self.old.sounds.items ++ sound ∷ [] }
        ensures same { self.new.scanner ≡ self.old.scanner }
    {
        let _ = self.sounds.push(sound); // it has room
    }

    /// The head of the file.
    pub fn head(&self) -> [u8; 44]
        ensures { (edges : List Edge) → Holds self.now edges → result ≡ header_bytes (length (samples edges)) }
    {
        wave_header(self.sounds.len() as u32)
    }

    /// The samples, one a line.
    pub fn samples(&self) -> &[u8]
        ensures { (edges : List Edge) → Holds self.now edges → result.now ≡ samples edges }
    {
        self.sounds.as_slice()
    }

    /// What follows an odd number of samples.
    pub fn pad(&self) -> &'static [u8]
        ensures { (edges : List Edge) → Holds self.now edges → result.now ≡ pad_after (length (samples edges)) }
    {
        if self.sounds.len() % 2 == 0 {
            b""
        } else {
            b"\0"
        }
    }
}
