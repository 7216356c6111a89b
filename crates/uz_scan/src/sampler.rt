//! The samples of a line.

ghost use Rattle.std.specs.Prelude.{◌≡◌, ◌≤◌, ◌<◌, ℕ, slice_index};
ghost use Rattle.uz_scan.specs.Places.{samples_within};

/// So many samples has a row, one every four clocks.
pub(crate) const WIDTH: usize = 455;

/// So many clocks does a row reach over. A line that is longer has no more samples.
const REACH: u64 = 4 * WIDTH as u64;

/// The samples of the line that runs, up to the last pixel.
#[derive(Drop)]
pub(crate) struct Sampler {
    /// PORTC's value.
    pub value: u8,
    /// So many samples are known.
    pub filled: usize,
    pub samples: [u8; 455],
    ghost within: { filled ≤ 455 },
}

/// How many samples stand at fewer than so many clocks after a line's start.
fn samples_within(clocks: u64) -> usize
    ensures count { result ≡ samples_within clocks }
    ensures within { result ≤ 455 }
{
    if clocks >= REACH {
        WIDTH
    } else {
        ((clocks + 3) / 4) as usize
    }
}

/// Sets the samples from one place to another.
fn set_all(samples: &mut [u8; 455], from: usize, to: usize, value: u8)
    requires { to ≤ 455 }
    ensures set { (k : ℕ) → from ≤ k → k < to → slice_index samples.new k ≡ value }
    ensures before { (k : ℕ) → k < from → slice_index samples.new k ≡ slice_index samples.old k }
    ensures after { (k : ℕ) → to ≤ k → slice_index samples.new k ≡ slice_index samples.old k }
{
    for k in from..to {
        samples[k] = value;
    }
}

impl Sampler {
    ghost use Rattle.uz_scan.specs.Scanning.{FillsSamples, IsFinished, IsTaken};

    pub fn new() -> Sampler
        ensures value { result.value ≡ 0 }
        ensures filled { result.filled ≡ 0 }
    {
        Sampler {
            value: 0,
            filled: 0,
            samples: [0; 455],
        }
    }

    /// Fills the samples of so many clocks of the line with the value.
    fn fill(&mut self, clocks: u64)
        ensures samples { FillsSamples clocks self.old self.new }
        ensures value { self.new.value ≡ self.old.value }
    {
        let to = samples_within(clocks);
        set_all(&mut self.samples, self.filled, to, self.value);
        self.filled = self.filled.max(to);
    }

    /// PORTC takes a value at a clock. `start` is the clock at which the line began, if one runs.
    pub fn pixel(&mut self, start: Option<u64>, clock: u64, value: u8)
        ensures samples { IsTaken start clock self.old self.new }
        ensures value { self.new.value ≡ value }
    {
        if let Some(start) = start {
            self.fill(clock.saturating_sub(start));
        }
        self.value = value;
    }

    /// The row of the line, which ends after so many clocks. The next line begins.
    pub fn finish(&mut self, clocks: u64) -> [u8; 455]
        ensures row { IsFinished clocks self.old result }
        ensures value { self.new.value ≡ self.old.value }
        ensures filled { self.new.filled ≡ 0 }
    {
        self.fill(clocks);
        let mut row = self.samples;
        set_all(&mut row, self.filled, WIDTH, 0);
        self.filled = 0;
        row
    }
}
