//! How the iterations of a phase are divided into units.

ghost use Rattle.std.specs.Prelude.{◌≡◌, ◌*◌, ◌<◌};
ghost use Rattle.phase_ops.specs.Phases.{pieces, unit_size};
ghost use Rattle.act_eval.specs.Strands.{AreChunks};

/// So many iterations, in units of at most `chunk` consecutive ones.
#[derive(Clone, Copy)]
pub struct Chunks {
    pub count: u32,
    pub chunk: u32,
}

impl Chunks {
    /// The number of units.
    pub fn units(self) -> u32
        requires { AreChunks self.chunk self.count }
        ensures { result ≡ pieces self.count self.chunk }
    {
        (self.count + (self.chunk - 1)) / self.chunk
    }

    /// The first iteration of a unit.
    pub fn start(self, unit: u32) -> u32
        requires chunks { AreChunks self.chunk self.count }
        requires there { unit < pieces self.count self.chunk }
        ensures value { result ≡ unit * self.chunk }
        ensures within { result < self.count }
    {
        unit * self.chunk
    }

    /// The number of iterations of a unit.
    pub fn size(self, unit: u32) -> u32
        requires chunks { AreChunks self.chunk self.count }
        requires there { unit < pieces self.count self.chunk }
        ensures { result ≡ unit_size self.count self.chunk unit }
    {
        let start = self.start(unit);
        self.chunk.min(self.count - start)
    }
}
