//! The settings of a run.

ghost use Rattle.std.specs.Prelude.{◌≡◌, ◌↔◌, ◌≤◌, IsSome, IfSome};
ghost use Rattle.obim_engine.specs.Settings.{AreSettings, shift_of};
ghost use Rattle.obim_engine.specs.declared.settings.Buckets.TheVariants as buckets;

/// The most workers of a run.
pub const MAX_WORKERS: u32 = 64;

/// The most bits by which a label is shifted right.
pub const MAX_SHIFT: u32 = 63;

/// The most vertices of a chunk.
pub const MAX_CHUNK: usize = 256;

/// The buckets that labels share.
#[derive(Clone, Copy, Debug, PartialEq, Eq)]
pub enum Buckets {
    /// Each bucket spans 2^bits labels, 0 to `MAX_SHIFT`: a label shifted right gives its metric.
    Even(u32),
    /// The operators fit buckets to the graph by `widths_of`. To a run over another pool each label is its own metric.
    Widening,
}

/// The settings of a run. None of them changes a label.
#[derive(Clone, Copy, Debug, PartialEq, Eq)]
pub struct Settings {
    /// The number of workers, 1 to `MAX_WORKERS`.
    pub workers: u32,
    pub buckets: Buckets,
    /// The number of vertices shared at a time, 1 to `MAX_CHUNK`.
    pub chunk: usize,
    ghost within: { AreSettings workers (shift_of buckets) chunk },
}

/// The settings, pool and gate of a run.
#[derive(Drop)]
pub struct Setup<'a, P, G> {
    pub settings: &'a Settings,
    pub pool: &'a P,
    pub gate: &'a G,
}

impl Settings {
    /// The settings with even buckets; `None` if one is outside its limits.
    pub fn new(workers: u32, shift: u32, chunk: usize) -> Option<Settings>
        ensures within { IsSome result ↔ AreSettings workers shift chunk }
        ensures workers { IfSome result (λ settings. settings.workers ≡ workers) }
        ensures buckets { IfSome result (λ settings. settings.buckets ≡ buckets.Even shift) }
        ensures chunk { IfSome result (λ settings. settings.chunk ≡ chunk) }
    {
        if workers < 1 || workers > MAX_WORKERS || shift > MAX_SHIFT {
            return None;
        }
        if chunk < 1 || chunk > MAX_CHUNK {
            return None;
        }
        Some(Settings {
            workers,
            buckets: Buckets::Even(shift),
            chunk,
        })
    }

    /// Returns these settings with widening buckets, which fit every graph that was tried.
    pub fn with_widening_buckets(self) -> Settings
        ensures workers { result.workers ≡ self.workers }
        ensures buckets { result.buckets ≡ buckets.Widening }
        ensures chunk { result.chunk ≡ self.chunk }
    {
        Settings {
            workers: self.workers,
            buckets: Buckets::Widening,
            chunk: self.chunk,
        }
    }

    /// Returns these settings with this many workers.
    pub fn with_workers(self, workers: u32) -> Settings
        requires { (1 ≤ workers) × (workers ≤ MAX_WORKERS) }
        ensures workers { result.workers ≡ workers }
        ensures buckets { result.buckets ≡ self.buckets }
        ensures chunk { result.chunk ≡ self.chunk }
    {
        Settings {
            workers,
            buckets: self.buckets,
            chunk: self.chunk,
        }
    }

    /// The shift, if the graph isn't asked.
    pub(crate) fn shift(&self) -> u32
        ensures { result ≤ MAX_SHIFT }
    {
        match self.buckets {
            Buckets::Even(shift) => shift,
            Buckets::Widening => 0,
        }
    }
}
