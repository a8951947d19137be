//! The options of `run`.
ghost use Rattle.std.specs.Prelude.{◌≡◌, ◌≤◌, nat_le, ◌&&◌, if◌then◌else◌, Some, None, IfSome};
ghost use Rattle.job_words.specs.Settings.{row_of, is_option};

use crate::limits::{
    DEFAULT_BLOCK, DEFAULT_POOL, DEFAULT_SCHEDULE, DEFAULT_WORKERS, LEAST_BLOCK, LEAST_POOL,
    LEAST_SCHEDULE, LEAST_WORKERS, MOST_BLOCK, MOST_POOL, MOST_SCHEDULE, MOST_WORKERS,
};

/// What an option of `run` sets.
#[derive(Clone, Copy)]
pub enum Setting {
    /// How many workers there are.
    Workers,
    /// How many bytes the pool has.
    Pool,
    /// How many bytes a block has.
    Block,
    /// The number from which the schedule of the workers is made.
    Schedule,
}

/// What stands in a command line for a setting.
#[derive(Drop)]
pub struct Row {
    /// The option's name.
    pub name: &'static [u8],
    /// The smallest value.
    pub least: u64,
    /// The largest value.
    pub most: u64,
    /// The value where none is given.
    pub default: u64,
}

const SETTINGS: [Setting; 4] = [
    Setting::Workers,
    Setting::Pool,
    Setting::Block,
    Setting::Schedule,
];

impl Setting {
    /// The setting's row.
    pub fn row(self) -> Row
        ensures name { result.name.now ≡ (row_of self).name }
        ensures least { result.least ≡ (row_of self).least }
        ensures most { result.most ≡ (row_of self).most }
        ensures default { result.default ≡ (row_of self).default }
    {
        match self {
            Setting::Workers => Row {
                name: b"--workers",
                least: LEAST_WORKERS,
                most: MOST_WORKERS,
                default: DEFAULT_WORKERS,
            },
            Setting::Pool => Row {
                name: b"--pool",
                least: LEAST_POOL,
                most: MOST_POOL,
                default: DEFAULT_POOL,
            },
            Setting::Block => Row {
                name: b"--block",
                least: LEAST_BLOCK,
                most: MOST_BLOCK,
                default: DEFAULT_BLOCK,
            },
            Setting::Schedule => Row {
                name: b"--schedule",
                least: LEAST_SCHEDULE,
                most: MOST_SCHEDULE,
                default: DEFAULT_SCHEDULE,
            },
        }
    }
}

impl Row {
    /// The number, where it is in range.
    pub fn within(&self, n: u64) -> Option<u64>
        ensures number { result ≡ (if nat_le self.now.least n && nat_le n self.now.most then Some n else None) }
        ensures within { IfSome result (λ m. (self.now.least ≤ m) × (m ≤ self.now.most)) }
    {
        if self.least <= n && n <= self.most {
            Some(n)
        } else {
            None
        }
    }
}

/// Whether a word is an option's name.
pub fn is_option(word: &[u8]) -> bool
    ensures { result ≡ is_option word.now }
{
    SETTINGS
        .iter()
        .copied()
        .any(|setting| setting.row().name == word)
}
