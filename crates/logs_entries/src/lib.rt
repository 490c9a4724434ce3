// A log, a lent slice of entries, taken out into a value, for what goes through a log more than once. The slice is only read, and each entry once.
#![tactic(auto)]

ghost use Rattle.logs_entries.specs.Packing.{PackedPost};

use logs::Entry;

// The most entries of a log.
pub const MOST: usize = 256;

// A log by value: how many entries it has, how many of them were taken out, and these. What stands behind them is 0.
#[derive(Clone, Copy)]
pub struct Packed {
    pub count: usize,
    pub next: usize,
    pub entries: [Entry; MOST],
}

// All entries, or as many as there is room for.
pub fn take_out(log: &[Entry]) -> Packed
    ensures { PackedPost log.now result }
{
    let next = log.len().min(MOST);
    let mut entries = [Entry {
        train: 0,
        section: 0,
    }; MOST];
    entries[..next].copy_from_slice(&log[..next]);
    Packed {
        count: log.len(),
        next,
        entries,
    }
}
