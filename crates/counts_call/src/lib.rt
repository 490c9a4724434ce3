// How many placements have each figure, counted in one pass over a figure table, which is lent and only read. The record is tested as at every entry, then the length of the table; entries
// past the last code are not read. Any table will do: with a solver's, the counts are those of the figures by whole plays (counts/specs/Counts).
#![tactic(auto)]

ghost use Rattle.std.specs.Prelude.{◌≡◌};
ghost use Rattle.laws.specs.Below.{count_below, list_below};
ghost use Rattle.game_tables.specs.Tables.{figure_entry};
ghost use Rattle.counts.specs.Counts.{classes, class_of, in_class, reply_of, CountPost};

use counts::{CLASSES, GREATER, WITHOUT};
use game_tables::NO_FIGURE;
use railway::{Railway, Refusal};

// THE COUNTS of the figures 0 to 254, of greater ones and of none; or the first number of a record that applies, or 9.
pub fn count_figures(r: Railway, figures: &[u32]) -> Result<[u32; CLASSES], Refusal>
    ensures { CountPost r figures.now (reply_of result) }
{
    railway_acceptance::test_record(r)?;
    let n = game_moves::power(r.sections, r.trains);
    if figures.len() < n as usize {
        return Err(Refusal::Space);
    }
    Ok(tally(figures, n))
}

// One pass over the first n entries.
fn tally(figures: &[u32], n: u32) -> [u32; CLASSES]
    ensures { result ≡ list_below (λ i. count_below (in_class figures.now i) n) classes }
{
    let mut counts = [0u32; CLASSES];
    for p in 0..n {
        let c = class_of(game_tables::entry_at(figures, p, NO_FIGURE));
        counts[c] += 1;
    }
    counts
}

// In which count an entry is.
fn class_of(entry: u32) -> usize
    ensures { result ≡ class_of (figure_entry entry) }
{
    if entry == NO_FIGURE {
        return WITHOUT;
    }
    GREATER.min(entry as usize)
}
