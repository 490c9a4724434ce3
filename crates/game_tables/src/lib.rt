// The two tables and what a solver promises of them: specs/ has the definitions, proofs/ that the promise can be kept, in one way only.
#![tactic(auto)]

ghost use Rattle.std.specs.Prelude.{◌≡◌, get_or};
ghost use Rattle.game.specs.Local.{is_within};
ghost use Rattle.game_tables.specs.Tables.{figure_entry};

// The figure table's entry for none.
pub const NO_FIGURE: u32 = 4294967295;

// As many entries has each table that a program makes for itself.
pub const ENTRIES: usize = 8192;

// A table's entry at a code, and what is given for codes past its end.
pub fn entry_at(entries: &[u32], p: u32, past: u32) -> u32
    ensures { result ≡ get_or entries.now p past }
{
    entries.get(p as usize).copied().unwrap_or(past)
}

// Whether an entry is a figure that is smaller than n by this weight at least. The weight is taken from n, so that nothing overflows.
pub fn is_within(entry: u32, weight: u8, n: u32) -> bool
    ensures { result ≡ is_within n weight (figure_entry entry) }
{
    let w = weight as u32;
    if entry == NO_FIGURE {
        return false;
    }
    if n < w {
        return false;
    }
    entry <= n - w
}
