// A placement by value, with the section of each train, and the bits of an entry of the setting table: what is looked at without a railway's
// table. Nothing is refused: past the last train and past the last bit stands 0.
#![tactic(auto)]

ghost use Rattle.std.specs.Prelude.{◌≡◌};
ghost use Rattle.laws.specs.Bits.{bit};
ghost use Rattle.game_placement.specs.ByValue.{section_in};

use railway::Railway;

// The section of each train, the document's number less one; 0 for trains that are not there.
#[derive(Clone, Copy)]
pub struct Placement {
    pub sections: [u8; Railway::TRAINS as usize],
}

// The bit of the first train in an entry of the setting table: points have the bits below.
pub const TRAIN_BITS: u32 = Railway::POINTS as u32;

// That bit as a number.
pub const FIRST_TRAIN: u32 = 1u32 << TRAIN_BITS;

// The section of a train; 0 past the last.
pub fn section_at(q: Placement, t: u8) -> u8
    ensures { result ≡ section_in q t }
{
    q.sections.get(t as usize).copied().unwrap_or(0)
}

// Bit n of a number.
pub fn bit_at(v: u32, n: u32) -> bool
    ensures { result ≡ bit v n }
{
    if 32 <= n {
        return false;
    }
    (v >> n) % 2 == 1
}
