// A search in calls for programs in other languages: a case text, and tables, marks and numbers that are lent. The static library of crate search_api_c exports these
// calls. Each reads and judges the text, and answers the number of the refusal, or 0; two have other answers beside. A call that refuses leaves all that it is lent as it was.
#![tactic(auto)]

ghost use Rattle.std.specs.Prelude.{◌≡◌};
ghost use Rattle.search_api.specs.Exported.{search_numbers, search_of, lent, OpenedRailway, OpenedText, RoundedRailway, RoundedText};
ghost use Rattle.search_api.specs.Exported.{section_named, placement_of, LookedRailway, LookedText};

use game_placement::Placement;
use railway::Railway;
use search::{Marks, Search, Seen, Stage};

// A search as three numbers, and a placement as the number of each train's section.
pub type Numbers = [u32; 3];

pub type Sections = [u8; Railway::TRAINS as usize];

// What the call for a round answers where the search has ended; a number and no enum, for C reads it of the exported `search_round`. No refusal has this number, or one of the next two.
pub const ENDED: u8 = 255;

// What the call that looks up a placement answers where no figure has come yet, and where there is none.
pub const NOT_YET: u8 = 254;

pub const WITHOUT: u8 = 255;

// A number that no section has, and no option in its place: a placement has a number for each train, and `section_named` of Exported says this one.
const NOWHERE: u8 = 255;

// OPENS A SEARCH: both tables hold what is known before the first round, and the state is that of a search of which no round is finished. The marks are for the rounds alone.
pub fn open_search(
    text: &[u8],
    state: &mut Numbers,
    figures: &mut [u32],
    settings: &mut [u32],
    marks: &mut Marks,
) -> u8
    ensures { OpenedText text.now
        (lent state.old figures.old settings.old marks.old) result
        (lent state.new figures.new settings.new marks.new) }
{
    match case_reader::read_case(text) {
        Err(f) => f.number(),
        Ok(r) => open_railway(r, state, figures, settings, marks),
    }
}

fn open_railway(
    r: Railway,
    state: &mut Numbers,
    figures: &mut [u32],
    settings: &mut [u32],
    marks: &mut Marks,
) -> u8
    ensures { OpenedRailway r
        (lent state.old figures.old settings.old marks.old) result
        (lent state.new figures.new settings.new marks.new) }
{
    match search_calls::open(r, figures, settings, marks) {
        Err(f) => f.number(),
        Ok(search) => {
            *state = search_numbers(search);
            0
        }
    }
}

// ONE ROUND MORE, with all as the last call left it: answers 0 where the search goes on, and `ENDED` where it has ended, by this round or before.
pub fn search_round(
    text: &[u8],
    state: &mut Numbers,
    figures: &mut [u32],
    settings: &mut [u32],
    marks: &mut Marks,
) -> u8
    ensures { RoundedText text.now
        (lent state.old figures.old settings.old marks.old) result
        (lent state.new figures.new settings.new marks.new) }
{
    match case_reader::read_case(text) {
        Err(f) => f.number(),
        Ok(r) => round_railway(r, state, figures, settings, marks),
    }
}

fn round_railway(
    r: Railway,
    state: &mut Numbers,
    figures: &mut [u32],
    settings: &mut [u32],
    marks: &mut Marks,
) -> u8
    ensures { RoundedRailway r
        (lent state.old figures.old settings.old marks.old) result
        (lent state.new figures.new settings.new marks.new) }
{
    let mut search = search_of(*state);
    match search_calls::round(&mut search, r, figures, settings, marks) {
        Err(f) => f.number(),
        Ok(Stage::Going) => {
            *state = search_numbers(search);
            0
        }
        Ok(Stage::Ended) => {
            *state = search_numbers(search);
            ENDED
        }
    }
}

// LOOKS UP what a placement shows, by the number of each train's section in the document: answers 0 with the figure in `figure`; `NOT_YET`, or `WITHOUT`. Of trains that are not
// there any number will do; 0 is the number of no section.
pub fn look_up(
    text: &[u8],
    state: &Numbers,
    figures: &[u32],
    settings: &[u32],
    sections: &Sections,
    figure: &mut u32,
) -> u8
    ensures { LookedText text.now state.now figures.now settings.now sections.now figure.old result figure.new }
{
    match case_reader::read_case(text) {
        Err(f) => f.number(),
        Ok(r) => { look_railway(r, state, figures, settings, sections, figure) }
    }
}

fn look_railway(
    r: Railway,
    state: &Numbers,
    figures: &[u32],
    settings: &[u32],
    sections: &Sections,
    figure: &mut u32,
) -> u8
    ensures { LookedRailway r state.now figures.now settings.now sections.now figure.old result figure.new }
{
    let search = search_of(*state);
    let at = placement_of(*sections);
    match search_calls::look_up(search, r, figures, settings, at) {
        Ok(Seen::Figure(n)) => {
            *figure = n;
            0
        }
        Ok(Seen::NotYet) => NOT_YET,
        Ok(Seen::NoFigure) => WITHOUT,
        Err(f) => f.number(),
    }
}

// The search that three numbers stand for, and back. No `From`: neither type is this crate's, and the numbers are those of the exported `search_round`.
fn search_of(numbers: Numbers) -> Search
    ensures { result ≡ search_of numbers }
{
    Search {
        rounds: numbers[0],
        ended: numbers[1] != 0,
        coming: numbers[2],
    }
}

fn search_numbers(search: Search) -> Numbers
    ensures { result ≡ search_numbers search }
{
    [search.rounds, u32::from(search.ended), search.coming]
}

// The placement that four numbers of sections name.
fn placement_of(numbers: Sections) -> Placement
    ensures { result ≡ placement_of numbers }
{
    Placement {
        sections: numbers.map(section_named),
    }
}

fn section_named(n: u8) -> u8
    ensures { result ≡ section_named n }
{
    n.checked_sub(1).unwrap_or(NOWHERE)
}
