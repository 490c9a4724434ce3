// The exported calls of crate search_api, for programs in other languages: a case text, and tables, marks and numbers that are lent. A static library and nothing
// else: each call is that of the library crate, with its contract.
#![tactic(auto)]

ghost use Rattle.search_api.specs.Exported.{lent, OpenedText, RoundedText, LookedText};

use search::Marks;
use search_api::{Numbers, Sections};

// OPENS A SEARCH: both tables hold what is known before the first round, and the state is that of a search of which no round is finished. The marks are for the rounds alone.
#[unsafe(no_mangle)]
pub extern "C" fn open_search(
    text: &[u8],
    state: &mut Numbers,
    figures: &mut [u32],
    settings: &mut [u32],
    marks: &mut Marks,
) -> u8
    ensures { OpenedText text.now
        (lent state.old figures.old settings.old marks.old) result
        (lent state.new figures.new settings.new marks.new) }
{
    search_api::open_search(text, state, figures, settings, marks)
}

// ONE ROUND MORE, with all as the last call left it: answers 0 where the search goes on, and `ENDED` where it has ended, by this round or before.
#[unsafe(no_mangle)]
pub extern "C" fn search_round(
    text: &[u8],
    state: &mut Numbers,
    figures: &mut [u32],
    settings: &mut [u32],
    marks: &mut Marks,
) -> u8
    ensures { RoundedText text.now
        (lent state.old figures.old settings.old marks.old) result
        (lent state.new figures.new settings.new marks.new) }
{
    search_api::search_round(text, state, figures, settings, marks)
}

// LOOKS UP what a placement shows, by the number of each train's section in the document: answers 0 with the figure in `figure`; `NOT_YET`, or `WITHOUT`. Of trains that are not
// there any number will do; 0 is the number of no section.
#[unsafe(no_mangle)]
pub extern "C" fn look_up(
    text: &[u8],
    state: &Numbers,
    figures: &[u32],
    settings: &[u32],
    sections: &Sections,
    figure: &mut u32,
) -> u8
    ensures { LookedText text.now state.now figures.now settings.now sections.now figure.old result figure.new }
{
    search_api::look_up(text, state, figures, settings, sections, figure)
}
