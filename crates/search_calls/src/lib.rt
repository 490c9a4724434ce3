// A search in calls, so that it can be looked into while it goes on: one opens it, each further one finishes a round, and between them a placement's figure is looked up. The
// tables are lent and hold what has come so far; the marks of the rounds are lent too, for they are too many to be copied at every call. Rounds are those of the solver. Where the
// very next round is not due, the next that brings figures is looked for, so that rounds between take no time and the end is known as soon as it comes.
#![tactic(auto)]

ghost use Rattle.std.specs.Prelude.{◌≡◌, true, ℕ, suc, ◌≤◌, ◌<◌, length};
ghost use Rattle.railway.specs.declared.Railway.{Railway};
ghost use Rattle.railway.specs.Record.{is_closed};
ghost use Rattle.game.specs.Placement.{placements};
ghost use Rattle.game_tables.specs.Rounds.{RoundTables, most_figure};
ghost use Rattle.railway_routes.specs.Routes.{Laid};
ghost use Rattle.railway_compiled.specs.Table.{Compiled};
ghost use Rattle.game_placement.specs.ByValue.{section_in};
ghost use Rattle.solver_predecessors.specs.Behind.{Behind};
ghost use Rattle.solver_rounds.specs.Visits.{MarkedFor};
ghost use Rattle.game_tables.specs.Tables.{no_figure, figure_entry};
ghost use Rattle.search.specs.Searching.{going_on, shown_by, LookPost, OpenPost, SearchPost};
ghost use Rattle.search_calls.specs.Steps.{searching, opening_answer, opening_search, Ready, Shows, Finished};

use game_placement::Placement;
use game_tables::NO_FIGURE;
use railway::{Railway, Refusal};
use railway_compiled::Table;
use railway_routes::Ways;
use search::{Marks, Search, Seen, Stage};
use solver_marks::MARKS;
use solver_rounds::LAST_ROUND;

// OPENING a search: home has figure 0, every other placement none, and no setting is set; no round is finished. A case that is refused leaves all that is lent as it was.
pub fn open(
    r: Railway,
    figures: &mut [u32],
    settings: &mut [u32],
    marks: &mut Marks,
) -> Result<Search, Refusal>
    ensures { OpenPost r figures.old settings.old marks.old (opening_answer result)
        (searching (opening_search result) figures.new settings.new marks.new) }
{
    let table = game_case::open_case(r, figures, settings)?;
    solver_rounds::begin(&table, figures, settings);
    *marks = [0; MARKS];
    Ok(Search {
        rounds: 0,
        ended: false,
        coming: 1,
    })
}

// ONE ROUND MORE, with the same case, and the search, the tables and the marks as the last call left them. A search that has ended stays as it is, and so does one that says it has
// finished more rounds than there can be, and one with a case that is refused. A round that brings nothing, as was found before, is only counted.
pub fn round(
    search: &mut Search,
    r: Railway,
    figures: &mut [u32],
    settings: &mut [u32],
    marks: &mut Marks,
) -> Result<Stage, Refusal>
    ensures { SearchPost r (searching search.old figures.old settings.old marks.old)
        result (searching search.new figures.new settings.new marks.new) }
{
    let table = game_case::open_case(r, figures, settings)?;
    if search.ended || LAST_ROUND < search.rounds {
        return Ok(stage(*search));
    }
    let n = search.rounds + 1;
    let coming = coming_before_last(n, search.coming);
    if n < coming {
        *search = Search {
            rounds: n,
            ended: coming == NO_FIGURE,
            coming,
        };
        return Ok(stage(*search));
    }
    let ways = game_case::case_ways(r);
    let behind = solver_predecessors::ways_behind(r);
    let m = game_moves::placements(&table) as usize;
    *search = finish(
        &table,
        &ways,
        &behind,
        &mut figures[..m],
        &mut settings[..m],
        marks,
        n,
    );
    Ok(stage(*search))
}

// LOOKING UP what a placement shows, of which the section of each train is handed in.
pub fn look_up(
    search: Search,
    r: Railway,
    figures: &[u32],
    settings: &[u32],
    at: Placement,
) -> Result<Seen, Refusal>
    ensures { LookPost r (section_in at) search figures.now settings.now result }
{
    let table = game_case::open_case(r, figures, settings)?;
    if game_moves::names_none(&table, at) {
        return Ok(Seen::NoFigure);
    }
    let f = game_tables::entry_at(figures, game_moves::code_of(&table, at), NO_FIGURE);
    Ok(shows(f, search.ended))
}

// Round n, and the search behind it. Where it has brought figures, the search goes on, and if the very next round is due, that is all; else the next that brings some is looked for,
// and where there is none the search has ended, unless this one did.
fn finish(
    table: &Table,
    ways: &Ways,
    behind: &Ways,
    figures: &mut [u32],
    settings: &mut [u32],
    marks: &mut [u32],
    n: u32,
) -> Search
    ensures counted { result.rounds ≡ n }
    ensures finished { (r : Railway) (k : ℕ) → Compiled r table.now → Laid r (is_closed r) ways.now
        → Behind r behind.now → placements r ≤ length figures.old
        → placements r ≤ length settings.old → n ≤ most_figure → n ≡ suc k
        → RoundTables r k figures.old settings.old
        → MarkedFor r n figures.old marks.old → Finished r n result figures.old
        settings.old figures.new settings.new marks.new }
{
    let d = solver_rounds::round(table, ways, behind, figures, settings, marks, n);
    let came = search_ahead::came(table, figures, marks, n);
    if came && follows(n, d) {
        return Search {
            rounds: n,
            ended: false,
            coming: d,
        };
    }
    let c = look_ahead(table, ways, behind, figures, settings, marks, d);
    Search {
        rounds: n,
        ended: !came && c == NO_FIGURE,
        coming: c,
    }
}

// Whether d is the round behind n.
fn follows(n: u32, d: u32) -> bool
    ensures { result ≡ true → d ≡ suc n }
{
    n < d && d - n == 1
}

// The first round from d on that brings figures, the largest number if none does. Rounds before it bring nothing, so that the tables say the same; their marks are made as they
// are passed.
fn look_ahead(
    table: &Table,
    ways: &Ways,
    behind: &Ways,
    figures: &mut [u32],
    settings: &mut [u32],
    marks: &mut [u32],
    from: u32,
) -> u32
    ensures { (r : Railway) (n : ℕ) → n < no_figure → Compiled r table.now
        → Laid r (is_closed r) ways.now → Behind r behind.now
        → placements r ≤ length figures.old → placements r ≤ length settings.old
        → Ready r n from figures.old settings.old marks.old
        → Shows r n result figures.old settings.old figures.new settings.new
        marks.new }
{
    let mut d = from;
    while d <= LAST_ROUND {
        if search_ahead::brings(table, ways, behind, figures, marks, d) {
            return d;
        }
        d = solver_rounds::round(table, ways, behind, figures, settings, marks, d);
    }
    NO_FIGURE
}

// What an entry of the figure table shows, by whether the search has ended.
fn shows(f: u32, ended: bool) -> Seen
    ensures { Ok result ≡ shown_by (figure_entry f) ended }
{
    if f != NO_FIGURE {
        return Seen::Figure(f);
    }
    if ended { Seen::NoFigure } else { Seen::NotYet }
}

// What is coming, as a search says it; nothing where round n is behind the last that there can be.
fn coming_before_last(n: u32, coming: u32) -> u32
    ensures { (most_figure < n → result ≡ no_figure) × (n ≤ most_figure → result ≡ coming) }
{
    if LAST_ROUND < n { NO_FIGURE } else { coming }
}

// Whether a search goes on or has ended.
fn stage(search: Search) -> Stage
    ensures { Ok result ≡ going_on search }
{
    if search.ended {
        Stage::Ended
    } else {
        Stage::Going
    }
}
