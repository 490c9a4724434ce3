// A desk at which a plan is followed: one call opens it at the start, one gives the setting for the placement where it stands, one is told that a train has moved and moves it there,
// and a change takes the desk over to another case, its trains where they stand. It carries the code of its placement and how many trains have arrived, and what it carries is
// tested before it is used. The record is tested again at every call, and the two tables, which are lent, are only read. A report or a change that is refused leaves the desk as it
// was.
#![tactic(auto)]

ghost use Rattle.std.specs.Prelude.{◌≡◌, ℕ};
ghost use Rattle.railway.specs.declared.Railway.{Railway};
ghost use Rattle.std.proofs.Math.Option.{none, some};
ghost use Rattle.railway.specs.Record.{is_closed};
ghost use Rattle.railway.specs.Rows.{record_refusal};
ghost use Rattle.railway_routes.specs.Routes.{Laid};
ghost use Rattle.railway_compiled.specs.Table.{Compiled};
ghost use Rattle.game_moves.specs.Steps.{On};
ghost use Rattle.desk.specs.Change.{mismatch, change_to, sooner, ChangePost};
ghost use Rattle.desk.specs.Desk.{arrivals, desk_on, desk_row, no_desk, OpenPost, SettingPost, ReportPost};
ghost use Rattle.desk_calls.specs.Answers.{desk_at, opening, replied, behind, changing};
ghost use Rattle.desk_calls.specs.Steps.{counts_at};

use game_placement::Placement;
use game_tables::NO_FIGURE;
use railway::{Railway, Refusal};
use railway_compiled::Table;
use railway_routes::{NO_SECTION, Ways};

// Where the trains stand, the code of that placement, and how many of them stand on their destinations: a lamp reads both off the desk. What is there for trains that the case does
// not have is not looked at.
#[derive(Clone, Copy)]
pub struct Desk {
    pub at: Placement,
    pub code: u32,
    pub arrived: u8,
}

impl Desk {
    // OPENING: a desk at the start; none where the start has no figure in the table.
    pub fn open(r: Railway, figures: &[u32], settings: &[u32]) -> Result<Option<Desk>, Refusal>
        ensures { OpenPost r figures.now settings.now (opening result) }
    {
        let table = game_case::open_case(r, figures, settings)?;
        let p = game_moves::start_code(&table);
        if game_tables::entry_at(figures, p, NO_FIGURE) == NO_FIGURE {
            return Ok(None);
        }
        Ok(Some(desk_on(&table, game_moves::placement_of(&table, p))))
    }

    // A desk that stands on no section, for where none is opened: every call with it is refused.
    pub fn nowhere() -> Desk
        ensures { desk_at result ≡ no_desk }
    {
        Desk {
            at: Placement {
                sections: [255; Railway::TRAINS as usize],
            },
            code: 0,
            arrived: 0,
        }
    }

    // THE SETTING for the placement where the desk stands: the table's entry.
    pub fn setting(self, r: Railway, figures: &[u32], settings: &[u32]) -> Result<u32, Refusal>
        ensures { SettingPost r (desk_at self) figures.now settings.now result }
    {
        let table = game_case::open_case(r, figures, settings)?;
        let v = game_tables::entry_at(settings, self.code, 0);
        if self.stopped(&table) {
            Err(Refusal::Report)
        } else {
            Ok(v)
        }
    }

    // A REPORT: train t has come to section x. The next desk has it there, if the setting allows that move; refused, it is the same. It comes back beside the answer: the form that the project
    // gives it (docs/DECISIONS.md, "Forms").
    pub fn report(
        self,
        r: Railway,
        figures: &[u32],
        settings: &[u32],
        t: u8,
        x: u8,
    ) -> (Desk, Result<(), Refusal>)
        ensures { ReportPost r (desk_at self) figures.now settings.now t x (replied result.1 result.0) }
    {
        match self.reported(r, figures, settings, t, x) {
            Ok(next) => (next, Ok(())),
            Err(f) => (self, Err(f)),
        }
    }

    // The desk behind it.
    fn reported(
        self,
        r: Railway,
        figures: &[u32],
        settings: &[u32],
        t: u8,
        x: u8,
    ) -> Result<Desk, Refusal>
        ensures { ReportPost r (desk_at self) figures.now settings.now t x (behind self result) }
    {
        let table = game_case::open_case(r, figures, settings)?;
        if self.stopped(&table) {
            return Err(Refusal::Report);
        }
        let p = self.code;
        let v = game_tables::entry_at(settings, p, 0);
        let ways = game_case::case_ways(r);
        if !counts(&table, &ways, game_moves::placement_of(&table, p), v, t, x) {
            return Err(Refusal::Report);
        }
        Ok(desk_on(&table, game_moves::put_on(self.at, t, x)))
    }

    // A CHANGE OF CASE, the trains where they stand: from the record's case to that of the text, whose tables are lent. The desk goes over if sections, trains and headings are the
    // same and its placement has a figure in the new table; refused, it is as it was.
    pub fn change(
        &mut self,
        r: Railway,
        text: &[u8],
        figures: &[u32],
        settings: &[u32],
    ) -> Result<(), Refusal>
        ensures { ChangePost r text.now (desk_at self.old) figures.now settings.now (changing result self.new) }
    {
        let old = railway_compiled::compile(r);
        match case_reader::read_case(text) {
            Ok(s) => {
                let table = old?;
                self.go_over(&table, s, figures, settings)
            }
            Err(g) => match old {
                Ok(_) => Err(g),
                Err(f) => Err(sooner(f, g)),
            },
        }
    }

    // It, between two cases that are accepted.
    fn go_over(
        &mut self,
        table: &Table,
        s: Railway,
        figures: &[u32],
        settings: &[u32],
    ) -> Result<(), Refusal>
        ensures { (r : Railway) → Compiled r table.now → record_refusal s ≡ none → changing result self.new ≡ change_to r s (desk_at self.old) figures.now settings.now }
    {
        let next = railway_compiled::compile(s)?;
        if mismatched(table, &next) {
            return Err(Refusal::Mismatch);
        }
        game_case::open_case(s, figures, settings)?;
        if self.stopped(table) {
            return Err(Refusal::Report);
        }
        let p = game_moves::code_of(&next, self.at);
        if game_tables::entry_at(figures, p, NO_FIGURE) == NO_FIGURE {
            return Err(Refusal::Stranded);
        }
        *self = desk_on(&next, self.at);
        Ok(())
    }

    // Some train is on no section of the case, or two are on the same, or what the desk carries is wrong. No code is made of sections that are not there.
    fn stopped(self, table: &Table) -> bool
        ensures { (r : Railway) → Compiled r table.now → result ≡ desk_row r (desk_at self) }
    {
        let at = self.at;
        if game_moves::names_none(table, at) {
            return true;
        }
        let p = game_moves::code_of(table, at);
        if self.code != p {
            return true;
        }
        let q = game_moves::placement_of(table, p);
        if game_moves::lost_in(table, q) {
            return true;
        }
        self.arrived != arrivals(table, q)
    }
}

// The desk of a placement, with what it carries.
fn desk_on(table: &Table, at: Placement) -> Desk
    ensures { (r : Railway) → Compiled r table.now → desk_at result ≡ desk_on r at }
{
    let p = game_moves::code_of(table, at);
    Desk {
        at: at,
        code: p,
        arrived: arrivals(table, game_moves::placement_of(table, p)),
    }
}

// How many trains of a placement by value stand on their destinations.
fn arrivals(table: &Table, q: Placement) -> u8
    ensures { (r : Railway) (p : ℕ) → On r p table.now q → result ≡ arrivals r p }
{
    let k = railway_compiled::trains_in(table);
    let mut n: u8 = 0;
    for t in 0..k {
        if game_placement::section_at(q, t) == railway_compiled::destination_in(table, t) {
            n += 1;
        }
    }
    n
}

// Whether the report of a move counts, at a placement by value under entry v: the trains are not home, the train may move and comes to that section, which is not closed, and no
// other stands there.
fn counts(table: &Table, ways: &Ways, q: Placement, v: u32, t: u8, x: u8) -> bool
    ensures { (r : Railway) (p : ℕ) → On r p table.now q → Laid r (is_closed r) ways.now → result ≡ counts_at r p v t x }
{
    if game_moves::home_in(table, q) {
        return false;
    }
    if x == NO_SECTION {
        return false;
    }
    if game_moves::other_in(q, t, x, railway_compiled::trains_in(table)) {
        return false;
    }
    if game_moves::may_in(table, q, v, t) {
        return game_moves::leads_to(table, ways, q, v, t) == x;
    }
    false
}

// Of two refusals, of a record and of a text, the one that comes first in the order of the numbers.
fn sooner(f: Refusal, g: Refusal) -> Refusal
    ensures { result ≡ sooner (some f) g }
{
    if f.rank() < g.rank() { f } else { g }
}

// Another number of sections or of trains, or a train that heads the other way.
fn mismatched(old: &Table, new: &Table) -> bool
    ensures { (r s : Railway) → Compiled r old.now → Compiled s new.now → result ≡ mismatch r s }
{
    if railway_compiled::sections_in(old) != railway_compiled::sections_in(new) {
        return true;
    }
    let k = railway_compiled::trains_in(old);
    if k != railway_compiled::trains_in(new) {
        return true;
    }
    for t in 0..k {
        let a = railway::side_index(railway_compiled::heading_in(old, t));
        let b = railway::side_index(railway_compiled::heading_in(new, t));
        if a != b {
            return true;
        }
    }
    false
}
