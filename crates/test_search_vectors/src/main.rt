// Searches that are looked into between their rounds. Standard input is records (crate test_framing), two for each: a case text, and placements, a line
// each, the section of each train. After the opening, and after each round until the search has ended and one more: every code whose figure has
// come with it, with the figure and the setting; and what each placement shows.
#![tactic(auto)]

use game_placement::Placement;
use game_tables::{ENTRIES, NO_FIGURE};
use railway::Railway;
use search::{Marks, Search, Seen};
use solver_marks::MARKS;
use solver_rounds::LAST_ROUND;
use test_framing::STDOUT_FILENO;

// A placement as far as its line has been read: the train whose section comes next, and the digits of it so far.
#[derive(Clone, Copy)]
struct Line {
    sections: [u8; Railway::TRAINS as usize],
    train: u8,
    number: u32,
}

// A number that no section has, for those that are not there.
const NOWHERE: u8 = 255;

// What is looked into where the opening is refused.
const UNOPENED: Search = Search {
    rounds: 0,
    ended: true,
    coming: NO_FIGURE,
};

fn main() {
    for _ in 0..u64::MAX {
        let mut case = io::large_buffer();
        let mut places = io::large_buffer();
        let (Some(n), Some(m)) = test_framing::next_pair(&mut case, &mut places, b"no placements\n")
        else {
            return;
        };
        show(&case[..n], &places[..m]);
    }
}

fn show(case: &[u8], places: &[u8]) {
    if let Ok(r) = case_reader::read_case(case) {
        run(r, places);
    }
}

// A search with tables and marks of its own. Refused, for there are more placements than entries, it is looked into all the same: no round of it is finished, and it has ended.
fn run(r: Railway, places: &[u8]) {
    let Ok(table) = railway_compiled::compile(r) else {
        return;
    };
    let mut figures = [0u32; ENTRIES];
    let mut settings = [0u32; ENTRIES];
    let mut marks = [0u32; MARKS];
    let mut search = search_calls::open(r, &mut figures, &mut settings, &mut marks).unwrap_or(
        UNOPENED,
    );
    let m = game_moves::placements(&table);
    io::write_all(STDOUT_FILENO, b"open\n");
    come(&figures, &settings, m, 0);
    looks(search, r, &figures, &settings, places);
    rounds(
        &mut search,
        r,
        &mut figures,
        &mut settings,
        &mut marks,
        m,
        places,
    );
}

// The rounds until the search has ended, and one more call. One that is refused leaves the search as it was.
fn rounds(
    search: &mut Search,
    r: Railway,
    figures: &mut [u32],
    settings: &mut [u32],
    marks: &mut Marks,
    m: u32,
    places: &[u8],
) {
    let mut over = false;
    for _ in 0..=LAST_ROUND + 1 {
        let _ = search_calls::round(search, r, figures, settings, marks);
        head(search.rounds, search.ended);
        come(figures, settings, m, search.rounds);
        looks(*search, r, figures, settings, places);
        if over {
            return;
        }
        over = search.ended;
    }
}

// The line of a round.
fn head(n: u32, ended: bool) {
    io::write_all(STDOUT_FILENO, b"round\t");
    io::print_decimal(STDOUT_FILENO, n as u64);
    if ended {
        io::write_all(STDOUT_FILENO, b"\tended\n");
    } else {
        io::write_all(STDOUT_FILENO, b"\tgoing\n");
    }
}

// The codes with figure n, by rising code.
fn come(figures: &[u32], settings: &[u32], m: u32, n: u32) {
    for p in 0..m {
        if game_tables::entry_at(figures, p, NO_FIGURE) == n {
            entry(p, n, game_tables::entry_at(settings, p, 0));
        }
    }
}

fn entry(p: u32, figure: u32, setting: u32) {
    io::write_all(STDOUT_FILENO, b"shown\t");
    io::print_decimal(STDOUT_FILENO, p as u64);
    tab();
    io::print_decimal(STDOUT_FILENO, figure as u64);
    tab();
    io::print_decimal(STDOUT_FILENO, setting as u64);
    line_end();
}

// Every placement of the record, byte by byte.
fn looks(search: Search, r: Railway, figures: &[u32], settings: &[u32], places: &[u8]) {
    let mut line = Line::fresh();
    for &b in places {
        if b == b'\n' {
            line.end_section();
            let at = Placement {
                sections: line.sections,
            };
            look(search, r, figures, settings, at);
            line = Line::fresh();
        } else {
            line.take(b);
        }
    }
}

impl Line {
    // A line of which nothing has been read.
    fn fresh() -> Line {
        Line {
            sections: [0; Railway::TRAINS as usize],
            train: 0,
            number: 0,
        }
    }

    // One byte more: a digit, or the tab behind a section.
    fn take(&mut self, b: u8) {
        if b < b'0' {
            self.end_section();
        } else {
            self.number = (self.number % 1000) * 10 + (b - b'0') as u32;
        }
    }

    // The section whose digits have been read.
    fn end_section(&mut self) {
        let t = self.train;
        if t < Railway::TRAINS {
            self.sections[t as usize] = section_of(self.number);
            self.train = t + 1;
            self.number = 0;
        }
    }
}

// A section by its number in the document.
fn section_of(n: u32) -> u8 {
    match u8::try_from(n) {
        Ok(n) => n.checked_sub(1).unwrap_or(NOWHERE),
        Err(_) => NOWHERE,
    }
}

// What a placement shows.
fn look(search: Search, r: Railway, figures: &[u32], settings: &[u32], at: Placement) {
    io::write_all(STDOUT_FILENO, b"look\t");
    match search_calls::look_up(search, r, figures, settings, at) {
        Ok(Seen::Figure(n)) => {
            io::print_decimal(STDOUT_FILENO, n as u64);
        }
        Ok(Seen::NotYet) => {
            io::write_all(STDOUT_FILENO, b"not yet");
        }
        Ok(Seen::NoFigure) => {
            io::write_all(STDOUT_FILENO, b"none");
        }
        Err(_) => {
            io::write_all(STDOUT_FILENO, b"refused");
        }
    }
    line_end();
}

fn tab() {
    io::write_all(STDOUT_FILENO, b"\t");
}

fn line_end() {
    io::write_all(STDOUT_FILENO, b"\n");
}
