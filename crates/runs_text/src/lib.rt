// All that program showruns writes for a case text, put into a lent buffer: a line for each train with its run from start to destination, or `none`, and behind them the sum of the runs, which is what
// any plan takes at least, or `none` where a train has none; or the line of a refusal. It stands whole at the front of
// the buffer, or finds no room and is refused for that, and the buffer is as it was.
#![tactic(auto)]

ghost use Rattle.std.specs.Prelude.{◌≡◌, ℕ, suc, ◌<◌, ◌≤◌, length, get_or};
ghost use Rattle.std.proofs.Math.Option.{none};
ghost use Rattle.laws.specs.Below.{any_below, sum_below, gather_below};
ghost use Rattle.text.specs.Appending.{Appended};
ghost use Rattle.railway.specs.Record.{train_of};
ghost use Rattle.railway.specs.Bounds.{most_sections, most_trains};
ghost use Rattle.railway.specs.Rows.{record_refusal};
ghost use Rattle.answer_lines.specs.Lines.{Puts};
ghost use Rattle.runs.specs.Runs.{entry_at, table_of, train_run};
ghost use Rattle.runs_text.specs.Written.{run_line, is_none, runs_text, RailwayRuns, CaseRuns, text_bytes, TrainsRun};

use railway::{Railway, Refusal, Side, Train};
use runs_tables::{NO_RUN, Runs};
use text::{LINE_END, TAB, append};

// Room for every text.
pub const TEXT: usize = 128;

// The run of each train.
type TrainRuns = [u8; Railway::TRAINS as usize];

// A case text: refused by the reader, or read.
pub fn case_runs(case: &[u8], text: &mut [u8]) -> Result<usize, Refusal>
    ensures { Puts (CaseRuns case.now) text_bytes text.old result text.new }
{
    match case_reader::read_case(case) {
        Err(f) => answer_lines::refusal_line(f, text),
        Ok(r) => railway_runs(r, text),
    }
}

// A railway: its trains' runs, by the tables of both headings.
fn railway_runs(r: Railway, text: &mut [u8]) -> Result<usize, Refusal>
    requires { record_refusal r ≡ none }
    ensures { Puts (RailwayRuns r) text_bytes text.old result text.new }
{
    let runs = runs_of(r);
    let mut own = [0u8; TEXT];
    let n = spell_runs(&mut own, runs, r.trains);
    answer_lines::put(&own[..n], text)
}

// The run of each train; past the last, 0.
fn runs_of(r: Railway) -> TrainRuns
    requires { record_refusal r ≡ none }
    ensures { TrainsRun r result }
{
    let blank = [[0u8; Railway::SECTIONS as usize]; Railway::SECTIONS as usize];
    let up = runs_tables::run_table(r, Side::Up, blank).unwrap_or(blank);
    let down = runs_tables::run_table(r, Side::Down, blank).unwrap_or(blank);
    read_runs(r, up, down)
}

fn read_runs(r: Railway, up: Runs, down: Runs) -> TrainRuns
    ensures { (t : ℕ) → t < most_trains → (train_of r t).start.0 < most_sections → (train_of r t).destination.0 < most_sections → get_or result t 0 ≡ train_run r up down t }
{
    let mut runs = [0u8; Railway::TRAINS as usize];
    for t in 0..Railway::TRAINS {
        runs[t as usize] = run_of(r.train_of(t), up, down);
    }
    runs
}

// The run of a train that starts and ends on sections that a railway can have.
fn run_of(train: Train, up: Runs, down: Runs) -> u8
    ensures { train.start.0 < most_sections → train.destination.0 < most_sections → result ≡ entry_at (table_of up down train.heading) train.start.0 train.destination.0 }
{
    let x = train.start.0;
    let y = train.destination.0;
    if Railway::SECTIONS <= x || Railway::SECTIONS <= y {
        return NO_RUN;
    }
    match train.heading {
        Side::Up => entry_at(up, x, y),
        Side::Down => entry_at(down, x, y),
    }
}

fn entry_at(table: Runs, x: u8, y: u8) -> u8
    requires x_lt_most_sections { x < most_sections }
    requires y_lt_most_sections { y < most_sections }
    ensures { result ≡ entry_at table x y }
{
    table[x as usize][y as usize]
}

// SPELLED, in a buffer with room: the line of each of k trains, and the last line.
fn spell_runs(out: &mut [u8], runs: TrainRuns, k: u8) -> usize
    requires { k ≤ most_trains }
    ensures { Appended out.old 0 (runs_text (λ t. get_or runs t 0) k) out.new result }
{
    let next = spell_trains(out, runs, k);
    if any_none(runs, k) {
        return append::bytes(out, next, b"none\n");
    }
    let word = append::bytes(out, next, b"least\t");
    append::number(out, word, sum_of(runs, k), LINE_END)
}

fn spell_trains(out: &mut [u8], runs: TrainRuns, k: u8) -> usize
    requires { k ≤ most_trains }
    ensures { Appended out.old 0 (gather_below (λ t. run_line t (get_or runs t 0)) k) out.new result }
{
    let mut next: usize = 0;
    for t in 0..k {
        next = spell_run(out, next, t, runs[t as usize]);
    }
    next
}

// The line of a train.
fn spell_run(out: &mut [u8], at: usize, t: u8, v: u8) -> usize
    ensures { Appended out.old at (run_line t v) out.new result }
{
    let word = append::bytes(out, at, b"run\t");
    let train = append::number(out, word, t as u32 + 1, TAB);
    if v == NO_RUN {
        return append::bytes(out, train, b"none\n");
    }
    append::number(out, train, v as u32, LINE_END)
}

// Some train has no run.
fn any_none(runs: TrainRuns, k: u8) -> bool
    requires { k ≤ most_trains }
    ensures { result ≡ any_below (λ t. is_none (get_or runs t 0)) k }
{
    for t in 0..k {
        if runs[t as usize] == NO_RUN {
            return true;
        }
    }
    false
}

// The runs in sum.
fn sum_of(runs: TrainRuns, k: u8) -> u32
    requires { k ≤ most_trains }
    ensures { result ≡ sum_below (λ t. get_or runs t 0) k }
{
    let mut sum: u32 = 0;
    for t in 0..k {
        sum += u32::from(runs[t as usize]);
    }
    sum
}
