// Changes of case. Standard input is records (crate test_framing), three for each: a case text, the text of a new case, and a script of calls at a desk (crate test_script). Behind them
// changes are asked for that no script has: from records that are refused, and with tables of which one is too short. A line each: what is asked, a tab, and `changed` or `refused`
// with the number.
#![tactic(auto)]

use desk_calls::Desk;
use game_placement::Placement;
use railway::Railway;
use test_framing::STDOUT_FILENO;

fn main() {
    for _ in 0..u64::MAX {
        let mut case = io::large_buffer();
        let mut new = io::large_buffer();
        let mut script = io::large_buffer();
        let texts = test_framing::next_triple(
            &mut case,
            &mut new,
            &mut script,
            b"no new case\n",
            b"no script\n",
        );
        let (Some(n), Some(m), Some(k)) = texts else {
            break;
        };
        if !run(&case[..n], &new[..m], &script[..k]) {
            break;
        }
    }
    others();
}

fn run(case: &[u8], new: &[u8], script: &[u8]) -> bool {
    if test_script::run_script(case, new, script) {
        return true;
    }
    io::write_all(STDOUT_FILENO, b"case refused\n");
    false
}

// A line of two sections, with a train that goes up from 1 to 2: two placements, of figures 1 and 0.
fn others() {
    let Ok(line) = case_reader::read_case(b"H\t2\t0\t1\nJ\t1u\t2d\nT\t1\tu\t1\t2\n") else {
        return;
    };
    let short = [1u32];
    from_refused(line);
    with_tables(line);
    ask(
        b"other sections, tables too short",
        line,
        b"H\t3\t0\t1\nT\t1\tu\t1\t2\n",
        &short,
        &short,
    );
}

// The old record is refused, with 3 or with 8: of its number and that of the text the one that comes first is given, and before any of the change.
fn from_refused(line: Railway) {
    let short = [1u32];
    let table = [1u32, 0];
    let none = Railway::empty();
    let shut = line.with_closed(0);
    ask(b"3, text 2", none, b"", &table, &table);
    weightless(b"3, text 16", none);
    again(b"3, text read", none, &table, &table);
    weightless(b"8, text 16", shut);
    ask(
        b"8, text 4",
        shut,
        b"H\t2\t0\t1\nJ\t1u\t3d\nT\t1\tu\t1\t2\n",
        &table,
        &table,
    );
    again(b"8, text read, tables too short", shut, &short, &short);
}

// The old record is accepted: each table has to be long enough by itself.
fn with_tables(line: Railway) {
    let short = [1u32];
    let table = [1u32, 0];
    let long = [1u32, 0, 0];
    let none = [4294967295u32, 0];
    again(b"as many entries as placements", line, &table, &table);
    again(b"more entries", line, &table, &long);
    again(b"figures too short", line, &short, &long);
    again(b"settings too short", line, &long, &short);
    again(b"no figure, settings too short", line, &none, &short);
    again(b"no figure", line, &none, &table);
}

// To the line's own text.
fn again(what: &[u8], r: Railway, figures: &[u32], settings: &[u32]) {
    ask(
        what,
        r,
        b"H\t2\t0\t1\nJ\t1u\t2d\nT\t1\tu\t1\t2\n",
        figures,
        settings,
    );
}

// To that text with a weight of 0.
fn weightless(what: &[u8], r: Railway) {
    let table = [1u32, 0];
    ask(
        what,
        r,
        b"H\t2\t0\t1\nJ\t1u\t2d\nT\t1\tu\t1\t2\t0\n",
        &table,
        &table,
    );
}

// A change at the desk whose train stands on section 1.
fn ask(what: &[u8], r: Railway, text: &[u8], figures: &[u32], settings: &[u32]) {
    let mut desk = Desk {
        at: Placement {
            sections: [0, 0, 0, 0],
        },
        code: 0,
        arrived: 0,
    };
    let answer = desk.change(r, text, figures, settings);
    io::write_all(STDOUT_FILENO, what);
    io::write_all(STDOUT_FILENO, b"\t");
    match answer {
        Ok(()) => {
            io::write_all(STDOUT_FILENO, b"changed\n");
        }
        Err(f) => {
            let mut out = [0u8; answer_output::LINE];
            answer_output::refusal(f, &mut out);
        }
    }
}
