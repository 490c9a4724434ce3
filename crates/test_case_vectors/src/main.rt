// Case texts and what is made of each: read, and if it is accepted written again; else `refused`, a tab and the number. Standard
// input is records (crate test_framing), each of 65,536 bytes at most.
#![tactic(auto)]

use railway::Railway;
use test_framing::STDOUT_FILENO;

fn main() {
    for _ in 0..u64::MAX {
        let mut space = io::large_buffer();
        let Some(n) = test_framing::next_text(&mut space) else {
            return;
        };
        show(&space[..n]);
    }
}

fn show(text: &[u8]) {
    match case_reader::read_case(text) {
        Ok(r) => again(r),
        Err(f) => {
            let mut line = [0u8; answer_output::LINE];
            answer_output::refusal(f, &mut line);
        }
    }
}

fn again(r: Railway) {
    let mut space = io::buffer();
    write(r, &mut space);
}

fn write(r: Railway, out: &mut [u8]) {
    match case_writer::write_case(r, out) {
        Ok(n) => {
            if n <= out.len() {
                io::write_all(STDOUT_FILENO, &out[..n]);
            }
        }
        Err(f) => {
            answer_output::refusal(f, out);
        }
    }
}
