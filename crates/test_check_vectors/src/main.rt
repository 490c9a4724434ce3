// Pairs of texts, a case and a plan, and what program plancheck writes for each pair. Standard input is records (crate test_framing).
#![tactic(auto)]

fn main() {
    for _ in 0..u64::MAX {
        let mut case = io::large_buffer();
        let mut plan = io::large_buffer();
        let (Some(n), Some(m)) = test_framing::next_pair(&mut case, &mut plan, b"no plan\n") else {
            return;
        };
        show(&case[..n], &plan[..m]);
    }
}

// What program plancheck writes for them.
fn show(case: &[u8], plan: &[u8]) {
    let mut line = [0u8; answer_lines::LINE];
    let put = check_text::check_line(case, plan, &mut line);
    answer_output::front(&line, put);
}
