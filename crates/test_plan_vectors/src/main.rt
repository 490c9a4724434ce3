// Case texts, and what program signalplan writes for each. Standard input is records (crate test_framing).
#![tactic(auto)]

fn main() {
    for _ in 0..u64::MAX {
        let mut space = io::large_buffer();
        let Some(n) = test_framing::next_text(&mut space) else {
            return;
        };
        show(&space[..n]);
    }
}

// What program signalplan writes for it.
fn show(case: &[u8]) {
    let mut plan = [0u8; plan_text::TEXT];
    let put = plan_text::case_text(case, &mut plan);
    answer_output::front(&plan, put);
}
