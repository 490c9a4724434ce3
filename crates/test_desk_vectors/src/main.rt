// Desks, each followed by a script of calls. Standard input is records (crate test_framing), two for each: a case text of at most 1,024 placements, and a script (crate test_script), which
// asks for no change: there is no new case.
#![tactic(auto)]

use test_framing::STDOUT_FILENO;

fn main() {
    for _ in 0..u64::MAX {
        let mut case = io::large_buffer();
        let mut script = io::large_buffer();
        let (Some(n), Some(m)) = test_framing::next_pair(&mut case, &mut script, b"no script\n")
        else {
            return;
        };
        if !run(&case[..n], &script[..m]) {
            return;
        }
    }
}

fn run(case: &[u8], script: &[u8]) -> bool {
    if test_script::run_script(case, b"", script) {
        return true;
    }
    io::write_all(STDOUT_FILENO, b"case refused\n");
    false
}
