// A case text on standard input; how many of its placements lead home, and with which figures, on standard output; or `refused`, a tab and the number.
#![tactic(auto)]

fn main() {
    counts_io::write_counts();
}
