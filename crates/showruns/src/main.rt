// A case text on standard input. On standard output, before any search, a line for each train: `run`, its number, and
// the fewest sections that it enters from its start to its destination, or `none`; then `least` and the sum of these,
// which is what any plan takes at least, or `none` where a train has no run. A case that is refused: `refused` and the
// number.
#![tactic(auto)]

fn main() {
    runs_io::write_runs();
}
