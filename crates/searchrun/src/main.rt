// A case text on standard input. While its plan is searched, a line on standard output for each round that brings figures: `round`, its number, how
// many placements have a figure so far, and the largest figure so far. Then what program signalplan writes.
#![tactic(auto)]

fn main() {
    search_io::write_search();
}
