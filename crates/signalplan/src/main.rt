// A case text on standard input; its plan on standard output, or `none`, or `refused`, a tab and the number.
#![tactic(auto)]

fn main() {
    plan_io::write_plan();
}
