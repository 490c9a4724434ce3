// What program signalplan does, on a text of one byte too many: it is refused for its length, though its other bytes are in form.
#![tactic(auto)]

fn main() {
    plan_io::write_plan();
}
