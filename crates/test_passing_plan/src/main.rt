// What program plancheck does, on a plan that passes: Yard A's own.
#![tactic(auto)]

fn main(rt: HostRuntime) {
    check_io::write_verdict(&rt);
}
