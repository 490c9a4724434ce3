// What program plancheck does, on a plan that program thinplan has written: the one that the gate sees it write.
#![tactic(auto)]

fn main(rt: HostRuntime) {
    check_io::write_verdict(&rt);
}
