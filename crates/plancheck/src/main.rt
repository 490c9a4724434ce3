// The case of file case.txt in the working folder and a plan on standard input; `pass` on standard output, or `refused`, a tab and the number.
#![tactic(auto)]

fn main(rt: HostRuntime) {
    check_io::write_verdict(&rt);
}
