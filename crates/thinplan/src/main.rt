// The case of file case.txt in the working folder and a plan on standard input; the text of the lean plan on standard output, or `refused`, a tab and the number.
#![tactic(auto)]

fn main(rt: HostRuntime) {
    thin_io::write_lean(&rt);
}
