// The case of file case.txt in the working folder, followed at a desk: reports on standard input, a line each, train, tab, section; on standard output a line for each state, `home` for
// the last, or `refused`, a tab and the number. A line `change`, tab, name of a file has the desk go over to the case in that file.
#![tactic(auto)]

fn main(rt: HostRuntime) {
    desk_io::write_desk(&rt);
}
