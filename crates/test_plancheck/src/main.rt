// Cases and plans from files of the working folder, read and checked as program plancheck does: a plan of 443 lines, which comes in two pieces, the same
// with its last line wrong, and with its last line out of form; a case text of 4,096 bytes, with signals named twice, and one of 4,097; a case and a plan
// that are not there.
#![tactic(auto)]

fn main(rt: HostRuntime) {
    check(&rt, "line.txt", "line-plan.txt");
    check(&rt, "line.txt", "last-line-wrong.txt");
    check(&rt, "line.txt", "last-line-out-of-form.txt");
    check(&rt, "4096-bytes.txt", "line-plan.txt");
    check(&rt, "4097-bytes.txt", "line-plan.txt");
    check(&rt, "missing.txt", "line-plan.txt");
    check(&rt, "line.txt", "missing.txt");
}

fn check(rt: &HostRuntime, case_name: &str, plan_name: &str) {
    let mut case = io::large_buffer();
    let mut plan = io::large_buffer();
    let mut line = [0u8; answer_output::LINE];
    let mut case_file = file_input::open(rt, case_name);
    let mut plan_file = file_input::open(rt, plan_name);
    let heard = check_files::check_files(
        &mut case_file,
        &mut plan_file,
        &mut case,
        &mut plan,
        &mut line,
    );
    let put = heard.line;
    answer_output::front(&line, put);
}
