// Reads a table from standard input and writes its formula to standard output, or `refused`, a tab and the number of the first question
// that is not met. Standard error stays empty, unless the output could not be written whole.
#![tactic(auto)]

fn main(rt: HostRuntime) {
    let mut file = programs::file_buffer();
    let n = programs::read_file(&mut rt.stdin(), &mut file);
    programs::print_formula(&rt, &file[..n], programs::TEXT_ROOM);
}
