// Reads `table.tab` and `answer.txt` of the working directory and writes the procedure that the answer gives to standard output, or
// `refused`, a tab and the number of the first question that is not met. Standard error stays empty, unless the output could not be written
// whole.
#![tactic(auto)]

fn main(rt: HostRuntime) {
    let mut file = programs::file_buffer();
    let mut reply = programs::file_buffer();
    let n = programs::read_named(&rt, b"table.tab", &mut file);
    let m = programs::read_named(&rt, b"answer.txt", &mut reply);
    programs::print_procedure(&rt, &file[..n], &reply[..m]);
}
