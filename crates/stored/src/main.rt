// Runs stored cases through what the programs run, and through the calls below it. A case is a line of `index`: its kind, a table, an answer
// or `-`, and numbers, with tabs between. It writes the line and, on the lines behind it, the outcome.
#![tactic(auto)]

mod calls;
mod print;
mod reader;

use std::rt::Files;

// More than the index has.
const INDEX_ROOM: usize = 262144;

fn run(rt: &(impl Print + Eprint), kind: &[u8], file: &[u8], reply: &[u8], a: usize, b: usize) {
    match kind {
        b"formula" => programs::print_formula(rt, file, a),
        b"procedure" => programs::print_procedure(rt, file, reply),
        b"read" => reader::read(rt, file),
        b"check" => calls::check(rt, file),
        b"text" => calls::text(rt, file, a, b),
        b"whole" => calls::whole(rt, file, a),
        b"list" => calls::list(rt, file, reply, a),
        _ => {}
    }
}

fn run_case(rt: &(impl Files + Print + Eprint), line: &[u8]) {
    let mut file = programs::file_buffer();
    let mut reply = programs::file_buffer();
    let n = programs::read_named(rt, cases::field(line, 1), &mut file);
    let m = programs::read_named(rt, cases::field(line, 2), &mut reply);
    print::bytes(rt, line);
    print::line_end(rt);
    run(
        rt,
        cases::field(line, 0),
        &file[..n],
        &reply[..m],
        cases::number(line, 3),
        cases::number(line, 4),
    );
}

fn run_cases(rt: &(impl Files + Print + Eprint), index: &[u8]) {
    let mut left = index;
    while !left.is_empty() {
        let (line, behind) = lines::split_first(left, b'\n');
        run_case(rt, line);
        left = behind.unwrap_or(&[]);
    }
}

fn main(rt: HostRuntime) {
    let mut index = [0u8; INDEX_ROOM];
    let n = programs::read_named(&rt, b"index", &mut index);
    run_cases(&rt, &index[..n]);
}
