// The cases of the reader: a table that is read is written line by line, with numbers for names that are used. A task is `s` or `j` and its
// number. `ws` is the table.
use crate::print::{bytes, line_end, number, refused, tab, written};
use table::{FactSet, Task};

// The facts of a set, rising, among so many facts; a hyphen where there is none.
fn print_set(rt: &(impl Print + Eprint), set: FactSet, facts: usize) {
    let mut before = false;
    for i in 0..facts {
        if bitset::has(&set, i) {
            if before {
                bytes(rt, b",");
            }
            number(rt, i);
            before = true;
        }
    }
    if !before {
        bytes(rt, b"-");
    }
}

// A line for each of so many names, behind the letter.
fn print_names<'a, F: Fn(usize) -> &'a [u8]>(
    rt: &(impl Print + Eprint),
    letter: &str,
    count: usize,
    name: F,
)
    requires { F.IsAlwaysCallable name }
{
    for i in 0..count {
        written(rt, print!(rt; "{letter}\t"));
        bytes(rt, name(i));
        line_end(rt);
    }
}

fn print_steps(rt: &(impl Print + Eprint), file: &[u8], ws: &[u64]) {
    let facts = table::facts(ws);
    for i in 0..table::steps(ws) {
        bytes(rt, b"S\t");
        bytes(rt, table::step_name(file, ws, i));
        for set in [
            table::needs(ws, i),
            table::sets(ws, i),
            table::clears(ws, i),
        ] {
            tab(rt);
            print_set(rt, set, facts);
        }
        line_end(rt);
    }
}

fn print_task(rt: &(impl Print + Eprint), task: Option<Task>) {
    match task {
        Some(Task::Step(s)) => {
            bytes(rt, b"s");
            number(rt, s);
        }
        Some(Task::Job(j)) => {
            bytes(rt, b"j");
            number(rt, j);
        }
        None => bytes(rt, b"nothing"),
    }
}

fn print_body(rt: &(impl Print + Eprint), ws: &[u64], m: usize) {
    let size = table::body_size(ws, m);
    if size == 0 {
        bytes(rt, b"-");
    }
    for j in 0..size {
        if j > 0 {
            bytes(rt, b",");
        }
        print_task(rt, table::body_task(ws, m, j));
    }
}

fn print_methods(rt: &(impl Print + Eprint), ws: &[u64]) {
    for m in 0..table::methods(ws) {
        bytes(rt, b"M\t");
        number(rt, table::job_of(ws, m));
        tab(rt);
        print_body(rt, ws, m);
        line_end(rt);
    }
}

fn print_ends(rt: &(impl Print + Eprint), ws: &[u64]) {
    bytes(rt, b"I\t");
    print_set(rt, table::start(ws), table::facts(ws));
    bytes(rt, b"\nR\t");
    number(rt, table::root(ws));
    tab(rt);
    number(rt, table::depth(ws));
    line_end(rt);
}

// read TABLE: the number of the first of questions 2 to 7 that is not met, or the table.
pub fn read(rt: &(impl Print + Eprint), file: &[u8]) {
    match table::read(file) {
        Ok(ws) => {
            print_names(
                rt,
                "F",
                table::facts(&ws),
                |i| table::fact_name(file, &ws, i),
            );
            print_steps(rt, file, &ws);
            print_names(rt, "T", table::jobs(&ws), |i| table::job_name(file, &ws, i));
            print_methods(rt, &ws);
            print_ends(rt, &ws);
        }
        Err(unmet) => {
            refused(rt, unmet);
            line_end(rt);
        }
    }
}
