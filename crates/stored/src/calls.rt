// The cases that make calls: each writes what the call hands out and leaves. Every byte of a buffer is 7 before, so that one written in a
// wrong place shows.
ghost use Rattle.std.specs.Prelude.{◌≡◌, ◌≤◌, ◌++◌, length, take, drop};
ghost use Rattle.cases.specs.Within.{within};
ghost use Rattle.encoding.specs.Calls.{text_from, writing_formula, formula_after};
ghost use Rattle.answer.specs.Calls.{listed_from, showing_answer, answer_listing_after};

use crate::print;
use encoding::Lines;
use unmet::Unmet;

// check TABLE: how many nodes, variables and clauses there are.
pub fn check(rt: &(impl Print + Eprint), file: &[u8]) {
    match encoding::check(file) {
        Ok(counts) => {
            print::number(rt, counts.nodes);
            print::tab(rt);
            print::number(rt, counts.variables);
            print::tab(rt);
            print::number(rt, counts.clauses);
        }
        Err(unmet) => print::refused(rt, unmet),
    }
    print::line_end(rt);
}

// The outcome of a text call, and a checksum of the buffer.
fn print_text(rt: &(impl Print + Eprint), outcome: Result<Lines, Unmet>, buffer: &[u8]) {
    match outcome {
        Ok(lines) => {
            print::number(rt, lines.used);
            print::tab(rt);
            print::number(rt, lines.next);
        }
        Err(unmet) => print::refused(rt, unmet),
    }
    print::tab(rt);
    print::word(rt, cases::checksum_bytes(cases::checksum_start(), buffer));
    print::line_end(rt);
}

// A text call with the first n bytes of the buffer.
fn write_into(file: &[u8], line: usize, buffer: &mut [u8], n: usize) -> Result<Lines, Unmet>
    ensures { (text_from result ≡ writing_formula file.now line (take (within n (length buffer.old)) buffer.old))
        × (buffer.new ≡ formula_after file.now line (take (within n (length buffer.old)) buffer.old)
        ++ drop (within n (length buffer.old)) buffer.old) }
{
    let m = cases::bytes_within(n, buffer);
    encoding::write_formula(file, line, &mut buffer[..m])
}

// text TABLE - LINE LENGTH: the formula's text from a line on, into so many bytes.
pub fn text(rt: &(impl Print + Eprint), file: &[u8], line: usize, length: usize) {
    let mut buffer = [7u8; 65536];
    let outcome = write_into(file, line, &mut buffer, length);
    print_text(rt, outcome, &buffer);
}

fn print_sum(rt: &(impl Print + Eprint), bytes: usize, parts: usize, sum: u64) {
    print::number(rt, bytes);
    print::tab(rt);
    print::number(rt, parts);
    print::tab(rt);
    print::word(rt, sum);
    print::line_end(rt);
}

// All parts of what `formula` writes: bytes, parts, and the checksum of the bytes. Of the text only its length is known afterwards.
fn whole_into(rt: &(impl Print + Eprint), file: &[u8], text: &mut [u8])
    requires { 1024 ≤ length text.old }
    ensures { length text.new ≡ length text.old }
{
    let mut bytes: usize = 0;
    let mut parts: usize = 0;
    let mut sum = cases::checksum_start();
    let mut line: usize = 0;
    loop {
        let part = programs::formula_part(file, line, text);
        bytes = bytes.wrapping_add(part.used);
        parts = parts.wrapping_add(1);
        sum = cases::checksum_bytes(sum, &text[..part.used]);
        if part.last {
            print_sum(rt, bytes, parts, sum);
            return;
        }
        line = part.next;
    }
}

// whole TABLE - LENGTH: what `formula` writes, in parts of at most so many bytes.
pub fn whole(rt: &(impl Print + Eprint), file: &[u8], length: usize) {
    let mut buffer = [0u8; 65536];
    let n = cases::bytes_within(length, &buffer);
    if n >= 1024 {
        whole_into(rt, file, &mut buffer[..n]);
    }
}

// A listing call with the first n bytes of the buffer.
fn list_into(file: &[u8], reply: &[u8], buffer: &mut [u8], n: usize) -> Result<usize, Unmet>
    ensures { (listed_from result ≡ showing_answer file.now reply.now
        (take (within n (length buffer.old)) buffer.old))
        × (buffer.new ≡ answer_listing_after file.now reply.now
        (take (within n (length buffer.old)) buffer.old)
        ++ drop (within n (length buffer.old)) buffer.old) }
{
    let m = cases::bytes_within(n, buffer);
    answer::list_answer(file, reply, &mut buffer[..m])
}

// list TABLE ANSWER LENGTH: the listing of an answer's procedure, into so many bytes; behind the line the listing.
pub fn list(rt: &(impl Print + Eprint), file: &[u8], reply: &[u8], length: usize) {
    let mut buffer = [7u8; 24600];
    match list_into(file, reply, &mut buffer, length) {
        Ok(used) => {
            print::number(rt, used);
            print::kept_from(rt, &buffer, used);
            print::part(rt, &buffer, used);
        }
        Err(unmet) => {
            print::refused(rt, unmet);
            print::kept_from(rt, &buffer, 0);
        }
    }
}
