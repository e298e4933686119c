// Writes bytes, numbers and the fields of an outcome's line. Each goes out by a write of its own: where one fails, standard error says so of
// that one, and the next is tried all the same.
use std::io;
use unmet::Unmet;

// Was it written whole? If not, standard error says so.
pub fn written(rt: &impl Eprint, outcome: io::Result<()>) {
    if let Err(error) = outcome {
        let _ = eprintln!(rt; "stored: the output could not be written whole: {error}");
    }
}

pub fn bytes(rt: &(impl Print + Eprint), text: &[u8]) {
    written(rt, rt.write_all(text));
}

pub fn number(rt: &(impl Print + Eprint), n: usize) {
    word(rt, n as u64);
}

pub fn word(rt: &(impl Print + Eprint), n: u64) {
    written(rt, rt.print(n));
}

pub fn tab(rt: &(impl Print + Eprint)) {
    bytes(rt, b"\t");
}

pub fn line_end(rt: &(impl Print + Eprint)) {
    bytes(rt, b"\n");
}

// A refusal, with the line still open.
pub fn refused(rt: &(impl Print + Eprint), unmet: Unmet) {
    bytes(rt, b"refused");
    tab(rt);
    number(rt, unmet.number());
}

// The first n bytes of a buffer.
pub fn part(rt: &(impl Print + Eprint), text: &[u8], n: usize) {
    let m = cases::bytes_within(n, text);
    bytes(rt, &text[..m]);
}

// The line's last field: do the bytes from `at` on have the value 7 that they had before?
pub fn kept_from(rt: &(impl Print + Eprint), buffer: &[u8], at: usize) {
    let is_kept = buffer.iter().skip(at).all(|b| *b == 7);
    let word = if is_kept { "kept" } else { "changed" };
    written(rt, println!(rt; "\t{word}"));
}
