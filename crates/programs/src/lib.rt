// What the programs `formula` and `procedure` do: read a file whole, work out what is to be written, and write it. What is written is a
// definition's value for every file (specs/Output); that the operating system takes it all is not known here, so a short write is told on
// standard error. The programs end with status 0 all the same: whoever runs them takes a line there for a failure.
#![tactic(auto)]

ghost use Rattle.std.specs.Prelude.{◌≡◌, ℕ, ◌≤◌, [], ◌∷◌, length, OnOk};
ghost use Rattle.lists.specs.Written.{Wrote};
ghost use Rattle.unmet.specs.Number.{number_of};
ghost use Rattle.questions.specs.Questions.{taken};
ghost use Rattle.encoding.specs.Calls.{checking};
ghost use Rattle.io.specs.Counts.{IsPrefixLen};
ghost use Rattle.std.specs.Io.KnownBytes.{Appends};
ghost use Rattle.programs.specs.Output.{refused_line, formula_lines, formula_text, procedure_text};
ghost use Rattle.programs.specs.Parts.{PartOf, room_of};
ghost use Rattle.programs.specs.Room.{file_room, text_room};

use answer::LISTING_LEAST;
use encoding::TEXT_LEAST;
use std::io::{Read, Write};
use std::rt::Files;
use std::{fs, io};
use unmet::Unmet;

// One byte more than a table or an answer may have, so that a longer file is noticed and not cut.
pub const FILE_ROOM: usize = 65537;

// So long that a formula of some megabytes takes a handful of parts.
pub const TEXT_ROOM: usize = 1048576;

// Reading ------------------------------------------------------------------------------------------------------------------------
// Left free of a buffer: its contents.
pub fn file_buffer() -> [u8; FILE_ROOM]
    ensures { file_room ≡ length result }
{
    [0; FILE_ROOM]
}

fn text_buffer() -> [u8; TEXT_ROOM]
    ensures { text_room ≡ length result }
{
    [0; TEXT_ROOM]
}

// The bytes that a reader gives, as many as buf takes: how many there are, none where a read fails. What they are is the reader's word, and
// left free.
pub fn read_file<R: Read>(file: &mut R, buf: &mut [u8]) -> usize
    ensures { IsPrefixLen result buf.new }
{
    let mut n: usize = 0;
    while n < buf.len() {
        match file.read(&mut buf[n..]) {
            Ok(0) => return n,
            Ok(more) => n += more,
            Err(_) => return 0,
        }
    }
    n
}

// The bytes of the file with that name, left free too. "A file that cannot be opened counts as empty."
pub fn read_named<F: Files>(files: &F, path: &[u8], buf: &mut [u8]) -> usize
    ensures { IsPrefixLen result buf.new }
{
    match open_named(files, path) {
        Ok(mut file) => read_file(&mut file, buf),
        Err(_) => 0,
    }
}

// A name that is no text names no file.
fn open_named<F: Files>(files: &F, path: &[u8]) -> io::Result<F::File> {
    match str::from_utf8(path) {
        Ok(name) => fs::open(files, name),
        Err(_) => Err(io::Error::from(io::ErrorKind::InvalidInput)),
    }
}

// What is written ----------------------------------------------------------------------------------------------------------------
// The line of a refusal, by its number: the bytes are put as in crate `writer`, whose contracts say where.
fn put_refused(text: &mut [u8], unmet: Unmet) -> usize
    requires { 32 ≤ length text.old }
    ensures { Wrote text.old 0 (refused_line (number_of unmet)) text.new result }
{
    let a = writer::put_bytes(text, 0, b"refused\t");
    let b = writer::put_decimal(text, a, unmet.number() as u64);
    writer::put_byte(text, b, b'\n')
}

// A part of what `formula` writes: how many bytes it has, the line that comes behind it, and whether there is none. `next` stands beside
// `last`, and is no Option: `PartOf` says it of the last part too.
#[derive(Clone, Copy)]
pub struct Part {
    pub used: usize,
    pub next: usize,
    pub last: bool,
}

// A refusal is one line, line 0.
fn refused_part(unmet: Unmet, line: usize, text: &mut [u8]) -> Part
    requires { 1024 ≤ length text.old }
    ensures { PartOf (refused_line (number_of unmet) ∷ []) line text.old text.new result }
{
    if line != 0 {
        return Part {
            used: 0,
            next: line,
            last: true,
        };
    }
    Part {
        used: put_refused(text, unmet),
        next: 1,
        last: true,
    }
}

// The lines of an accepted table's formula.
fn lines_part(file: &[u8], clauses: usize, line: usize, text: &mut [u8]) -> Part
    requires { ((n v : ℕ) × (taken (n ∷ v ∷ clauses ∷ []) ≡ checking file.now)) × (1024 ≤ length text.old) }
    ensures { PartOf (formula_lines file.now) line text.old text.new result }
{
    match encoding::write_formula(file, line, text) {
        Ok(lines) => Part {
            used: lines.used,
            next: lines.next,
            last: lines.next > clauses,
        },
        // question 11: no line is left
        Err(_) => Part {
            used: 0,
            next: line,
            last: true,
        },
    }
}

// What `formula` writes from a line on, as many whole lines as fit.
pub fn formula_part(file: &[u8], line: usize, text: &mut [u8]) -> Part
    requires { 1024 ≤ length text.old }
    ensures { PartOf (formula_lines file.now) line text.old text.new result }
{
    match encoding::check(file) {
        Ok(counts) => lines_part(file, counts.clauses, line, text),
        Err(unmet) => refused_part(unmet, line, text),
    }
}

// All that `procedure` writes.
pub fn procedure_text(file: &[u8], reply: &[u8], text: &mut [u8]) -> usize
    requires { 24576 ≤ length text.old }
    ensures { Wrote text.old 0 (procedure_text file.now reply.now) text.new result }
{
    match answer::list_answer(file, reply, text) {
        Ok(used) => used,
        Err(unmet) => put_refused(text, unmet),
    }
}

// Writing ------------------------------------------------------------------------------------------------------------------------
// So much of the text buffer: as asked, but no less than a text call wants and no more than there is.
fn room_for(asked: usize) -> usize
    ensures { result ≡ room_of asked }
{
    asked.clamp(TEXT_LEAST, TEXT_ROOM)
}

// Part by part. What the text holds afterwards is left free, but for its length.
fn print_parts<W: Write>(file: &[u8], text: &mut [u8], out: &mut W) -> io::Result<()>
    requires { 1024 ≤ length text.old }
    ensures length { length text.new ≡ length text.old }
    ensures written { OnOk result (Appends (W.contents out.old) (W.contents out.new) (formula_text file.now)) }
{
    let mut line: usize = 0;
    loop {
        let part = formula_part(file, line, text);
        out.write_all(&text[..part.used])?;
        if part.last {
            return Ok(());
        }
        line = part.next;
    }
}

// Writes what `formula` writes for a table, part by part, each of at most so many bytes.
pub fn write_formula<W: Write>(file: &[u8], room: usize, out: &mut W) -> io::Result<()>
    ensures { OnOk result (Appends (W.contents out.old) (W.contents out.new) (formula_text file.now)) }
{
    let mut text = text_buffer();
    let n = room_for(room);
    print_parts(file, &mut text[..n], out)
}

// Writes what `procedure` writes for a table and an answer.
pub fn write_procedure<W: Write>(file: &[u8], reply: &[u8], out: &mut W) -> io::Result<()>
    ensures { OnOk result (Appends (W.contents out.old) (W.contents out.new) (procedure_text file.now reply.now)) }
{
    let mut text = [0u8; LISTING_LEAST];
    let used = procedure_text(file, reply, &mut text);
    out.write_all(&text[..used])
}

// A program's last word where its output did not go out whole.
fn warn(rt: &impl Eprint, program: &str, written: io::Result<()>) {
    if let Err(error) = written {
        let _ = eprintln!(rt; "{program}: the output could not be written whole: {error}");
    }
}

// The same to standard output. There is no outcome to state here and below: nothing comes back, nothing is lent to be written, and what
// arrives on standard output no contract of the system's calls says.
pub fn print_formula(rt: &(impl Print + Eprint), file: &[u8], room: usize) {
    warn(
        rt,
        "formula",
        write_formula(file, room, &mut io::writer(rt)),
    );
}

pub fn print_procedure(rt: &(impl Print + Eprint), file: &[u8], reply: &[u8]) {
    warn(
        rt,
        "procedure",
        write_procedure(file, reply, &mut io::writer(rt)),
    );
}
