// The form of a table file: names, lists, fields and lines, and questions 2 and 3. A part is a slice of the file, as in crate `lines`.
// Inside the reader: crates `outline` and `rows` call what is lent here, and other crates use the contracts of `table`.
#![tactic(auto)]

ghost use Rattle.std.specs.Prelude.{◌≡◌, length};
ghost use Rattle.lines.specs.Parts.{split, lines_of};
ghost use Rattle.grammar.specs.Byte.{of_name, tab};
ghost use Rattle.grammar.specs.Name.{is_name, is_hyphen, is_list, names_in};
ghost use Rattle.grammar.specs.Line.{is_depth, has_form, formed, is_line, begins, field};
ghost use Rattle.grammar.specs.File.{met2, met3};
ghost use Rattle.grammar.specs.Field.{At, form_of, forms_of};

use Form::{Depth, List, Name};
use lines::{next_line, split_first};

// What a field has to be.
#[derive(Clone, Copy)]
enum Form {
    Name,
    List,
    Depth,
}

// A lowercase letter, a digit or a hyphen.
#[tactic(auto, using(crate::proofs::Bytes::of_name_is, std::proofs::lemmas::Bool::Decides::nat_tests))]
fn is_of_name(b: u8) -> bool
    ensures { result ≡ of_name b }
{
    matches!(b, b'a'..=b'z' | b'0'..=b'9' | b'-')
}

fn is_name(field: &[u8]) -> bool
    ensures { result ≡ is_name field.now }
{
    match field {
        [b'a'..=b'z', rest @ ..] => rest.len() <= 11 && rest.iter().all(|b| is_of_name(*b)),
        _ => false,
    }
}

#[tactic(auto, using(crate::proofs::Bytes::hyphen_is, std::proofs::lemmas::Bool::Decides::nat_tests))]
pub fn is_hyphen(field: &[u8]) -> bool
    ensures { result ≡ is_hyphen field.now }
{
    matches!(field, b"-")
}

fn is_list(field: &[u8]) -> bool
    ensures { result ≡ is_list field.now }
{
    is_hyphen(field) || field.split(|b| *b == b',').all(is_name)
}

#[tactic(auto, using(crate::proofs::Bytes::depth_is, std::proofs::lemmas::Bool::Decides::nat_tests))]
fn is_depth(field: &[u8]) -> bool
    ensures { result ≡ is_depth field.now }
{
    matches!(field, [b'1'..=b'8'])
}

#[tactic(auto, unfolding(crate::specs::Field::form_of, crate::specs::Line::has_form))]
fn has_form(field: &[u8], form: Form) -> bool
    ensures { result ≡ has_form (form_of form) field.now }
{
    match form {
        Name => is_name(field),
        List => is_list(field),
        Depth => is_depth(field),
    }
}

// Are the fields that tabs part of these forms?
fn are_fields(fields: &[u8], forms: &[Form]) -> bool
    ensures { result ≡ formed (split tab fields.now) (forms_of forms.now) }
{
    let mut left = Some(fields);
    for form in forms {
        let Some(fields) = left else {
            return false;
        };
        let (field, behind) = split_first(fields, b'\t');
        if !has_form(field, *form) {
            return false;
        }
        left = behind;
    }
    left.is_none()
}

// Question 3 for a line.
fn is_line(line: &[u8]) -> bool
    ensures { result ≡ is_line line.now }
{
    let (letter, fields) = split_first(line, b'\t');
    let Some(fields) = fields else {
        return false;
    };
    let [first] = letter else {
        return false;
    };
    match *first {
        b'F' => are_fields(fields, &[Name]),
        b'S' => are_fields(fields, &[Name, List, List, List]),
        b'T' => are_fields(fields, &[Name]),
        b'M' => are_fields(fields, &[Name, List]),
        b'I' => are_fields(fields, &[List]),
        b'R' => are_fields(fields, &[Name, Depth]),
        _ => false,
    }
}

// Question 3.
#[tactic(auto, using(crate::proofs::Files::met3_is))]
pub fn are_lines(file: &[u8]) -> bool
    ensures { result ≡ met3 (lines_of file.now) }
{
    let mut text = file;
    while let Some((line, behind)) = next_line(text) {
        if !is_line(line) {
            return false;
        }
        text = behind;
    }
    true
}

// Question 2.
#[tactic(auto, using(crate::proofs::Files::met2_is, std::proofs::lemmas::Bool::Decides::nat_tests))]
pub fn fits_and_ends(file: &[u8]) -> bool
    ensures { result ≡ met2 file.now }
{
    file.len() <= 65536 && file.ends_with(b"\n")
}

// Does the line begin with the byte c?
#[tactic(auto, using(crate::proofs::Files::begins_is))]
pub fn line_begins(line: &[u8], c: u8) -> bool
    ensures { result ≡ begins c line.now }
{
    line.starts_with(&[c])
}

// Field k of the line; empty, where the line has none.
pub fn field_at(line: &[u8], k: usize) -> &[u8]
    ensures bytes { result.now ≡ field line.now k }
    ensures place { At line.now k result.now }
{
    line.split(|b| *b == b'\t').nth(k).unwrap_or(&[])
}

// How many names the list has.
pub fn count_names(list: &[u8]) -> usize
    ensures { result ≡ length (names_in list.now) }
{
    if is_hyphen(list) {
        0
    } else {
        list.split(|b| *b == b',').count()
    }
}
