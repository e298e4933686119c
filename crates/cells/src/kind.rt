// The lines of an answer file by their kind, the comments, and the word of an `s` line.
ghost use Rattle.std.specs.Prelude.{◌≡◌, List, ℕ, ◌++◌};
ghost use Rattle.lists.specs.List.{drop_while};
ghost use Rattle.lines.specs.Bytes.{LF};
ghost use Rattle.lines.specs.Parts.{ended};
ghost use Rattle.cells.specs.Kind.{IsKind, is_comment, IsWordIn, IsWord};

use lines::next_line;

// `c` alone; or the letter, a space and more.
#[derive(Clone, Copy, Debug, PartialEq, Eq)]
pub enum Kind {
    Comment,
    Word,
    Values,
    Other,
}

pub fn kind_of(line: &[u8]) -> Kind
    ensures { IsKind line.now result }
{
    match line {
        [b'c'] | [b'c', b' ', ..] => Kind::Comment,
        [b's', b' ', ..] => Kind::Word,
        [b'v', b' ', ..] => Kind::Values,
        _ => Kind::Other,
    }
}

fn is_comment(line: &[u8]) -> bool
    ensures { result ≡ is_comment line.now }
{
    matches!(kind_of(line), Kind::Comment)
}

// The text from its first line on that is no comment. Left free: where it begins, if there is none and no LF ends the last.
pub fn pass_comments(text: &[u8]) -> &[u8]
    ensures lines { ended LF result.now ≡ drop_while is_comment (ended LF text.now) }
    ensures tail { (front : List ℕ) × (text.now ≡ front ++ result.now) }
{
    let mut rest = text;
    while let Some((line, behind)) = next_line(rest) {
        if !is_comment(line) {
            return rest;
        }
        rest = behind;
    }
    rest
}

// SATISFIABLE, or one of the other two words.
#[derive(Clone, Copy, Debug, PartialEq, Eq)]
pub enum Word {
    Satisfiable,
    Other,
}

// The word in these bytes.
fn read_word(word: &[u8]) -> Option<Word>
    ensures { IsWordIn word.now result }
{
    if word == b"SATISFIABLE".as_slice() {
        return Some(Word::Satisfiable);
    }
    if word == b"UNSATISFIABLE".as_slice() || word == b"UNKNOWN".as_slice() {
        return Some(Word::Other);
    }
    None
}

// The word of the line; None where it is no `s` line, or none of the words.
pub fn word_of(line: &[u8]) -> Option<Word>
    ensures { IsWord line.now result }
{
    match kind_of(line) {
        Kind::Word => read_word(&line[2..]),
        Kind::Comment | Kind::Values | Kind::Other => None,
    }
}
