// Reads the solver's answer: questions 12 to 14, and the values. There is a cell for each variable: its value, or 2 where it has not
// stood yet, and no Option: where all have stood the cells are the values, and are read and copied as such. Question 12 goes over the whole file
// first, so a number that question 14 does not take is only noted.
#![tactic(auto)]

mod kind;
mod number;
mod state;

ghost use Rattle.std.specs.Prelude.{◌≡◌, ◌&&◌, length, replicate, leb, ltb};
ghost use Rattle.lists.specs.List.{all};
ghost use Rattle.lines.specs.Bytes.{LF};
ghost use Rattle.lines.specs.Parts.{ended};
ghost use Rattle.solver.specs.Line.{satisfiable};
ghost use Rattle.solver.specs.File.{all_ended};
ghost use Rattle.solver.specs.Scan.{begin, read_lines, decide};
ghost use Rattle.unmet.specs.Number.{number_of, unmet_in};
ghost use Rattle.cells.specs.State.{reading_from};
ghost use Rattle.std.proofs.Math.Option.{some};
ghost use Rattle.cells.specs.Read.{Told, Read, only_comments};

use kind::{Word, pass_comments, word_of};
use lines::next_line;
use state::{State, read_lines};
use unmet::Unmet;

// Question 12, of the file's length and last byte. Crate `grammar` puts question 2 to a table by another definition, and in words of its own.
fn fits_and_ends(answer: &[u8]) -> bool
    ensures { result ≡ (leb (length answer.now) 65536 && all_ended answer.now) }
{
    answer.len() <= 65536 && answer.last() == Some(&b'\n')
}

// No variable has stood.
fn clear(cells: &mut [u8])
    ensures { cells.new ≡ replicate (length cells.old) 2 }
{
    cells.fill(2);
}

// Has every variable stood?
fn all_stood(cells: &[u8]) -> bool
    ensures { result ≡ all (λ c. ltb c 2) cells.now }
{
    cells.iter().all(|c| *c < 2)
}

// Questions 12 to 14 at the end of the file, after SATISFIABLE.
fn judge(state: State, cells: &[u8]) -> Result<(), Unmet>
    ensures { Told (decide satisfiable (some (reading_from state cells.now))) (length cells.now) cells.now (unmet_in result) }
{
    if !state.ended {
        return Err(Unmet::AnswerFormed);
    }
    if state.off || !all_stood(cells) {
        return Err(Unmet::EachOnce);
    }
    Ok(())
}

// What stands behind SATISFIABLE.
fn read_values(text: &[u8], cells: &mut [u8]) -> Result<(), Unmet>
    ensures { Told (decide satisfiable (read_lines satisfiable (begin (length cells.old)) (ended LF text.now))) (length cells.old)
        cells.new (unmet_in result) }
{
    clear(cells);
    let state = read_lines(text, cells).ok_or(Unmet::AnswerFormed)?;
    judge(state, cells)
}

// What stands behind one of the other two words: "there are no `v` lines".
fn read_others(text: &[u8]) -> Unmet
    ensures { number_of result ≡ only_comments (ended LF text.now) }
{
    match next_line(pass_comments(text)) {
        None => Unmet::Satisfiable,
        Some(_) => Unmet::AnswerFormed,
    }
}

// Reads an answer for as many variables as there are cells: questions 12 to 14, of which the first that is not met comes back. Where all
// are met the cells are the values. On a refusal what the cells hold is left free.
pub fn read(answer: &[u8], cells: &mut [u8]) -> Result<(), Unmet>
    ensures { Read (length cells.old) answer.now cells.new (unmet_in result) }
{
    if !fits_and_ends(answer) {
        return Err(Unmet::AnswerFormed);
    }
    let rest = pass_comments(answer);
    let Some((line, behind)) = next_line(rest) else {
        return Err(Unmet::AnswerFormed);
    };
    match word_of(line) {
        Some(Word::Satisfiable) => read_values(behind, cells),
        Some(Word::Other) => Err(read_others(behind)),
        None => Err(Unmet::AnswerFormed),
    }
}
