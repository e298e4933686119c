// How far an answer is read behind SATISFIABLE, number by number, part by part and line by line. None: it is not formed.
ghost use Rattle.std.specs.Prelude.{◌≡◌, length, replicate};
ghost use Rattle.planning.specs.Clause.{literal};
ghost use Rattle.lines.specs.Bytes.{LF};
ghost use Rattle.lines.specs.Parts.{split, ended};
ghost use Rattle.solver.specs.Line.{satisfiable};
ghost use Rattle.solver.specs.Number.{number_of};
ghost use Rattle.solver.specs.Scan.{begin, read_number, read_part, read_parts, read_line, read_lines};
ghost use Rattle.cells.specs.State.{reading_from, Stands, Put};

use crate::kind::{Kind, kind_of};
use crate::number::{Literal, read_number};
use lines::{next_line, split_first};

// Puts the value of a variable, and tells whether it had not stood: a number of no variable is put nowhere.
fn put(cells: &mut [u8], number: Literal) -> bool
    ensures { Put (literal number.sign number.variable) cells.old cells.new result }
{
    let Some(i) = number.variable.checked_sub(1) else {
        return false;
    };
    if cells.get(i) != Some(&2) {
        return false;
    }
    cells[i] = u8::from(number.sign);
    true
}

// Was the 0 read, did a number stand that is of no variable or of one that stood before?
#[derive(Clone, Copy, Debug, PartialEq, Eq)]
pub struct State {
    pub ended: bool,
    pub off: bool,
}

impl State {
    // One more number. Nothing comes after the 0.
    fn take_number(self, number: Literal, cells: &mut [u8]) -> Option<State>
        ensures { Stands result cells.new (read_number satisfiable (reading_from self cells.old) (literal number.sign number.variable)) }
    {
        if self.ended {
            return None;
        }
        if number.variable == 0 {
            return Some(State {
                ended: true,
                ..self
            });
        }
        if put(cells, number) {
            return Some(self);
        }
        Some(State { off: true, ..self })
    }

    // One more part of a `v` line.
    fn read_part(self, part: &[u8], cells: &mut [u8]) -> Option<State>
        ensures { Stands result cells.new (read_part satisfiable (reading_from self cells.old) (number_of part.now)) }
    {
        self.take_number(read_number(part)?, cells)
    }

    // The numbers of a `v` line, one space between.
    fn read_parts(self, numbers: &[u8], cells: &mut [u8]) -> Option<State>
        ensures { Stands result cells.new (read_parts satisfiable (reading_from self cells.old) (split 32 numbers.now)) }
    {
        let mut state = self;
        let mut rest = numbers;
        loop {
            let (part, behind) = split_first(rest, b' ');
            state = state.read_part(part, cells)?;
            let Some(more) = behind else {
                return Some(state);
            };
            rest = more;
        }
    }

    // A line behind the `s` line.
    fn read_line(self, line: &[u8], cells: &mut [u8]) -> Option<State>
        ensures { Stands result cells.new (read_line satisfiable (reading_from self cells.old) line.now) }
    {
        match kind_of(line) {
            Kind::Comment => Some(self),
            Kind::Values => self.read_parts(&line[2..], cells),
            Kind::Word | Kind::Other => None,
        }
    }
}

// The lines behind the `s` line, over cells of which none has stood.
pub fn read_lines(text: &[u8], cells: &mut [u8]) -> Option<State>
    requires { cells.old ≡ replicate (length cells.old) 2 }
    ensures { Stands result cells.new (read_lines satisfiable (begin (length cells.old)) (ended LF text.now)) }
{
    let mut state = State {
        ended: false,
        off: false,
    };
    let mut rest = text;
    while let Some((line, behind)) = next_line(rest) {
        state = state.read_line(line, cells)?;
        rest = behind;
    }
    Some(state)
}
