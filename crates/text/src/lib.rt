// The lines of a formula, written from a given line on, as many as fit. The place travels beside the bytes, as in crate `writer`.
#![tactic(auto)]

ghost use Rattle.std.specs.Prelude.{◌≡◌, ◌+◌, ◌≤◌, ◌<◌, length};
ghost use Rattle.planning.specs.Clause.{formula};
ghost use Rattle.planning.specs.Variable.{variables as variablesOf};
ghost use Rattle.shape.specs.Views.{table_of};
ghost use Rattle.cursor.specs.Cursor.{Holds, In};
ghost use Rattle.text.specs.Lines.{line_at, lines_from, PutLine, Put, PutText};

use clause::Codes;
use cursor::Cursor;
use shape::Encoded;

// How many bytes are used, and the line that comes next.
#[derive(Clone, Copy)]
pub struct Lines {
    pub used: usize,
    pub next: usize,
}

// The line of the clause at c, where it fits: its end comes back. If not, nothing is written. Its literals go through `lits`; what that
// holds afterwards is left free.
fn put_line(e: &Encoded, lits: &mut Codes, text: &mut [u8], at: usize, c: Cursor) -> Option<usize>
    requires { Holds (table_of e.now) c × (at ≤ length text.old) }
    ensures { PutLine (line_at (table_of e.now) c) at text.old text.new result }
{
    clause::fill_codes(lits, e, c.rule, c.node, c.group, c.x, c.y, c.i);
    let clause = lits.as_slice();
    if writer::clause_fits(clause, text.len() - at) {
        Some(writer::put_clause(text, at, clause))
    } else {
        None
    }
}

// The lines from the cursor on; j is the number of the first.
fn put_lines(e: &Encoded, text: &mut [u8], start: usize, c: Cursor, j: usize) -> Lines
    requires { In (table_of e.now) c × (start ≤ length text.old) × (j + length (lines_from (table_of e.now) c) < 18446744073709551616) }
    ensures { Put (lines_from (table_of e.now) c) start j text.old text.new result }
{
    let mut lits = Codes::new();
    let mut cursor = c;
    let mut lines = Lines {
        used: start,
        next: j,
    };
    while let Some((place, behind)) = cursor.next(e) {
        let Some(used) = put_line(e, &mut lits, text, lines.used, place) else {
            return lines;
        };
        lines = Lines {
            used,
            next: lines.next + 1,
        };
        cursor = behind;
    }
    lines
}

// The text from a line on: line 0 is the header, line j the jth clause.
pub fn put_text(
    e: &Encoded,
    text: &mut [u8],
    variables: usize,
    clauses: usize,
    line: usize,
) -> Lines
    requires { (variables ≡ variablesOf (table_of e.now)) × (clauses ≡ length (formula (table_of e.now))) × (clauses ≤ 3758096384)
        × (line ≤ clauses) }
    ensures { PutText (table_of e.now) line text.old text.new result }
{
    if line > 0 {
        return put_lines(e, text, 0, cursor::seek(e, line - 1), line);
    }
    let n = writer::header_size(variables as u64, clauses as u64);
    if n > text.len() {
        return Lines { used: 0, next: 0 };
    }
    let at = writer::put_header(text, 0, variables as u64, clauses as u64);
    put_lines(e, text, at, cursor::seek(e, 0), 1)
}
