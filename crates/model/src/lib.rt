// Question 15: is every clause satisfied by these values? Variable v's value stands at place v - 1: 1 if it is true.
#![tactic(auto)]

mod row;

ghost use Rattle.std.specs.Prelude.{◌≡◌, length};
ghost use Rattle.planning.specs.Clause.{formula};
ghost use Rattle.planning.specs.Model.{value, lit_true, clause_true, satisfies, truths_in};
ghost use Rattle.writer.specs.Literal.{lit_in, clause_in};
ghost use Rattle.shape.specs.Views.{table_of};
ghost use Rattle.cursor.specs.Cursor.{Holds};
ghost use Rattle.model.specs.Clauses.{clause_at};

use clause::Codes;
use cursor::Cursor;
use shape::Encoded;

// Is variable v true?
fn is_on(values: &[u8], v: usize) -> bool
    ensures { result ≡ value (truths_in values.now) v }
{
    v > 0 && v <= values.len() && 1 == values[v - 1]
}

// Is the literal true that a number stands for?
fn is_true(values: &[u8], code: u64) -> bool
    ensures { result ≡ lit_true (value (truths_in values.now)) (lit_in code) }
{
    let on = is_on(values, (code / 2) as usize);
    if code % 2 == 0 { on } else { !on }
}

// Is one of the clause's literals true?
fn has_true(values: &[u8], lits: &[u64]) -> bool
    ensures { result ≡ clause_true (value (truths_in values.now)) (clause_in lits.now) }
{
    for code in lits {
        if is_true(values, *code) {
            return true;
        }
    }
    false
}

// Is the clause at c satisfied? Its literals go through `lits`, whose contents afterwards are left free.
fn is_satisfied(e: &Encoded, values: &[u8], lits: &mut Codes, c: Cursor) -> bool
    requires { Holds (table_of e.now) c }
    ensures { result ≡ clause_true (value (truths_in values.now)) (clause_at (table_of e.now) c) }
{
    clause::fill_codes(lits, e, c.rule, c.node, c.group, c.x, c.y, c.i);
    has_true(values, lits.as_slice())
}

// Is every clause? Row by row.
pub fn is_model(e: &Encoded, values: &[u8]) -> bool
    ensures { result ≡ satisfies (value (truths_in values.now)) (formula (table_of e.now)) }
{
    let mut lits = Codes::new();
    let mut c = cursor::seek(e, 0);
    while c.rule < 4 {
        if !row::is_row_satisfied(e, values, &mut lits, c) {
            return false;
        }
        c = c.past_row(e);
    }
    true
}
