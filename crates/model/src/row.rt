// Is a row of clauses satisfied? A row holds up to 128 clauses, and most rows are satisfied whole by one literal: a few variables tell.
ghost use Rattle.std.specs.Prelude.{◌≡◌, true, ◌+◌, ◌<◌, length};
ghost use Rattle.lists.specs.List.{any, from};
ghost use Rattle.planning.specs.Model.{value, satisfies, truths_in};
ghost use Rattle.places.specs.ClausePlace.{tasks_n};
ghost use Rattle.shape.specs.Views.{table_of, flat};
ghost use Rattle.cursor.specs.Cursor.{Stands, Holds};
ghost use Rattle.model.specs.Clauses.{row_clauses, RowTrue};

use super::{is_on, is_satisfied};
use clause::Codes;
use cursor::Cursor;
use shape::{Encoded, Node};

// Is one of the k variables from v on true?
fn has_on(values: &[u8], v: usize, k: usize) -> bool
    requires { v + k < 18446744073709551616 }
    ensures { result ≡ any (value (truths_in values.now)) (from v k) }
{
    for i in 0..k {
        if is_on(values, v + i) {
            return true;
        }
    }
    false
}

// Is one of the node's task variables true?
fn has_task(node: &Node, values: &[u8]) -> bool
    ensures { result ≡ any (value (truths_in values.now)) (from (flat node.now).first (tasks_n (flat node.now))) }
{
    has_on(values, node.first(), node.tasks())
}

// The tests below are sufficient only: `false` says nothing of the row.
//
// (g) of one child: has the node a true task, or the child none?
fn up_row_holds(e: &Encoded, values: &[u8], c: Cursor) -> bool
    requires { Holds (table_of e.now) c × (c.rule ≡ 1) × (c.group ≡ 6) }
    ensures { result ≡ true → RowTrue (table_of e.now) (value (truths_in values.now)) c }
{
    let node = e.node(c.node);
    has_task(&node, values) || !has_task(&node.child(c.x), values)
}

// Rule 2: all clauses of a row of (a), (b), (e) and (f) begin with the same variable, negated.
fn node_row_holds(e: &Encoded, values: &[u8], c: Cursor) -> bool
    requires { Holds (table_of e.now) c × (c.rule ≡ 1) }
    ensures { result ≡ true → RowTrue (table_of e.now) (value (truths_in values.now)) c }
{
    let node = e.node(c.node);
    match c.group {
        0 | 5 => !is_on(values, node.own_variable(c.x)),
        1 | 4 => !is_on(values, node.method_variable(c.x)),
        6 => up_row_holds(e, values, c),
        _ => false,
    }
}

// Rule 4: so do the effects of a step. A fact that is the same before and after the slot neither falls nor rises there.
fn slot_row_holds(e: &Encoded, values: &[u8], c: Cursor) -> bool
    requires { Holds (table_of e.now) c × (c.rule ≡ 3) }
    ensures { result ≡ true → RowTrue (table_of e.now) (value (truths_in values.now)) c }
{
    if c.group == 0 {
        return !is_on(values, e.slot(c.node).variable(c.x));
    }
    let before = is_on(values, e.fact_variable(c.node, c.x));
    let after = is_on(values, e.fact_variable(c.node + 1, c.x));
    before == after
}

// Is every clause of the row of c satisfied? A sufficient test only: `false` says nothing of the row.
fn row_holds(e: &Encoded, values: &[u8], c: Cursor) -> bool
    requires { Holds (table_of e.now) c }
    ensures { result ≡ true → RowTrue (table_of e.now) (value (truths_in values.now)) c }
{
    match c.rule {
        1 => node_row_holds(e, values, c),
        3 => slot_row_holds(e, values, c),
        _ => false,
    }
}

// Is every clause of the row of c, from c on? A row that is seen to be satisfied is not gone through. The contents of `lits` afterwards are
// left free.
pub fn is_row_satisfied(e: &Encoded, values: &[u8], lits: &mut Codes, c: Cursor) -> bool
    requires { Stands (table_of e.now) c }
    ensures { result ≡ satisfies (value (truths_in values.now)) (row_clauses (table_of e.now) c) }
{
    if c.i >= c.len || row_holds(e, values, c) {
        return true;
    }
    for i in c.i..c.len {
        if !is_satisfied(e, values, lits, Cursor { i, ..c }) {
            return false;
        }
    }
    true
}
