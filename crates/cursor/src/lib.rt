// The clause cursor: seven numbers by value. Its method hands back the next clause's place and itself advanced.
#![tactic(auto)]

mod count;

ghost use Rattle.std.specs.Prelude.{◌≡◌, ◌≤◌, ◌<◌};
ghost use Rattle.places.specs.Nest.{at};
ghost use Rattle.shape.specs.Shape.{HasLetter};
ghost use Rattle.shape.specs.Views.{table_of, source_of};
ghost use Rattle.cursor.specs.Cursor.{of_pos, at_end, next_of, Means, Stands, In, Handed, Moved, NodePassed, SoughtRow, Found};

pub use count::{count_all, count_node};
use shape::Encoded;

// A place among the clauses: rule, node, letter, row and clause of the row; and how many clauses the row has, worked out once a row. As a
// cursor it stands just behind the last clause handed out. That it stands in the formula of a table is said where both are at hand: a cursor
// is copied on every move, and would carry the table with it.
#[derive(Clone, Copy)]
pub struct Cursor {
    // 4 is the end. Rules and letters stay numbers: the laws of places and their order, which the cursor goes by, are laws of numbers
    pub rule: usize,
    pub node: usize,
    pub group: usize,
    pub x: usize,
    pub y: usize,
    pub i: usize,
    pub len: usize,
}

// Where row (x, y) begins.
fn row_start(e: &Encoded, rule: usize, node: usize, group: usize, x: usize, y: usize) -> Cursor
    requires { HasLetter (source_of e.now) rule node group }
    ensures { result ≡ of_pos (table_of e.now) (at rule node group x y 0) }
{
    Cursor {
        rule,
        node,
        group,
        x,
        y,
        i: 0,
        len: e.row_len(rule, node, group, x, y),
    }
}

// Behind the last clause.
fn the_end() -> Cursor
    ensures { result ≡ at_end }
{
    Cursor {
        rule: 4,
        node: 0,
        group: 0,
        x: 0,
        y: 0,
        i: 0,
        len: 0,
    }
}

impl Cursor {
    // The next node's first place.
    fn past_node(self, e: &Encoded) -> Cursor
        requires { Stands (table_of e.now) self }
        ensures { NodePassed (table_of e.now) self result }
    {
        let n = self.node + 1;
        if n < e.nodes_in(self.rule) {
            return row_start(e, self.rule, n, 0, 0, 0);
        }
        let r = self.rule + 1;
        if r == 4 || e.nodes_in(r) == 0 {
            return the_end();
        }
        row_start(e, r, 0, 0, 0, 0)
    }

    // The next row's first place.
    pub fn past_row(self, e: &Encoded) -> Cursor
        requires { Stands (table_of e.now) self }
        ensures { Moved (table_of e.now) self result }
    {
        if self.y + 1 < e.ys_in(self.rule, self.node, self.group) {
            return row_start(e, self.rule, self.node, self.group, self.x, self.y + 1);
        }
        if self.x + 1 < e.xs_in(self.rule, self.node, self.group) {
            return row_start(e, self.rule, self.node, self.group, self.x + 1, 0);
        }
        if self.group + 1 < shape::groups_in(self.rule) {
            return row_start(e, self.rule, self.node, self.group + 1, 0, 0);
        }
        self.past_node(e)
    }

    // The next clause's place, and the cursor behind it.
    pub fn next(self, e: &Encoded) -> Option<(Cursor, Cursor)>
        requires { In (table_of e.now) self }
        ensures { (result ≡ next_of (table_of e.now) self) × Handed (table_of e.now) result × Means (table_of e.now) self result }
    {
        let mut c = self;
        while c.rule < 4 {
            if c.i < c.len {
                return Some((c, Cursor { i: c.i + 1, ..c }));
            }
            c = c.past_row(e);
        }
        None
    }
}

// Seeking --------------------------------------------------------------------------------------------------------------------
// A cursor, and how many clauses from it on are still to be passed over.
#[derive(Clone, Copy)]
pub struct Sought {
    pub cursor: Cursor,
    pub left: usize,
}

// The node of clause j, counted from 0: whole nodes are passed over by their counts.
fn seek_node(e: &Encoded, j: usize) -> Sought
    ensures { SoughtRow (table_of e.now) j result.left result.cursor }
{
    let mut cursor = row_start(e, 0, 0, 0, 0, 0);
    let mut left = j;
    while cursor.rule < 4 {
        let m = count_node(e, cursor.rule, cursor.node);
        if left < m {
            break;
        }
        left -= m;
        cursor = cursor.past_node(e);
    }
    Sought { cursor, left }
}

// Within it whole rows are.
fn seek_row(e: &Encoded, s: Sought, j: usize) -> Cursor
    requires { SoughtRow (table_of e.now) j s.left s.cursor }
    ensures { Found (table_of e.now) j result }
{
    let mut c = s.cursor;
    let mut k = s.left;
    while c.rule < 4 {
        if k < c.len {
            return Cursor { i: k, ..c };
        }
        k -= c.len;
        c = c.past_row(e);
    }
    c
}

// The cursor before clause j, counted from 0; at the end, where there is no such clause.
pub fn seek(e: &Encoded, j: usize) -> Cursor
    ensures { Found (table_of e.now) j result }
{
    seek_row(e, seek_node(e, j), j)
}
