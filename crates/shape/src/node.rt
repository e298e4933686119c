// A node of an accepted table: what it has, its variables, and how long the rows of its letters are.
ghost use Rattle.std.specs.Prelude.{◌≡◌, cond, [], ◌∷◌, ◌+◌, ◌≤◌, ◌<◌, eqb, length, get_or};
ghost use Rattle.bitset.specs.Set.{members};
ghost use Rattle.table.specs.Layout.{table_in};
ghost use Rattle.places.specs.ClausePlace.{child_at, width as childWidth, tasks_n, method_at, method_var, named_at, no_group, node_groups};
ghost use Rattle.index.specs.Index.{source};

use crate::encoded::Encoded;

#[derive(Clone, Copy)]
pub struct Node<'a> {
    pub encoded: Encoded<'a>,
    pub number: usize,
    pub ghost there: { number < length (source (table_in encoded.table.now)).nodes },
}

impl<'a> Node<'a> {
    ghost use Rattle.shape.specs.Views.{table_of, flat};

    // Its first variable.
    pub fn first(&self) -> usize
        ensures { (result ≡ (flat self.now).first) × (1 ≤ result) × (result ≤ 8192) }
    {
        index::node_word(self.encoded.index, self.number, 0)
    }

    // How many steps, jobs, methods and children it has.
    pub fn steps(&self) -> usize
        ensures { (result ≡ length (flat self.now).steps) × (result ≤ 64) }
    {
        index::node_word(self.encoded.index, self.number, 3)
    }

    pub fn jobs(&self) -> usize
        ensures { (result ≡ length (flat self.now).jobs) × (result ≤ 64) }
    {
        index::node_word(self.encoded.index, self.number, 4)
    }

    pub fn methods(&self) -> usize
        ensures { (result ≡ length (flat self.now).methods) × (result ≤ 128) }
    {
        index::node_word(self.encoded.index, self.number, 5)
    }

    pub fn children(&self) -> usize
        ensures { (result ≡ length (flat self.now).children) × (result ≤ 8) }
    {
        index::node_word(self.encoded.index, self.number, 6)
    }

    // The sets of its steps and of its jobs, each in a word.
    pub fn step_set(&self) -> u64
        ensures { members (result ∷ []) ≡ (flat self.now).steps }
    {
        index::node_word(self.encoded.index, self.number, 1) as u64
    }

    pub fn job_set(&self) -> u64
        ensures { members (result ∷ []) ≡ (flat self.now).jobs }
    {
        index::node_word(self.encoded.index, self.number, 2) as u64
    }

    // How many task variables it has.
    pub fn tasks(&self) -> usize
        ensures { (result ≡ tasks_n (flat self.now)) × (result ≤ 128) }
    {
        self.steps() + self.jobs()
    }

    // Variable x of it, counted from its first; the variable of its job x, and of its method x.
    pub fn own_variable(&self, x: usize) -> usize
        requires { x ≤ 512 }
        ensures { (result ≡ (flat self.now).first + x) × (1 ≤ result) × (result < 65536) }
    {
        self.first() + x
    }

    pub fn job_variable(&self, x: usize) -> usize
        requires { x ≤ 128 }
        ensures { (result ≡ (flat self.now).first + length (flat self.now).steps + x) × (1 ≤ result) × (result < 65536) }
    {
        self.own_variable(self.steps() + x)
    }

    pub fn method_variable(&self, x: usize) -> usize
        requires { x ≤ 256 }
        ensures { (result ≡ method_var (flat self.now) x) × (1 ≤ result) × (result < 65536) }
    {
        self.own_variable(self.tasks() + x)
    }

    // What variables stand for: its step x, job x and method x, by their numbers.
    pub fn step(&self, x: usize) -> usize
        requires { x < length (flat self.now).steps }
        ensures { result ≡ get_or (flat self.now).steps x 0 }
    {
        index::meaning(self.encoded.index, self.own_variable(x))
    }

    pub fn job(&self, x: usize) -> usize
        requires { x < length (flat self.now).jobs }
        ensures { result ≡ get_or (flat self.now).jobs x 0 }
    {
        index::meaning(self.encoded.index, self.job_variable(x))
    }

    pub fn method(&self, x: usize) -> usize
        requires { x < length (flat self.now).methods }
        ensures { (result ≡ method_at (flat self.now) x) × (result < 128) }
    {
        index::meaning(self.encoded.index, self.method_variable(x))
    }

    // The node that its child y is.
    pub fn child(&self, y: usize) -> Node<'a>
        requires { y < length (flat self.now).children }
        ensures { (result.encoded ≡ self.now.encoded) × (result.number ≡ (child_at (flat self.now) y).node) }
    {
        let number = index::node_word(self.encoded.index, self.number, 7 + y);
        Node {
            encoded: self.encoded,
            number,
        }
    }

    // How many task variables child y has; variable i of them.
    pub fn width(&self, y: usize) -> usize
        requires { y < length (flat self.now).children }
        ensures { (result ≡ childWidth (child_at (flat self.now) y)) × (result ≤ 128) }
    {
        self.child(y).tasks()
    }

    pub fn child_variable(&self, y: usize, i: usize) -> usize
        requires { (y < length (flat self.now).children) × (i ≤ 128) }
        ensures { (result ≡ (child_at (flat self.now) y).first + i) × (1 ≤ result) × (result < 65536) }
    {
        self.child(y).own_variable(i)
    }

    // Has the body of method x a name at child y?
    pub fn is_named(&self, x: usize, y: usize) -> bool
        requires { x < length (flat self.now).methods }
        ensures { result ≡ named_at (table_of self.now.encoded) (flat self.now) x y }
    {
        y < table::body_size(self.encoded.table, self.method(x))
    }

    // (e) of method x at child y.
    pub fn body_len(&self, x: usize, y: usize) -> usize
        requires { (x < length (flat self.now).methods) × (y < length (flat self.now).children) }
        ensures { result ≡ cond (named_at (table_of self.now.encoded) (flat self.now) x y) 1 (childWidth (child_at (flat self.now) y)) }
    {
        if self.is_named(x, y) {
            1
        } else {
            self.width(y)
        }
    }

    // (f) at child y.
    fn pass_len(&self, y: usize) -> usize
        requires { y < length (flat self.now).children }
        ensures { result ≡ cond (eqb y 0) 1 (childWidth (child_at (flat self.now) y)) }
    {
        if y == 0 { 1 } else { self.width(y) }
    }

    // Letters (a) to (g): how many columns each has, how many rows a column, how many clauses a row.
    pub(crate) fn xs(&self, g: usize) -> usize
        requires { g < 7 }
        ensures { result ≡ (get_or (node_groups (table_of self.now.encoded) self.now.number (flat self.now)) g no_group).xs }
    {
        match g {
            0 => self.tasks(),
            1 | 4 => self.methods(),
            2 | 3 => 1,
            5 => self.steps(),
            _ => self.children(),
        }
    }

    pub(crate) fn ys(&self, g: usize) -> usize
        requires { g < 7 }
        ensures { result ≡ (get_or (node_groups (table_of self.now.encoded) self.now.number (flat self.now)) g no_group).ys }
    {
        match g {
            4 | 5 => self.children(),
            _ => 1,
        }
    }

    pub(crate) fn len(&self, g: usize, x: usize, y: usize) -> usize
        requires { (g < 7)
            × (x < (get_or (node_groups (table_of self.now.encoded) self.now.number (flat self.now)) g no_group).xs)
            × (y < (get_or (node_groups (table_of self.now.encoded) self.now.number (flat self.now)) g no_group).ys) }
        ensures { result ≡ (get_or (node_groups (table_of self.now.encoded) self.now.number (flat self.now)) g no_group).len x y }
    {
        match g {
            0 => self.tasks() - (x + 1),
            1 => self.methods() - (x + 1),
            2 => self.jobs(),
            3 => self.methods(),
            4 => self.body_len(x, y),
            5 => self.pass_len(y),
            _ => self.width(x),
        }
    }
}
