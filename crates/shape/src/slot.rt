// A slot of an accepted table: its step variables, and how long the rows of rule 4 are.
ghost use Rattle.std.specs.Prelude.{◌≡◌, ◌≤◌, ◌<◌, length, get_or};
ghost use Rattle.table.specs.Layout.{table_in};
ghost use Rattle.places.specs.ClausePlace.{group_at};
ghost use Rattle.index.specs.Index.{source, SlotAt};

use crate::encoded::Encoded;
use crate::node::Node;

#[derive(Clone, Copy)]
pub struct Slot<'a> {
    pub encoded: Encoded<'a>,
    pub number: usize,
    pub ghost there: { number < length (source (table_in encoded.table.now)).slots },
}

impl<'a> Slot<'a> {
    ghost use Rattle.shape.specs.Views.{table_of, source_of, steps_of};

    // The node that it is.
    pub fn node(&self) -> Node<'a>
        ensures { (result.encoded ≡ self.now.encoded) × SlotAt (table_of self.now.encoded) self.now.number result.number }
    {
        let number = index::slot_node(self.encoded.index, self.number);
        Node {
            encoded: self.encoded,
            number,
        }
    }

    // How many step variables it has; variable x of them, and its step.
    pub fn size(&self) -> usize
        ensures { (result ≡ length (steps_of self.now)) × (result ≤ 64) }
    {
        self.node().steps()
    }

    pub fn variable(&self, x: usize) -> usize
        requires { x < length (steps_of self.now) }
        ensures { (result ≡ (get_or (steps_of self.now) x (0, 0)).0) × (1 ≤ result) × (result ≤ 8256) }
    {
        self.node().first() + x
    }

    pub fn step(&self, x: usize) -> usize
        requires { x < length (steps_of self.now) }
        ensures { (result ≡ (get_or (steps_of self.now) x (0, 0)).1) × (result < 64) }
    {
        index::meaning(self.encoded.index, self.variable(x))
    }

    // Rule 4: the effects, then two clauses a fact. How many columns, how many rows a column, how many clauses a row.
    pub(crate) fn xs(&self, g: usize) -> usize
        requires { g < 2 }
        ensures { result ≡ (group_at (source_of self.now.encoded) 3 self.now.number g).xs }
    {
        match g {
            0 => self.size(),
            _ => table::facts(self.encoded.table),
        }
    }

    pub(crate) fn ys(&self, g: usize) -> usize
        requires { g < 2 }
        ensures { result ≡ (group_at (source_of self.now.encoded) 3 self.now.number g).ys }
    {
        match g {
            0 => 3,
            _ => 1,
        }
    }

    pub(crate) fn len(&self, g: usize, x: usize, y: usize) -> usize
        requires { (g < 2) × (x < (group_at (source_of self.now.encoded) 3 self.now.number g).xs)
            × (y < (group_at (source_of self.now.encoded) 3 self.now.number g).ys) }
        ensures { result ≡ (group_at (source_of self.now.encoded) 3 self.now.number g).len x y }
    {
        match g {
            0 => self.encoded.effect_len(self.step(x), y),
            _ => 2,
        }
    }
}
