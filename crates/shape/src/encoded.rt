// An accepted table and its index: how many nodes and slots a rule goes through, and the rows of its letters. Rules, letters and parts of an
// effect are numbers and no enum, since the cursor counts through them: what comes next is the number plus 1, up to how many there are.
ghost use Rattle.std.specs.Prelude.{◌≡◌, ◌≤◌, ◌<◌, length};
ghost use Rattle.bitset.specs.Set.{members};
ghost use Rattle.planning.specs.Variable.{fact_var};
ghost use Rattle.table.specs.Layout.{table_in};
ghost use Rattle.places.specs.ClausePlace.{effect_facts, group_at, nodes_in, row_len};
ghost use Rattle.shape.specs.Shape.{Indexed, HasLetter};
ghost use Rattle.shape.specs.Once.{Indexed-prop};

use crate::node::Node;
use crate::slot::Slot;
use table::FactSet;

#[derive(Clone, Copy)]
pub struct Encoded<'a> {
    pub table: &'a [u64],
    pub index: &'a [u64],
    pub ghost indexed: { Indexed (table_in table.now) index.now } by { Indexed-prop (table_in table.now) index.now },
}

impl<'a> Encoded<'a> {
    ghost use Rattle.shape.specs.Views.{table_of, source_of};

    // How many nodes or slots rule r goes through.
    pub fn nodes_in(&self, r: usize) -> usize
        requires { r < 4 }
        ensures { (result ≡ nodes_in (source_of self.now) r) × (result ≤ 1024) }
    {
        match r {
            1 => index::nodes(self.index),
            3 => index::slots(self.index),
            _ => 1,
        }
    }

    pub fn node(&self, n: usize) -> Node<'a>
        requires { n < length (source_of self.now).nodes }
        ensures { (result.encoded ≡ self.now) × (result.number ≡ n) }
    {
        Node {
            encoded: *self,
            number: n,
        }
    }

    pub fn slot(&self, k: usize) -> Slot<'a>
        requires { k < length (source_of self.now).slots }
        ensures { (result.encoded ≡ self.now) × (result.number ≡ k) }
    {
        Slot {
            encoded: *self,
            number: k,
        }
    }

    // Fact f at boundary b.
    pub fn fact_variable(&self, b: usize, f: usize) -> usize
        requires { (b ≤ 1024) × (f < 64) }
        ensures { (result ≡ fact_var (table_of self.now) (source_of self.now).facts b f) × (result < 100000) }
    {
        index::first_fact(self.index) + b * table::facts(self.table) + f
    }

    // The facts that step s needs, sets, and clears and does not set: part y of rule 4.
    pub fn effects(&self, s: usize, y: usize) -> FactSet
        requires { (s < 64) × (y < 3) }
        ensures { members result ≡ effect_facts (table_of self.now) s y }
    {
        match y {
            0 => table::needs(self.table, s),
            1 => table::sets(self.table, s),
            _ => {
                let mut facts = table::clears(self.table, s);
                bitset::subtract(&mut facts, &table::sets(self.table, s));
                facts
            }
        }
    }

    // How many they are.
    pub fn effect_len(&self, s: usize, y: usize) -> usize
        requires { (s < 64) × (y < 3) }
        ensures { result ≡ length (effect_facts (table_of self.now) s y) }
    {
        let facts = self.effects(s, y);
        bitset::size(&facts)
    }

    // Letter g of node or slot n of rule r: how many columns, how many rows a column.
    pub fn xs_in(&self, r: usize, n: usize, g: usize) -> usize
        requires { HasLetter (source_of self.now) r n g }
        ensures { (result ≡ (group_at (source_of self.now) r n g).xs) × (result ≤ 128) }
    {
        match r {
            1 => self.node(n).xs(g),
            3 => self.slot(n).xs(g),
            _ => 1,
        }
    }

    pub fn ys_in(&self, r: usize, n: usize, g: usize) -> usize
        requires { HasLetter (source_of self.now) r n g }
        ensures { (result ≡ (group_at (source_of self.now) r n g).ys) × (result ≤ 8) }
    {
        match r {
            1 => self.node(n).ys(g),
            3 => self.slot(n).ys(g),
            _ => 1,
        }
    }

    // How many clauses row (x, y) has, where there is such a row.
    pub fn len_in(&self, r: usize, n: usize, g: usize, x: usize, y: usize) -> usize
        requires { HasLetter (source_of self.now) r n g × (x < (group_at (source_of self.now) r n g).xs)
            × (y < (group_at (source_of self.now) r n g).ys) }
        ensures { result ≡ (group_at (source_of self.now) r n g).len x y }
    {
        match r {
            1 => self.node(n).len(g, x, y),
            3 => self.slot(n).len(g, x, y),
            2 => table::facts(self.table),
            _ => 1,
        }
    }

    // How many clauses row (x, y) has; 0 where there is no such row.
    pub fn row_len(&self, r: usize, n: usize, g: usize, x: usize, y: usize) -> usize
        requires { HasLetter (source_of self.now) r n g }
        ensures { (result ≡ row_len (source_of self.now) r n g x y) × (result ≤ 128) }
    {
        if x < self.xs_in(r, n, g) && y < self.ys_in(r, n, g) {
            self.len_in(r, n, g, x, y)
        } else {
            0
        }
    }
}
