// An accepted table beside its tree's records: what is written of all nodes.
ghost use Rattle.std.specs.Prelude.{◌≡◌, ◌+◌, ◌≤◌, length};
ghost use Rattle.lists.specs.List.{concat_map};
ghost use Rattle.lists.specs.Written.{Wrote};
ghost use Rattle.planning.specs.Record.{records};
ghost use Rattle.table.specs.Layout.{table_in};
ghost use Rattle.index.specs.Index.{node_words, meanings, slot_nodes, source};
ghost use Rattle.indexing.specs.Stands.{Stands};
ghost use Rattle.indexing.specs.Once.{Stands-prop};

use crate::node::Node;
use crate::put_if;

#[derive(Clone, Copy)]
pub(crate) struct Grown<'a> {
    pub(crate) table: &'a [u64],
    pub(crate) tree: &'a [u64],
    pub(crate) ghost stands: { Stands (table_in table.now) tree.now } by { Stands-prop (table_in table.now) tree.now },
}

impl<'a> Grown<'a> {
    ghost use Rattle.indexing.specs.Views.{table_of};

    // How many nodes it has.
    pub(crate) fn nodes(&self) -> usize
        ensures { (result ≡ length (source (table_of self.now)).nodes) × (result ≤ 1024) }
    {
        self.tree.len() / 5
    }

    // All nodes.
    pub(crate) fn put_nodes(&self, out: &mut [u64], at: usize) -> usize
        requires { at + length (concat_map node_words (source (table_of self.now)).nodes) ≤ length out.old }
        ensures { Wrote out.old at (concat_map node_words (source (table_of self.now)).nodes) out.new result }
    {
        let mut a = at;
        let mut first = 1;
        for number in 0..self.nodes() {
            let node = Node {
                grown: *self,
                number,
            };
            a = node.put(out, a, first);
            first += node.own();
        }
        a
    }

    // The nodes that are slots.
    pub(crate) fn put_slots(&self, out: &mut [u64], at: usize) -> usize
        requires { at + length (slot_nodes (table_of self.now) 0 (records (table_of self.now))) ≤ length out.old }
        ensures { Wrote out.old at (slot_nodes (table_of self.now) 0 (records (table_of self.now))) out.new result }
    {
        let mut a = at;
        for number in 0..self.nodes() {
            let node = Node {
                grown: *self,
                number,
            };
            a = put_if(out, a, !node.is_inner(), number);
        }
        a
    }

    // What all variables of nodes stand for.
    pub(crate) fn put_meanings(&self, out: &mut [u64], at: usize) -> usize
        requires { at + length (concat_map meanings (source (table_of self.now)).nodes) ≤ length out.old }
        ensures { Wrote out.old at (concat_map meanings (source (table_of self.now)).nodes) out.new result }
    {
        let mut a = at;
        for number in 0..self.nodes() {
            let node = Node {
                grown: *self,
                number,
            };
            a = node.put_meanings(out, a);
        }
        a
    }
}
