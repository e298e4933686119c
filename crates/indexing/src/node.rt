// A node of an accepted table: its record's words, and what is written of it.
ghost use Rattle.std.specs.Prelude.{◌≡◌, ◌+◌, ◌*◌, ◌≤◌, ◌<◌, length, get_or};
ghost use Rattle.lists.specs.Written.{Wrote};
ghost use Rattle.planning.specs.Record.{records};
ghost use Rattle.table.specs.Layout.{table_in};
ghost use Rattle.places.specs.Flat.{inner, own as own_of};
ghost use Rattle.places.specs.Lookup.{record_at};
ghost use Rattle.index.specs.Index.{word_of, node_words, meanings, source};
ghost use Rattle.indexing.specs.Stands.{set_words, count_words, child_numbers, child_words};

use crate::grown::Grown;
use crate::{put_if, put_members, put_methods, put_zeros};

#[derive(Clone, Copy)]
pub(crate) struct Node<'a> {
    pub(crate) grown: Grown<'a>,
    pub(crate) number: usize,
    pub(crate) ghost there: { number < length (source (table_in grown.table.now)).nodes },
}

impl<'a> Node<'a> {
    ghost use Rattle.indexing.specs.Views.{table_of, flat};

    // Word k of its record: its depth, its parent, how many children it has, its steps, its jobs.
    fn word(&self, k: usize) -> u64
        requires { k < 5 }
        ensures { result ≡ get_or self.now.grown.tree.now (5 * self.now.number + k) 0 }
    {
        let tree = self.grown.tree;
        tree.get(5 * self.number + k).copied().unwrap_or(0)
    }

    pub(crate) fn is_inner(&self) -> bool
        ensures { result ≡ inner (table_of self.now.grown) (record_at (records (table_of self.now.grown)) self.now.number) }
    {
        (self.word(0) as usize) < table::depth(self.grown.table) && tree::has_some(self.word(4))
    }

    // The jobs that have a variable there: none at a slot.
    fn jobs(&self) -> u64
        ensures { result ≡ word_of (flat self.now).jobs }
    {
        if self.is_inner() { self.word(4) } else { 0 }
    }

    // How many variables it has.
    pub(crate) fn own(&self) -> usize
        ensures { result ≡ own_of (table_of self.now.grown) (record_at (records (table_of self.now.grown)) self.now.number) }
    {
        let jobs = self.jobs();
        tree::size(self.word(3)) + tree::size(jobs) + tree::count_methods(self.grown.table, jobs)
    }

    // Its first variable, and the sets of steps and of jobs that have a variable there.
    fn put_sets(&self, out: &mut [u64], at: usize, first: usize) -> usize
        requires { at + 3 ≤ length out.old }
        ensures { Wrote out.old at (set_words first (flat self.now)) out.new result }
    {
        let words = [first as u64, self.word(3), self.jobs()];
        tree::put_words(out, at, &words)
    }

    // How many steps, jobs and methods have a variable there.
    fn put_counts(&self, out: &mut [u64], at: usize) -> usize
        requires { at + 3 ≤ length out.old }
        ensures { Wrote out.old at (count_words (flat self.now)) out.new result }
    {
        let jobs = self.jobs();
        let steps = tree::size(self.word(3));
        let words = [
            steps as u64,
            tree::size(jobs) as u64,
            tree::count_methods(self.grown.table, jobs) as u64,
        ];
        tree::put_words(out, at, &words)
    }

    // The numbers of its children: the next child is the next node after it with the same parent.
    fn put_numbers(&self, out: &mut [u64], at: usize) -> usize
        requires { at + 8 ≤ length out.old }
        ensures { Wrote out.old at (child_numbers (flat self.now)) out.new result }
    {
        let e = at + self.word(2) as usize;
        let mut a = at;
        for number in self.number + 1..self.grown.nodes() {
            if a == e {
                return a;
            }
            let other = Node {
                grown: self.grown,
                number,
            };
            a = put_if(out, a, other.word(1) as usize == self.number, number);
        }
        a
    }

    // These, then zeros: eight words.
    fn put_children(&self, out: &mut [u64], at: usize) -> usize
        requires { at + 8 ≤ length out.old }
        ensures { Wrote out.old at (child_words (flat self.now)) out.new result }
    {
        let a = self.put_numbers(out, at);
        put_zeros(out, a, at + 8)
    }

    // Its fifteen words.
    pub(crate) fn put(&self, out: &mut [u64], at: usize, first: usize) -> usize
        requires { (first ≡ (flat self.now).first) × (at + 15 ≤ length out.old) }
        ensures { Wrote out.old at (node_words (flat self.now)) out.new result }
    {
        let a = self.put_sets(out, at, first);
        let b = self.put_counts(out, a);
        let c = tree::put_word(out, b, self.word(2));
        self.put_children(out, c)
    }

    // What its variables stand for.
    pub(crate) fn put_meanings(&self, out: &mut [u64], at: usize) -> usize
        requires { at + length (meanings (flat self.now)) ≤ length out.old }
        ensures { Wrote out.old at (meanings (flat self.now)) out.new result }
    {
        let jobs = self.jobs();
        let a = put_members(out, at, self.word(3));
        let b = put_members(out, a, jobs);
        put_methods(self.grown.table, out, b, jobs)
    }
}
