// The index of a table, written into lent words out of the table's records. Each `put_` function writes from place `at` on, returns the
// place behind what it wrote and leaves every other word as it was. The place travels beside the words: were both in a struct, each clause
// would have to say too that it still holds the words that were lent.
#![tactic(auto)]

ghost use Rattle.std.specs.Prelude.{◌≡◌, [], ◌∷◌, ◌+◌, ◌-◌, ◌≤◌, length, replicate};
ghost use Rattle.lists.specs.List.{cons_if};
ghost use Rattle.lists.specs.Written.{Wrote};
ghost use Rattle.planning.specs.Place.{methods_of};
ghost use Rattle.table.specs.Layout.{table_in};
ghost use Rattle.tree.specs.Visit.{members_in, Known, Counted};
ghost use Rattle.index.specs.Index.{index_of};
ghost use Rattle.indexing.specs.Stands.{Stands};

mod grown;
mod node;

use grown::Grown;
use tree::Count;

// The number x, where the test passed.
fn put_if(out: &mut [u64], at: usize, test: bool, x: usize) -> usize
    requires { at + length (cons_if test x []) ≤ length out.old }
    ensures { Wrote out.old at (cons_if test x []) out.new result }
{
    if test {
        tree::put_word(out, at, x as u64)
    } else {
        at
    }
}

// Zeros up to the place e.
fn put_zeros(out: &mut [u64], at: usize, e: usize) -> usize
    requires { (at ≤ e) × (e ≤ length out.old) }
    ensures { Wrote out.old at (replicate (e - at) 0) out.new result }
{
    for a in at..e {
        out[a] = 0;
    }
    e
}

// The members of the set in a word, rising.
fn put_members(out: &mut [u64], at: usize, w: u64) -> usize
    requires { at + length (members_in w) ≤ length out.old }
    ensures { Wrote out.old at (members_in w) out.new result }
{
    // Most sets are small: nothing is looked at behind the last member.
    let e = at + tree::size(w);
    let mut a = at;
    for i in 0..64 {
        if a == e {
            return a;
        }
        a = put_if(out, a, tree::holds(w, i), i);
    }
    a
}

// The methods of these jobs, rising.
fn put_methods(ws: &[u64], out: &mut [u64], at: usize, jobs: u64) -> usize
    requires { Known (table_in ws.now) × (at + length (methods_of (table_in ws.now) (members_in jobs)) ≤ length out.old) }
    ensures { Wrote out.old at (methods_of (table_in ws.now) (members_in jobs)) out.new result }
{
    let mut a = at;
    for m in 0..table::methods(ws) {
        a = put_if(out, a, tree::holds(jobs, table::job_of(ws, m)), m);
    }
    a
}

// Writes the index of the table whose counts and records these are, from the slice's first place on, and returns how many words that were.
pub fn fill(ws: &[u64], tree: &[u64], c: Count, out: &mut [u64]) -> usize
    requires { Stands (table_in ws.now) tree.now × Counted (table_in ws.now) c × (length (index_of (table_in ws.now)) ≤ length out.old) }
    ensures { Wrote out.old 0 (index_of (table_in ws.now)) out.new result }
{
    let grown = Grown { table: ws, tree };
    let counts = [c.nodes as u64, c.slots as u64, (c.variables + 1) as u64];
    let a = tree::put_words(out, 0, &counts);
    let b = grown.put_nodes(out, a);
    let d = grown.put_slots(out, b);
    grown.put_meanings(out, d)
}
