// The listing of a procedure, read from values node by node. Each `put_` function writes from a place on and leaves every other byte as it
// was; the place travels beside the bytes, as in crate `writer`.
#![tactic(auto)]

ghost use Rattle.std.specs.Prelude.{◌≡◌, [], ◌∷◌, ◌++◌, ◌+◌, ◌≤◌, ◌<◌, length, MatchOption};
ghost use Rattle.lists.specs.Written.{Wrote};
ghost use Rattle.planning.specs.Text.{decimal};
ghost use Rattle.table.specs.Layout.{name_parts_in};
ghost use Rattle.shape.specs.Views.{table_of};
ghost use Rattle.listing.specs.Listing.{shown_names, job_line, step_line};
ghost use Rattle.listing.specs.Walk.{first_true, walked, value_of, Listable, Listable-prop};

use shape::Encoded;

// What a listing is read from: an accepted table with its index, the file that it was read from, where the names stand, its tree's records,
// and a value for each variable.
#[derive(Drop)]
struct Lent<'a> {
    file: &'a [u8],
    encoded: Encoded<'a>,
    tree: &'a [u64],
    values: &'a [u8],
    ghost listable: { Listable encoded.table.now file.now tree.now values.now } by { Listable-prop encoded.table.now file.now tree.now values.now },
}

// How far the listing is: the place behind what is written, and how many steps are done.
#[derive(Clone, Copy)]
struct Reached {
    at: usize,
    steps: usize,
}

// Lines ----------------------------------------------------------------------------------------------------------------------
// Fields: a line's letter, a number, a name, each with the byte behind it.
fn put_letter(out: &mut [u8], at: usize, letter: u8) -> usize
    requires { at + 2 ≤ length out.old }
    ensures { Wrote out.old at (letter ∷ 9 ∷ []) out.new result }
{
    let a = writer::put_byte(out, at, letter);
    writer::put_byte(out, a, b'\t')
}

fn put_number(out: &mut [u8], at: usize, n: u64, behind: u8) -> usize
    requires { at + length (decimal n) + 1 ≤ length out.old }
    ensures { Wrote out.old at (decimal n ++ (behind ∷ [])) out.new result }
{
    let a = writer::put_decimal(out, at, n);
    writer::put_byte(out, a, behind)
}

fn put_name(out: &mut [u8], at: usize, name: &[u8], behind: u8) -> usize
    requires { at + length name.now + 1 ≤ length out.old }
    ensures { Wrote out.old at (name.now ++ (behind ∷ [])) out.new result }
{
    let a = writer::put_bytes(out, at, name);
    writer::put_byte(out, a, behind)
}

// A job's line, and a step's: at most 24 bytes.
fn put_job(out: &mut [u8], at: usize, depth: u64, name: &[u8], method: u64) -> usize
    requires { (at + 24 ≤ length out.old) × (depth < 10) × (length name.now ≤ 12) × (method < 1000) }
    ensures { Wrote out.old at (job_line depth name.now method) out.new result }
{
    let a = put_letter(out, at, b'J');
    let b = put_number(out, a, depth, b'\t');
    let c = put_name(out, b, name, b'\t');
    put_number(out, c, method, b'\n')
}

fn put_step(out: &mut [u8], at: usize, place: u64, name: &[u8]) -> usize
    requires { (at + 24 ≤ length out.old) × (place < 10000) × (length name.now ≤ 12) }
    ensures { Wrote out.old at (step_line place name.now) out.new result }
{
    let a = put_letter(out, at, b'S');
    let b = put_number(out, a, place, b'\t');
    put_name(out, b, name, b'\n')
}

// Nodes ----------------------------------------------------------------------------------------------------------------------
// The place of the first true variable among k from variable v on.
fn first_true(values: &[u8], v: usize, k: usize) -> Option<usize>
    requires { (1 ≤ v) × (v + k ≤ 1 + length values.now) }
    ensures { MatchOption result (first_true (value_of values.now) v k ≡ k) (λ x. (x < k) × (x ≡ first_true (value_of values.now) v k)) }
{
    for i in 0..k {
        if values[v + i - 1] == 1 {
            return Some(i);
        }
    }
    None
}

impl Lent<'_> {
    ghost use Rattle.listing.specs.Walk.{step_rows, job_rows, rows_at, Ready, WroteRows};
    ghost use Rattle.listing.specs.Views.{source_of, node_of, names_of};

    // The row of step s at node n: none at an inner node, which hands the step down.
    fn put_step_row(&self, out: &mut [u8], n: usize, s: usize, p: Reached) -> Reached
        requires { Ready (source_of self.now) n out.old p.at p.steps }
        ensures { WroteRows (names_of self.now) out.old p.at p.steps (step_rows (node_of self.now n).jobs s) out.new result.at result.steps }
    {
        if self.encoded.node(n).jobs() > 0 {
            return p;
        }
        let steps = p.steps + 1;
        let name = table::step_name(self.file, self.encoded.table, s);
        let at = put_step(out, p.at, steps as u64, name);
        Reached { at, steps }
    }

    // The row of job j at node n, with the first method whose variable is true there; none where no method's is.
    fn put_job_row(&self, out: &mut [u8], n: usize, j: usize, p: Reached) -> Reached
        requires { Ready (source_of self.now) n out.old p.at p.steps × (0 < length (node_of self.now n).jobs) }
        ensures { WroteRows (names_of self.now) out.old p.at p.steps
            (job_rows (table_of self.now.encoded) (value_of self.now.values.now) n j) out.new result.at result.steps }
    {
        let node = self.encoded.node(n);
        let v = node.first() + node.tasks();
        let Some(x) = first_true(self.values, v, node.methods()) else {
            return p;
        };
        let m = node.method(x);
        let name = table::job_name(self.file, self.encoded.table, j);
        let at = put_job(out, p.at, self.tree[5 * n], name, m as u64);
        Reached { at, ..p }
    }

    // The row of node n.
    fn put_node(&self, out: &mut [u8], n: usize, p: Reached) -> Reached
        requires { Ready (source_of self.now) n out.old p.at p.steps }
        ensures { WroteRows (names_of self.now) out.old p.at p.steps
            (rows_at (table_of self.now.encoded) (value_of self.now.values.now) n) out.new result.at result.steps }
    {
        let node = self.encoded.node(n);
        let Some(x) = first_true(self.values, node.first(), node.tasks()) else {
            return p;
        };
        let k = node.steps();
        if x < k {
            return self.put_step_row(out, n, node.step(x), p);
        }
        self.put_job_row(out, n, node.job(x - k), p)
    }
}

// Writes the listing's lines for these values, node by node; the end comes back.
pub fn write(file: &[u8], e: &Encoded, tree: &[u64], values: &[u8], out: &mut [u8]) -> usize
    requires { Listable e.now.table.now file.now tree.now values.now × (24576 ≤ length out.old) }
    ensures { Wrote out.old 0 (walked (table_of e.now) (shown_names file.now (name_parts_in e.now.table.now)) (value_of values.now))
        out.new result }
{
    let lent = Lent {
        file,
        encoded: *e,
        tree,
        values,
    };
    let mut p = Reached { at: 0, steps: 0 };
    for n in 0..e.nodes_in(1) {
        p = lent.put_node(out, n, p);
    }
    p.at
}
