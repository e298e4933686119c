// How many clauses there are: of a node, a slot, a rule, in all.
ghost use Rattle.std.specs.Prelude.{◌≡◌, ◌≤◌, ◌<◌, length, get_or};
ghost use Rattle.places.specs.ClausePlace.{nodes_in};
ghost use Rattle.places.specs.Total.{sum_to, pair_count, widths_to, body_count, pass_count, node_count, effect_count, slot_count, count_at, clause_count};
ghost use Rattle.shape.specs.Views.{table_of, source_of, flat, steps_of};

use shape::{Encoded, Node, Slot};

// How many pairs n variables make.
fn pairs(n: usize) -> usize
    requires { n ≤ 128 }
    ensures { (result ≡ pair_count n) × (result ≤ 8128) }
{
    if n == 0 { 0 } else { n * (n - 1) / 2 }
}

// How many task variables the children of a node have together: the clauses of (g).
fn count_widths(node: &Node) -> usize
    ensures { (result ≡ widths_to (flat node.now) (length (flat node.now).children)) × (result ≤ 1024) }
{
    let mut k: usize = 0;
    for y in 0..node.children() {
        k += node.width(y);
    }
    k
}

// (f) of one step: a clause for the first child, and one for each task variable of the others. `all` is how many the children have together.
fn count_pass(node: &Node, all: usize) -> usize
    requires { (all ≡ widths_to (flat node.now) (length (flat node.now).children)) × (all ≤ 1024) }
    ensures { (result ≡ pass_count (flat node.now)) × (result ≤ 1025) }
{
    if node.children() == 0 {
        return 0;
    }
    all - node.width(0) + 1
}

// (e) of method x, and of all methods.
fn count_body(node: &Node, x: usize) -> usize
    requires { x < length (flat node.now).methods }
    ensures { (result ≡ body_count (table_of node.now.encoded) (flat node.now) x) × (result ≤ 1024) }
{
    let mut k: usize = 0;
    for y in 0..node.children() {
        k += node.body_len(x, y);
    }
    k
}

fn count_bodies(node: &Node) -> usize
    ensures { (result ≡ sum_to (body_count (table_of node.now.encoded) (flat node.now)) (length (flat node.now).methods)) × (result ≤ 131072) }
{
    let mut k: usize = 0;
    for x in 0..node.methods() {
        k += count_body(node, x);
    }
    k
}

// (a) to (g) of a node.
fn count_letters(node: &Node) -> usize
    ensures { (result ≡ node_count (table_of node.now.encoded) (flat node.now)) × (result ≤ 917504) }
{
    let m = node.methods();
    let all = count_widths(node);
    let passed = node.steps() * count_pass(node, all);
    let paired = pairs(node.tasks()) + pairs(m);
    paired + node.jobs() + m + count_bodies(node) + passed + all
}

// Rule 4 of variable x of a slot, and of the slot.
fn count_effects(slot: &Slot, x: usize) -> usize
    requires { x < length (steps_of slot.now) }
    ensures { (result ≡ effect_count (table_of slot.now.encoded) (get_or (steps_of slot.now) x (0, 0)).1) × (result ≤ 384) }
{
    let e = slot.encoded;
    let s = slot.step(x);
    e.effect_len(s, 0) + (e.effect_len(s, 1) + e.effect_len(s, 2))
}

fn count_slot(slot: &Slot) -> usize
    ensures { (result ≡ slot_count (table_of slot.now.encoded) (steps_of slot.now)) × (result ≤ 917504) }
{
    let mut k: usize = 0;
    for x in 0..slot.size() {
        k += count_effects(slot, x);
    }
    let f = table::facts(slot.encoded.table);
    k + (f + f)
}

// Node or slot n of rule r.
pub fn count_node(e: &Encoded, r: usize, n: usize) -> usize
    requires { (r < 4) × (n < nodes_in (source_of e.now) r) }
    ensures { (result ≡ count_at (source_of e.now) r n) × (result ≤ 917504) }
{
    match r {
        1 => count_letters(&e.node(n)),
        2 => table::facts(e.table),
        3 => count_slot(&e.slot(n)),
        _ => 1,
    }
}

fn count_rule(e: &Encoded, r: usize) -> usize
    requires { r < 4 }
    ensures { (result ≡ sum_to (count_at (source_of e.now) r) (nodes_in (source_of e.now) r)) × (result ≤ 939524096) }
{
    let mut k: usize = 0;
    for n in 0..e.nodes_in(r) {
        k += count_node(e, r, n);
    }
    k
}

// All clauses.
pub fn count_all(e: &Encoded) -> usize
    ensures { (result ≡ clause_count (source_of e.now)) × (result ≤ 3758096384) }
{
    count_rule(e, 0) + count_rule(e, 1) + count_rule(e, 2) + count_rule(e, 3)
}
