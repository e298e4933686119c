// The tree of places as words, five a record: counted and written in one visit, up to 1,024 nodes.
// That the words are a sound table (`Known`), which the reader promises, stands in clauses and in no type: the counts and the visit take any words.
#![tactic(auto)]

ghost use Rattle.std.specs.Prelude.{◌≡◌, cond, ◌&&◌, [], ◌∷◌, ◌+◌, ◌-◌, ◌*◌, ◌≤◌, ◌<◌, max, eqb, ltb, length, get_or};
ghost use Rattle.std.proofs.Math.ListN.{get_elem?};
ghost use Rattle.lists.specs.Written.{Wrote};
ghost use Rattle.bitset.specs.Set.{contains, inserted};
ghost use Rattle.planning.specs.Table.{job_of, body_of};
ghost use Rattle.planning.specs.Place.{methods_of, longest as longestBody, child_count, child_label, nodes};
ghost use Rattle.table.specs.Layout.{task_from, table_in};
ghost use Rattle.tree.specs.Visit.{members_in, label_in, some_in, Inside, Known, with_task, Small, VisitedPart, VisitedParts};
ghost use Rattle.tree.specs.Visit.{counted_on, Built, Put};

use table::Task;

// What a node may hold: a word for its steps and a word for its jobs.
#[derive(Clone, Copy)]
pub struct Label {
    pub steps: u64,
    pub jobs: u64,
}

// How many nodes, variables of nodes and slots have been counted.
#[derive(Clone, Copy)]
pub struct Count {
    pub nodes: usize,
    pub variables: usize,
    pub slots: usize,
}

// Is i a member of the set in a word?
pub fn holds(w: u64, i: usize) -> bool
    ensures { result ≡ contains (w ∷ []) i }
{
    bitset::has(&[w], i)
}

// How many members it has.
pub fn size(w: u64) -> usize
    ensures { (result ≡ length (members_in w)) × (result ≤ 64) }
{
    bitset::size(&[w])
}

// The set with one member more.
fn with(w: u64, i: usize) -> u64
    ensures { result ≡ get_or (inserted (w ∷ []) i) 0 0 }
{
    let mut ws = [w];
    bitset::insert(&mut ws, i);
    ws[0]
}

// The label with the task, if there is one.
fn with_task(l: Label, task: Option<Task>) -> Label
    ensures { result ≡ with_task l (task_from task) }
{
    match task {
        Some(Task::Step(s)) => Label {
            steps: with(l.steps, s),
            ..l
        },
        Some(Task::Job(j)) => Label {
            jobs: with(l.jobs, j),
            ..l
        },
        None => l,
    }
}

// The label with the task that method m names at place i, if the method is one of these jobs'.
fn with_method(ws: &[u64], jobs: u64, i: usize, m: usize, l: Label) -> Label
    ensures { result ≡ cond (contains (jobs ∷ []) (job_of (table_in ws.now) m))
        (with_task l (get_elem? (body_of (table_in ws.now) m) i)) l }
{
    if holds(jobs, table::job_of(ws, m)) {
        with_task(l, table::body_task(ws, m, i))
    } else {
        l
    }
}

// The steps that child i has of its parent: the first child has them all.
fn inherited(steps: u64, i: usize) -> u64
    ensures { result ≡ cond (eqb i 0) steps 0 }
{
    if i == 0 { steps } else { 0 }
}

// What child i of a node may hold.
fn child_label(ws: &[u64], l: Label, i: usize) -> Label
    requires { Known (table_in ws.now) × Inside (table_in ws.now) l }
    ensures { label_in result ≡ child_label (table_in ws.now) (label_in l) i }
{
    let mut child = Label {
        steps: inherited(l.steps, i),
        jobs: 0,
    };
    for m in 0..table::methods(ws) {
        child = with_method(ws, l.jobs, i, m, child);
    }
    child
}

// The longest body of these jobs' methods.
fn longest(ws: &[u64], jobs: u64) -> usize
    ensures { result ≡ longestBody (table_in ws.now) (methods_of (table_in ws.now) (members_in jobs)) }
{
    (0..table::methods(ws))
        .filter(|&m| holds(jobs, table::job_of(ws, m)))
        .map(|m| table::body_size(ws, m))
        .max()
        .unwrap_or(0)
}

// Has the set a member?
pub fn has_some(w: u64) -> bool
    ensures { result ≡ some_in (members_in w) }
{
    w != 0
}

// How many children a node has that may hold a job and lies above the table's depth.
fn child_count(ws: &[u64], l: Label) -> usize
    requires { Known (table_in ws.now) }
    ensures { (result ≡ child_count (table_in ws.now) (label_in l)) × (result ≤ 8) }
{
    let n = longest(ws, l.jobs);
    if n == 0 && has_some(l.steps) { 1 } else { n }
}

// How many methods these jobs have.
pub fn count_methods(ws: &[u64], jobs: u64) -> usize
    requires { Known (table_in ws.now) }
    ensures { (result ≡ length (methods_of (table_in ws.now) (members_in jobs))) × (result ≤ 128) }
{
    (0..table::methods(ws))
        .filter(|m| holds(jobs, table::job_of(ws, *m)))
        .count()
}

// Is a node inner that lies `left` above the table's depth?
fn is_inner(left: usize, jobs: u64) -> bool
    ensures { result ≡ (ltb 0 left && some_in (members_in jobs)) }
{
    left != 0 && has_some(jobs)
}

// One word, from place `at` on: the place behind it comes back, and every other word stays.
// As the writer puts bytes. One function for both would add nothing to an assignment but its contract, which is of numbers either way.
pub fn put_word(out: &mut [u64], at: usize, w: u64) -> usize
    requires { at < length out.old }
    ensures { Wrote out.old at (w ∷ []) out.new result }
{
    out[at] = w;
    at + 1
}

// Some words.
pub fn put_words(out: &mut [u64], at: usize, words: &[u64]) -> usize
    requires { at + length words.now ≤ length out.old }
    ensures { Wrote out.old at words.now out.new result }
{
    let end = at + words.len();
    out[at..end].copy_from_slice(words);
    end
}

// The record of the node with number at, where there is room for it. Its two sets stand apart: of a struct's fields a proof does not know
// that they fit a word.
fn put_record(
    out: &mut [u64],
    at: usize,
    depth: usize,
    parent: usize,
    children: usize,
    steps: u64,
    jobs: u64,
)
    requires { at < 1024 }
    ensures { Put at depth parent children steps jobs out.old out.new }
{
    let k = 5 * at;
    if k + 5 <= out.len() {
        let record = [depth as u64, parent as u64, children as u64, steps, jobs];
        put_words(out, k, &record);
    }
}

// The count behind a node: a slot, and an inner node.
fn with_slot(c: Count, l: Label) -> Count
    requires { Small c × (c.nodes < 1024) }
    ensures { (result ≡ counted_on c 1 (length (members_in l.steps)) 1) × Small result }
{
    Count {
        nodes: c.nodes + 1,
        variables: c.variables + size(l.steps),
        slots: c.slots + 1,
    }
}

fn with_inner(ws: &[u64], c: Count, l: Label) -> Count
    requires { Known (table_in ws.now) × Small c × (c.nodes < 1024) }
    ensures { (result ≡ counted_on c 1
        (length (members_in l.steps) + length (members_in l.jobs) + length (methods_of (table_in ws.now) (members_in l.jobs))) 0) × Small result }
{
    let own = size(l.steps) + size(l.jobs) + count_methods(ws, l.jobs);
    Count {
        nodes: c.nodes + 1,
        variables: c.variables + own,
        ..c
    }
}

// The node that may hold l and lies `left` above the table's depth, and all below it: the count behind them. None, where they go past
// 1,024 nodes.
#[cycle(visit_children_visit_node)]
fn visit_node(
    ws: &[u64],
    out: &mut [u64],
    c: Count,
    left: usize,
    parent: usize,
    l: Label,
) -> Option<Count>
    requires { Known (table_in ws.now) × Inside (table_in ws.now) l × Small c × (left ≤ (table_in ws.now).depth) }
    ensures { VisitedPart (table_in ws.now) left parent (label_in l) c out.old out.new result }
{
    if c.nodes == 1024 {
        return None;
    }
    let depth = table::depth(ws) - left;
    if is_inner(left, l.jobs) {
        let n = child_count(ws, l);
        put_record(out, c.nodes, depth, parent, n, l.steps, l.jobs);
        visit_children(ws, out, with_inner(ws, c, l), left - 1, c.nodes, l, 0, n)
    } else {
        put_record(out, c.nodes, depth, parent, 0, l.steps, l.jobs);
        Some(with_slot(c, l))
    }
}

// The m children from child i on of a node that may hold l, each with all below it.
#[cycle(visit_children_visit_node)]
fn visit_children(
    ws: &[u64],
    out: &mut [u64],
    c: Count,
    left: usize,
    parent: usize,
    l: Label,
    i: usize,
    m: usize,
) -> Option<Count>
    requires { Known (table_in ws.now) × Inside (table_in ws.now) l × Small c × (i + m ≤ 8) × (left ≤ (table_in ws.now).depth) }
    ensures { VisitedParts (table_in ws.now) left parent (label_in l) i m c out.old out.new result }
{
    if m == 0 {
        return Some(c);
    }
    let child = child_label(ws, l, i);
    let d = visit_node(ws, out, c, left, parent, child)?;
    visit_children(ws, out, d, left, parent, l, i + 1, m - 1)
}

// Visits the whole tree: its counts, and its records from the first word on, where it has at most 1,024 nodes; None, where it has more.
// "Node 0 is the root, at depth 0, and may hold the root job."
pub fn build(ws: &[u64], out: &mut [u64]) -> Option<Count>
    requires { Known (table_in ws.now) }
    ensures { Built (table_in ws.now) out.old out.new result }
{
    let none = Count {
        nodes: 0,
        variables: 0,
        slots: 0,
    };
    let root = Label {
        steps: 0,
        jobs: with(0, table::root(ws)),
    };
    visit_node(ws, out, none, table::depth(ws), 0, root)
}
