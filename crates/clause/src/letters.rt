// Rule 2: the clauses (a) to (g) of a node.
ghost use Rattle.std.specs.Prelude.{◌≡◌, [], ◌∷◌, ◌+◌, ◌++◌, ◌≤◌, ◌<◌, eqb, length};
ghost use Rattle.lists.specs.List.{filter};
ghost use Rattle.bitset.specs.Set.{contains, members};
ghost use Rattle.planning.specs.Table.{job_of};
ghost use Rattle.planning.specs.Clause.{neg, all_pos};
ghost use Rattle.table.specs.Layout.{task_from};
ghost use Rattle.places.specs.Nest.{at};
ghost use Rattle.places.specs.Flat.{tasks_at, method_vars_at};
ghost use Rattle.places.specs.Lookup.{rank, lit_if};
ghost use Rattle.places.specs.ClausePlace.{methods_of, job_of_method, up as upPlace, row_len, place_at};
ghost use Rattle.places.specs.ClausePlace.{literals as literalsOf};
ghost use Rattle.shape.specs.Shape.{HasLetter};
ghost use Rattle.shape.specs.Views.{table_of, source_of, flat};
ghost use Rattle.clause.specs.Parts.{codes, lits_of, at_child as atChild};

use super::codes::Codes;
use super::lookup::{holds, rank_in};
use shape::Node;
use table::Task;

// The variable of member i of the set in a word, whose variables begin at v; nothing where it is no member.
fn push_member(out: &mut Codes, v: usize, set: u64, i: usize)
    requires { (length out.old < 136) × (v ≤ 65536) }
    ensures { out.new ≡ out.old ++ codes (lit_if (contains (set ∷ []) i) (v + rank (members (set ∷ [])) i)) }
{
    out.push_if(v + rank_in(set, i), holds(set, i));
}

// The variable of a task at a node; nothing where it has none there.
pub fn push_task(out: &mut Codes, node: &Node, task: Task)
    requires { length out.old < 136 }
    ensures { out.new ≡ out.old ++ codes (lits_of (task_from (Some task)) (flat node.now)) }
{
    match task {
        Task::Step(s) => push_member(out, node.own_variable(0), node.step_set(), s),
        Task::Job(j) => push_member(out, node.job_variable(0), node.job_set(), j),
    }
}

// The variables of the methods of job j.
fn push_methods(out: &mut Codes, node: &Node, j: usize)
    requires { length out.old + 128 ≤ 136 }
    ensures { out.new ≡ out.old
        ++ codes (all_pos (filter (λ m. eqb (job_of (table_of node.now.encoded) m.1) j) (method_vars_at (flat node.now)))) }
{
    for x in 0..node.methods() {
        let job = table::job_of(node.encoded.table, node.method(x));
        out.push_if(node.method_variable(x), job == j);
    }
}

// The task variables.
fn push_tasks(out: &mut Codes, node: &Node)
    requires { length out.old + 128 ≤ 136 }
    ensures { out.new ≡ out.old ++ codes (all_pos (tasks_at (flat node.now))) }
{
    for x in 0..node.tasks() {
        out.push(node.own_variable(x), true);
    }
}

// (a) and (b): variable v, and the one that comes i + 1 behind it.
fn apart(out: &mut Codes, v: usize, i: usize)
    requires { (length out.old + 2 ≤ 136) × (v < 65536) × (i < 128) }
    ensures { out.new ≡ out.old ++ codes (neg v ∷ neg (v + (i + 1)) ∷ []) }
{
    out.push_pair(v, v + (i + 1), false);
}

// (c) job x, then its methods.
fn methods_of_job(out: &mut Codes, node: &Node, x: usize)
    requires { (length out.old + 129 ≤ 136) × (x < length (flat node.now).jobs) }
    ensures { out.new ≡ out.old ++ codes (literalsOf (source_of node.now.encoded) (methods_of node.now.number x)) }
{
    out.push(node.job_variable(x), false);
    push_methods(out, node, node.job(x));
}

// (d) method x, then its job.
fn job_of_method(out: &mut Codes, node: &Node, x: usize)
    requires { (length out.old + 129 ≤ 136) × (x < length (flat node.now).methods) }
    ensures { out.new ≡ out.old ++ codes (literalsOf (source_of node.now.encoded) (job_of_method node.now.number x)) }
{
    let job = table::job_of(node.encoded.table, node.method(x));
    out.push(node.method_variable(x), false);
    push_task(out, node, Task::Job(job));
}

// (e) and (f): v, then what child y has of the task that is named there; where none is, the child's task variable i.
fn at_child(out: &mut Codes, node: &Node, v: usize, y: usize, named: Option<Task>, i: usize)
    requires { (length out.old + 129 ≤ 136) × (v < 65536) × (y < length (flat node.now).children) × (i ≤ 128) }
    ensures { out.new ≡ out.old ++ codes (atChild (flat node.now) v y (task_from named) i) }
{
    match named {
        Some(task) => {
            out.push(v, false);
            push_task(out, &node.child(y), task);
        }
        None => out.push_pair(v, node.child_variable(y, i), false),
    }
}

// (e) method x at child y: what its body names there.
fn body(out: &mut Codes, node: &Node, x: usize, y: usize, i: usize)
    requires { (length out.old + 129 ≤ 136) × (x < length (flat node.now).methods) × (y < length (flat node.now).children) × (i ≤ 128) }
    ensures { out.new ≡ out.old ++ codes (literalsOf (source_of node.now.encoded)
        (place_at (source_of node.now.encoded) (at 1 node.now.number 4 x y i))) }
{
    let named = table::body_task(node.encoded.table, node.method(x), y);
    at_child(out, node, node.method_variable(x), y, named, i);
}

// (f) step x at child y: the same step at the first.
fn pass(out: &mut Codes, node: &Node, x: usize, y: usize, i: usize)
    requires { (length out.old + 129 ≤ 136) × (x < length (flat node.now).steps) × (y < length (flat node.now).children) × (i ≤ 128) }
    ensures { out.new ≡ out.old ++ codes (literalsOf (source_of node.now.encoded)
        (place_at (source_of node.now.encoded) (at 1 node.now.number 5 x y i))) }
{
    let named = if y == 0 {
        Some(Task::Step(node.step(x)))
    } else {
        None
    };
    at_child(out, node, node.own_variable(x), y, named, i);
}

// (g) the task variables, then a child's variable negated.
fn up(out: &mut Codes, node: &Node, below: usize)
    requires { (length out.old + 129 ≤ 136) × (below < 100000) }
    ensures { out.new ≡ out.old ++ codes (literalsOf (source_of node.now.encoded) (upPlace node.now.number below)) }
{
    push_tasks(out, node);
    out.push(below, false);
}

// (a) to (g).
pub fn node_clause(out: &mut Codes, node: &Node, g: usize, x: usize, y: usize, i: usize)
    requires { (length out.old + 129 ≤ 136) × HasLetter (source_of node.now.encoded) 1 node.now.number g
        × (i < row_len (source_of node.now.encoded) 1 node.now.number g x y) }
    ensures { out.new ≡ out.old ++ codes (literalsOf (source_of node.now.encoded)
        (place_at (source_of node.now.encoded) (at 1 node.now.number g x y i))) }
{
    match g {
        0 => apart(out, node.own_variable(x), i),
        1 => apart(out, node.method_variable(x), i),
        2 => methods_of_job(out, node, i),
        3 => job_of_method(out, node, i),
        4 => body(out, node, x, y, i),
        5 => pass(out, node, x, y, i),
        _ => up(out, node, node.child_variable(x, i)),
    }
}
