// The reader of table files: any bytes are turned down by the first unmet of questions 2 to 7, or become a table, which is words by value.
// Crates above know a table through the calls below alone, whose contracts speak of the table of `planning` that its words hold (`table_in`);
// where each word stands is said in specs/Layout. No look-up asks anything of the words or the numbers that it is handed.
#![tactic(auto)]

ghost use Rattle.std.specs.Prelude.{◌≡◌, cond, ltb, ◌+◌, ◌*◌, ◌≤◌, ◌<◌, min, length, get_or, take, drop};
ghost use Rattle.std.proofs.Math.Option.{some};
ghost use Rattle.std.proofs.Math.ListN.{get_elem?};
ghost use Rattle.bitset.specs.Set.{members};
ghost use Rattle.planning.specs.Table.{step_of, job_of, body_of};
ghost use Rattle.lines.specs.Part.{bytes_at};
ghost use Rattle.outline.specs.Questions.{most_names};
ghost use Rattle.rows.specs.Answers.{sections_of, Asked};
ghost use Rattle.rows.specs.Uses.{met7};
ghost use Rattle.rows.specs.Words.{fact_words, words_at, task_at};
ghost use Rattle.table.specs.Reading.{read_table, name_parts_of};
ghost use Rattle.table.specs.Layout.{steps_at, table_words, table_in, name_parts_in, task_from, part_at, no_part, Reads};
ghost use Rattle.table.specs.Code.{front, NamesPut, step_set, method_word};

use outline::{
    MOST_FACTS, MOST_IN_BODY, MOST_JOBS, MOST_METHODS, MOST_NAMES, MOST_STEPS, Outline, outline_of,
};
pub use rows::FactSet;
use rows::{Ends, FACT_WORDS, METHOD_WORDS, STEP_WORDS, put_methods, put_steps, read_ends};
use std::array;
use unmet::Unmet;

// Where the words of a table stand. The first six are how many facts, steps, jobs and methods there are, the root job and the depth; the
// facts true at the start come next, then the steps, the methods and the names, a place and a size each.
const START_AT: usize = 6;

const STEPS_AT: usize = START_AT + FACT_WORDS;

const METHODS_AT: usize = STEPS_AT + STEP_WORDS * MOST_STEPS;

const PARTS_AT: usize = METHODS_AT + METHOD_WORDS * MOST_METHODS;

pub const TABLE_WORDS: usize = PARTS_AT + 2 * MOST_NAMES;

// A table that was read.
pub type Words = [u64; TABLE_WORDS];

// The read -------------------------------------------------------------------------------------------------------------------
// The counts, the root job, the depth and the start.
fn put_front(o: &Outline, e: &Ends, out: &mut [u64])
    requires { length out.old ≡ steps_at }
    ensures { let s = o.now.shape in
        out.new ≡ front s.facts s.steps.count s.jobs s.methods.count e.now.root e.now.depth e.now.start }
{
    let s = &o.shape;
    let counts = [
        s.facts,
        s.steps.count,
        s.jobs,
        s.methods.count,
        e.root,
        e.depth,
    ];
    out[..START_AT].copy_from_slice(&counts.map(|n| n as u64));
    out[START_AT..].copy_from_slice(&e.start);
}

// Where the names stand. Those past the last are none, and no look-up reads their words.
fn put_names(o: &Outline, out: &mut [u64])
    requires { length out.old ≡ 2 * most_names }
    ensures { NamesPut most_names o.now.names out.new }
{
    for (i, name) in o.names.iter().enumerate() {
        out[2 * i] = name.start as u64;
        out[2 * i + 1] = name.size as u64;
    }
}

// The table of a file that meets questions 2 to 6, or question 7.
fn words_of(o: &Outline) -> Result<Words, Unmet>
    ensures { let p = sections_of o.now in
        Asked (met7 p) (λ ws. (table_in ws ≡ read_table p) × (name_parts_in ws ≡ name_parts_of p)) result }
{
    let mut words: Words = [0; TABLE_WORDS];
    let (front, rest) = words.split_at_mut(STEPS_AT);
    let (steps, rest) = rest.split_at_mut(METHODS_AT - STEPS_AT);
    let (methods, names) = rest.split_at_mut(PARTS_AT - METHODS_AT);
    let (ends, met) = read_ends(o);
    met?;
    put_front(o, &ends, front);
    put_steps(o, steps)?;
    put_methods(o, methods)?;
    put_names(o, names);
    Ok(words)
}

// Reads any bytes as a table file: the table, or the first of questions 2 to 7 that is not met.
pub fn read(file: &[u8]) -> Result<Words, Unmet>
    ensures { Reads file.now result }
{
    let o = outline_of(file)?;
    words_of(&o)
}

// The look-ups ---------------------------------------------------------------------------------------------------------------
// Word i, or 0 past the last: so that no slice is too short.
fn word(ws: &[u64], i: usize) -> u64
    ensures { result ≡ get_or ws.now i 0 }
{
    ws.get(i).copied().unwrap_or(0)
}

// The count in word i, which is at most so much.
fn count(ws: &[u64], i: usize, most: usize) -> usize
    ensures { result ≡ min (get_or ws.now i 0) most }
{
    (word(ws, i) as usize).min(most)
}

// The words of a set from place p on.
fn set_at(ws: &[u64], p: usize) -> FactSet
    requires { p ≤ table_words }
    ensures { result ≡ words_at ws.now p fact_words }
{
    array::from_fn(|i| word(ws, p + i))
}

// How many facts, steps, jobs and methods there are. Here and below a table is any words, and no struct: no look-up asks more of its caller.
pub fn facts(ws: &[u64]) -> usize
    ensures { result ≡ (table_in ws.now).facts }
{
    count(ws, 0, MOST_FACTS)
}

pub fn steps(ws: &[u64]) -> usize
    ensures { result ≡ length (table_in ws.now).steps }
{
    count(ws, 1, MOST_STEPS)
}

pub fn jobs(ws: &[u64]) -> usize
    ensures { result ≡ (table_in ws.now).jobs }
{
    count(ws, 2, MOST_JOBS)
}

pub fn methods(ws: &[u64]) -> usize
    ensures { result ≡ length (table_in ws.now).methods }
{
    count(ws, 3, MOST_METHODS)
}

// The root job and the depth.
pub fn root(ws: &[u64]) -> usize
    ensures { result ≡ (table_in ws.now).root }
{
    word(ws, 4) as usize
}

pub fn depth(ws: &[u64]) -> usize
    ensures { result ≡ (table_in ws.now).depth }
{
    word(ws, 5) as usize
}

// The facts true at the start.
pub fn start(ws: &[u64]) -> FactSet
    ensures { members result ≡ (table_in ws.now).start }
{
    set_at(ws, START_AT)
}

// Set k of step s: what it needs, what it sets, what it clears. The empty set where there is no such step.
fn step_set(ws: &[u64], s: usize, k: usize) -> FactSet
    requires { k < 3 }
    ensures { result ≡ step_set ws.now s k }
{
    if s < count(ws, 1, MOST_STEPS) {
        set_at(ws, STEPS_AT + STEP_WORDS * s + FACT_WORDS * k)
    } else {
        [0; FACT_WORDS]
    }
}

// The facts that step s needs, sets and clears; none where there is no such step.
pub fn needs(ws: &[u64], s: usize) -> FactSet
    ensures { members result ≡ (step_of (table_in ws.now) s).needs }
{
    step_set(ws, s, 0)
}

pub fn sets(ws: &[u64], s: usize) -> FactSet
    ensures { members result ≡ (step_of (table_in ws.now) s).sets }
{
    step_set(ws, s, 1)
}

pub fn clears(ws: &[u64], s: usize) -> FactSet
    ensures { members result ≡ (step_of (table_in ws.now) s).clears }
{
    step_set(ws, s, 2)
}

// Word k of those of method m; 0 where there is no such method.
fn method_word(ws: &[u64], m: usize, k: usize) -> u64
    requires { k ≤ table_words }
    ensures { result ≡ method_word ws.now m k }
{
    if m < count(ws, 3, MOST_METHODS) {
        word(ws, METHODS_AT + METHOD_WORDS * m + k)
    } else {
        0
    }
}

// The job of method m, and how many tasks its body has; 0 where there is no such method.
pub fn job_of(ws: &[u64], m: usize) -> usize
    ensures { result ≡ job_of (table_in ws.now) m }
{
    method_word(ws, m, 0) as usize
}

pub fn body_size(ws: &[u64], m: usize) -> usize
    ensures { result ≡ length (body_of (table_in ws.now) m) }
{
    (method_word(ws, m, 1) as usize).min(MOST_IN_BODY)
}

// A task of a body: a step or a job by its number.
#[derive(Clone, Copy, Debug, PartialEq, Eq)]
pub enum Task {
    Step(usize),
    Job(usize),
}

// Task k of so many steps and the jobs together.
fn task_at(steps: usize, k: usize) -> Task
    ensures { task_from (Some result) ≡ some (task_at steps k) }
{
    if k < steps {
        Task::Step(k)
    } else {
        Task::Job(k - steps)
    }
}

// A task of a method's body, by its place there; none where the body has no such place.
pub fn body_task(ws: &[u64], m: usize, j: usize) -> Option<Task>
    ensures { task_from result ≡ get_elem? (body_of (table_in ws.now) m) j }
{
    if j < body_size(ws, m) {
        let k = method_word(ws, m, 2 + j) as usize;
        Some(task_at(count(ws, 1, MOST_STEPS), k))
    } else {
        None
    }
}

// The part of s from the place start on, with so many bytes, as far as s has them.
fn part(s: &[u8], start: usize, size: usize) -> &[u8]
    ensures { result.now ≡ take size (drop start s.now) }
{
    let rest = s.get(start..).unwrap_or(&[]);
    rest.get(..size).unwrap_or(rest)
}

// Name i of a kind that has n names, which stand after k names of other kinds: the part of the file where it was declared.
fn name_at<'a>(file: &'a [u8], ws: &[u64], k: usize, n: usize, i: usize) -> &'a [u8]
    requires { k + n ≤ most_names }
    ensures { result.now ≡ bytes_at file.now (cond (ltb i n) (part_at ws.now (k + i)) no_part) }
{
    if i >= n {
        return &[];
    }
    let p = PARTS_AT + 2 * (k + i);
    part(file, word(ws, p) as usize, word(ws, p + 1) as usize)
}

// The names of fact, step and job i: the part of the table's file where each was declared; empty where there is none.
pub fn fact_name<'a>(file: &'a [u8], ws: &[u64], i: usize) -> &'a [u8]
    ensures { result.now ≡ bytes_at file.now (get_or (name_parts_in ws.now).facts i no_part) }
{
    name_at(file, ws, 0, count(ws, 0, MOST_FACTS), i)
}

pub fn step_name<'a>(file: &'a [u8], ws: &[u64], i: usize) -> &'a [u8]
    ensures { result.now ≡ bytes_at file.now (get_or (name_parts_in ws.now).steps i no_part) }
{
    let f = count(ws, 0, MOST_FACTS);
    name_at(file, ws, f, count(ws, 1, MOST_STEPS), i)
}

pub fn job_name<'a>(file: &'a [u8], ws: &[u64], i: usize) -> &'a [u8]
    ensures { result.now ≡ bytes_at file.now (get_or (name_parts_in ws.now).jobs i no_part) }
{
    let k = count(ws, 0, MOST_FACTS) + count(ws, 1, MOST_STEPS);
    name_at(file, ws, k, count(ws, 2, MOST_JOBS), i)
}
