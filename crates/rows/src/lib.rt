// The lines of a table file as words, and question 7: fact lists as sets, bodies as tasks, the start, the root job and the depth. Names are
// looked up in the outline of a file that meets questions 2 to 6. Each `put_` function fills the words that it is lent; where question 7 is not
// met, it says that question and what stands in them all the same. Inside the reader, as crate `grammar` is.
#![tactic(auto)]

ghost use Rattle.std.specs.Prelude.{◌≡◌, [], ◌&&◌, ◌+◌, ◌-◌, ◌*◌, ◌≤◌, length, get_or, MatchOption, ⊤};
ghost use Rattle.lists.specs.List.{all};
ghost use Rattle.lines.specs.Parts.{split};
ghost use Rattle.grammar.specs.Byte.{comma};
ghost use Rattle.grammar.specs.Name.{names_in};
ghost use Rattle.grammar.specs.Line.{name_in, body_in, start_in};
ghost use Rattle.outline.specs.Sections.{start_line, root_line};
ghost use Rattle.outline.specs.Index.{bytes_of};
ghost use Rattle.outline.specs.Names.{among, number_of, fact, job, task, declared};
ghost use Rattle.outline.specs.Outlined.{kind_of};
ghost use Rattle.rows.specs.Uses.{are_facts, uses_facts, uses_tasks};
ghost use Rattle.rows.specs.Words.{fact_words, step_words, method_words};
ghost use Rattle.rows.specs.Answers.{sections_of, Asked, FactsMean, StepStands, StepsStand, BodyStands, MethodStands, MethodsStand, EndsMean, EndsStand};

use grammar::{count_names, field_at, is_hyphen};
use lines::{next_line, split_first};
use outline::{Kind, MOST_IN_BODY, Outline};
use unmet::Unmet;

// The words of a set of facts, 64 facts a word; of a step, which is three sets; of a method: its job, the size of its body, and its tasks.
pub const FACT_WORDS: usize = 1;

pub const STEP_WORDS: usize = 3 * FACT_WORDS;

pub const METHOD_WORDS: usize = 2 + MOST_IN_BODY;

pub type FactSet = [u64; FACT_WORDS];

// The number of a name among those declared in the kind wanted: question 7.
fn number_of(o: &Outline, kind: Kind, name: &[u8]) -> Result<usize, Unmet>
    ensures { let names = declared (sections_of o.now) (kind_of kind) in
        Asked (among names name.now) (λ k. k ≡ number_of names name.now) result }
{
    o.look_up(kind, name).ok_or(Unmet::Declared)
}

// The names of a list, still to be parted by commas: none in a lone hyphen.
#[tactic(auto, unfolding(grammar::specs::Name::names_in))]
fn names_of(list: &[u8]) -> Option<&[u8]>
    ensures { MatchOption result (names_in list.now ≡ []) (λ names. names_in list.now ≡ split comma names.now) }
{
    if is_hyphen(list) { None } else { Some(list) }
}

// The facts that a list names, as a set.
fn fact_set(o: &Outline, list: &[u8]) -> Result<FactSet, Unmet>
    ensures { let facts = declared (sections_of o.now) fact in
        Asked (are_facts facts (names_in list.now)) (FactsMean fact_words facts (names_in list.now)) result }
{
    let mut set: FactSet = [0; FACT_WORDS];
    let mut left = names_of(list);
    while let Some(names) = left {
        let (name, behind) = split_first(names, b',');
        let fact = number_of(o, Kind::Fact, name)?;
        if bitset::has(&set, fact) {
            return Err(Unmet::Declared);
        }
        bitset::insert(&mut set, fact);
        left = behind;
    }
    Ok(set)
}

// An S line as a step's words.
fn put_step(o: &Outline, line: &[u8], out: &mut [u64]) -> Result<(), Unmet>
    requires { length out.old ≡ step_words }
    ensures { let facts = declared (sections_of o.now) fact in Asked (uses_facts facts line.now) (λ _. StepStands facts line.now 0 out.new) result }
{
    let needs = fact_set(o, field_at(line, 2))?;
    let sets = fact_set(o, field_at(line, 3))?;
    let clears = fact_set(o, field_at(line, 4))?;
    let step = [needs, sets, clears];
    out.copy_from_slice(step.as_flattened());
    Ok(())
}

// The S lines, one step after the other. Each line's words stand whatever the others say, so the walk goes on past a refusal. By places: with
// `chunks_exact_mut` the proof did not close, since of what is written through chunks it knows no more than the length.
pub fn put_steps(o: &Outline, out: &mut [u64]) -> Result<(), Unmet>
    requires { step_words * o.now.shape.steps.count ≤ length out.old }
    ensures { let facts = declared (sections_of o.now) fact in let lines = bytes_of (sections_of o.now).steps in
        Asked (all (uses_facts facts) lines) (λ _. ⊤) result × StepsStand facts lines out.new }
{
    let mut met = Ok(());
    let mut at = 0;
    let mut text = o.shape.steps.text;
    while let Some((line, behind)) = next_line(text) {
        met = met.and(put_step(o, line, &mut out[at..at + STEP_WORDS]));
        at += STEP_WORDS;
        text = behind;
    }
    met
}

// A body: its tasks' numbers; for a name that is not declared, the count of tasks. Each stands whatever the others say.
fn put_body(o: &Outline, list: &[u8], out: &mut [u64]) -> Result<(), Unmet>
    requires { length (names_in list.now) ≤ length out.old }
    ensures { let tasks = declared (sections_of o.now) task in
        Asked (all (among tasks) (names_in list.now)) (λ _. ⊤) result × BodyStands tasks (names_in list.now) out.new }
{
    let count = o.shape.steps.count + o.shape.jobs;
    let mut met = Ok(());
    let mut size = 0;
    let mut left = names_of(list);
    while let Some(names) = left {
        let (name, behind) = split_first(names, b',');
        let task = number_of(o, Kind::Task, name);
        out[size] = task.unwrap_or(count) as u64;
        met = task.and(met);
        size += 1;
        left = behind;
    }
    met
}

// An M line as a method's words; for a job that is not declared, the count of jobs.
fn put_method(o: &Outline, line: &[u8], out: &mut [u64]) -> Result<(), Unmet>
    requires { 2 + length (body_in line.now) ≤ length out.old }
    ensures { let jobs = declared (sections_of o.now) job in let tasks = declared (sections_of o.now) task in
        Asked (uses_tasks jobs tasks line.now) (λ _. ⊤) result × MethodStands jobs tasks line.now 0 out.new }
{
    let job = number_of(o, Kind::Job, field_at(line, 1));
    let body = field_at(line, 2);
    out[0] = job.unwrap_or(o.shape.jobs) as u64;
    out[1] = count_names(body) as u64;
    job.and(put_body(o, body, &mut out[2..]))
}

// The M lines, one method after the other, past refusals as well. A loop beside that of `put_steps`: one for both would take a closure, and ask
// for all that the two lines' functions say in clauses of its own, which is no plainer.
pub fn put_methods(o: &Outline, out: &mut [u64]) -> Result<(), Unmet>
    requires { method_words * o.now.shape.methods.count ≤ length out.old }
    ensures { let jobs = declared (sections_of o.now) job in let tasks = declared (sections_of o.now) task in
        let lines = bytes_of (sections_of o.now).methods in
        Asked (all (uses_tasks jobs tasks) lines) (λ _. ⊤) result × MethodsStand jobs tasks lines out.new }
{
    let mut met = Ok(());
    let mut at = 0;
    let mut text = o.shape.methods.text;
    while let Some((line, behind)) = next_line(text) {
        met = met.and(put_method(o, line, &mut out[at..at + METHOD_WORDS]));
        at += METHOD_WORDS;
        text = behind;
    }
    met
}

// The number that the first byte of the field says as a digit.
fn digit_of(field: &[u8]) -> usize
    ensures { result ≡ get_or field.now 0 0 - 48 }
{
    let digit = field.first().copied().unwrap_or(0);
    usize::from(digit.saturating_sub(b'0'))
}

// The I line and the R line: the facts true at the start, the root job and the depth.
#[derive(Clone, Copy)]
pub struct Ends {
    pub start: FactSet,
    pub root: usize,
    pub depth: usize,
}

// For a root job that is not declared, the count of jobs. Each stands whatever the others say.
pub fn read_ends(o: &Outline) -> (Ends, Result<(), Unmet>)
    ensures { let p = sections_of o.now in
        Asked (are_facts (declared p fact) (start_in (start_line p)) && among (declared p job) (name_in (root_line p))) (λ _. EndsMean p result.0) result.1
        × EndsStand p result.0 }
{
    let start = fact_set(o, field_at(o.shape.start, 1));
    let root = number_of(o, Kind::Job, field_at(o.shape.root, 1));
    let depth = digit_of(field_at(o.shape.root, 2));
    let ends = Ends {
        start: start.unwrap_or([0; FACT_WORDS]),
        root: root.unwrap_or(o.shape.jobs),
        depth,
    };
    (ends, start.and(root).and(Ok(())))
}
