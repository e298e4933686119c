// The outline of a table file: the texts of its sections, the parts where names are declared, the look-up of a name, and questions 2 to 6.
// Inside the reader, as crate `grammar` is.
#![tactic(auto)]

ghost use Rattle.std.specs.Prelude.{◌≡◌, List, ℕ, [], ◌∷◌, ◌+◌, ◌≤◌, ◌<◌, ◌^◌, length, is_some, IfOk, IfSome};
ghost use Rattle.lists.specs.List.{all};
ghost use Rattle.lists.specs.Question.{first_unmet};
ghost use Rattle.lines.specs.Bytes.{LF, same_bytes};
ghost use Rattle.lines.specs.Parts.{ended, lines_of};
ghost use Rattle.unmet.specs.Number.{unmet_in};
ghost use Rattle.outline.specs.Part.{part_of};
ghost use Rattle.outline.specs.Sections.{sections, is_end};
ghost use Rattle.outline.specs.Names.{all_new, declared};
ghost use Rattle.outline.specs.Questions.{most_names, within_counts, short};
ghost use Rattle.outline.specs.Index.{number_in, most_in, Runs, Shaped, SectionsStand, Held, Indexed, Within, part_in, shown, all_shown};
ghost use Rattle.outline.specs.Outlined.{kind_of, questions2to5, questions2to6};

use grammar::{are_lines, count_names, field_at, fits_and_ends, line_begins};
use lines::next_line;
use unmet::Unmet;

// "At most 64 facts, 64 steps, 64 jobs, 128 methods, 8 names in a body."
pub const MOST_FACTS: usize = 64;

pub const MOST_STEPS: usize = 64;

pub const MOST_JOBS: usize = 64;

pub const MOST_METHODS: usize = 128;

pub const MOST_IN_BODY: usize = 8;

// Facts, steps and jobs have names.
pub const MOST_NAMES: usize = MOST_FACTS + MOST_STEPS + MOST_JOBS;

// Some lines, one after the other: how many, and their text.
#[derive(Clone, Copy)]
pub struct Section<'a> {
    pub count: usize,
    pub text: &'a [u8],
    ghost counted: { count ≡ length (ended LF text.now) },
}

// The lines in front of the text that begin with the byte c, and the text behind them. Left free, where no line stands behind: on which side
// the bytes are that no LF ends.
fn leading(text: &[u8], c: u8) -> (Section<'_>, &[u8])
    ensures { Runs c text.now result.0.text.now result.1.now }
{
    let mut count = 0;
    let mut rest = text;
    while let Some((line, behind)) = next_line(rest) {
        if !line_begins(line, c) {
            break;
        }
        count += 1;
        rest = behind;
    }
    let text = &text[..text.len() - rest.len()];
    (Section { count, text }, rest)
}

// Question 4, of the text behind the M lines: one I line, one R line, no more.
fn last_lines(text: &[u8]) -> Option<(&[u8], &[u8])>
    ensures asked { is_some result ≡ is_end (lines_of text.now) }
    ensures lines { IfSome result (λ x. ended LF text.now ≡ x.0.now ∷ x.1.now ∷ []) }
{
    let (start, behind) = next_line(text)?;
    let (root, behind) = next_line(behind)?;
    if line_begins(start, b'I') && line_begins(root, b'R') && next_line(behind).is_none() {
        Some((start, root))
    } else {
        None
    }
}

// Question 5, of the counts of lines.
fn counts_fit(facts: usize, steps: usize, jobs: usize, methods: usize) -> bool
    ensures { result ≡ within_counts facts steps jobs methods }
{
    facts <= MOST_FACTS && steps <= MOST_STEPS && jobs <= MOST_JOBS && methods <= MOST_METHODS
}

// Question 5, of the bodies of M lines: has each at most so many names?
fn bodies_fit(text: &[u8]) -> bool
    ensures { result ≡ all short (lines_of text.now) }
{
    let mut rest = text;
    while let Some((line, behind)) = next_line(rest) {
        if count_names(field_at(line, 2)) > MOST_IN_BODY {
            return false;
        }
        rest = behind;
    }
    true
}

// The sections of a file that meets questions 2 to 5: how many F and T lines and their texts, the S and the M lines, the I and the R line. The
// texts stand in the file one behind the other, so each section's place is where those before it end.
#[derive(Clone, Copy)]
pub struct Shape<'a> {
    pub file: &'a [u8],
    pub facts: usize,
    pub fact_lines: &'a [u8],
    pub steps: Section<'a>,
    pub jobs: usize,
    pub job_lines: &'a [u8],
    pub methods: Section<'a>,
    pub start: &'a [u8],
    pub root: &'a [u8],
    ghost shaped: { Shaped file.now facts steps.count jobs methods.count steps.text.now methods.text.now start.now root.now },
    ghost stand: { SectionsStand file.now fact_lines.now steps.text.now job_lines.now methods.text.now },
}

// Question 2 comes before any walk of the file, so that one that is too long is turned down at once, however long.
fn shape_of(file: &[u8]) -> Result<Shape<'_>, Unmet>
    ensures question { unmet_in result ≡ first_unmet (questions2to5 file.now) }
    ensures of { IfOk result (λ h. h.file.now ≡ file.now) }
{
    if !fits_and_ends(file) {
        return Err(Unmet::Ended);
    }
    if !are_lines(file) {
        return Err(Unmet::Formed);
    }
    let (facts, behind) = leading(file, b'F');
    let (steps, behind) = leading(behind, b'S');
    let (jobs, behind) = leading(behind, b'T');
    let (methods, behind) = leading(behind, b'M');
    let Some((start, root)) = last_lines(behind) else {
        return Err(Unmet::Ordered);
    };
    if !counts_fit(facts.count, steps.count, jobs.count, methods.count)
        || !bodies_fit(methods.text)
    {
        return Err(Unmet::Limits);
    }
    Ok(Shape {
        file,
        facts: facts.count,
        fact_lines: facts.text,
        steps,
        jobs: jobs.count,
        job_lines: jobs.text,
        methods,
        start,
        root,
    })
}

// Where a name stands: its first byte's place and its size. Two numbers and no slice, since these two are what the words of a table keep of it.
#[derive(Clone, Copy)]
pub struct Span {
    pub start: usize,
    pub size: usize,
}

impl Span {
    // The name itself.
    fn of(self, file: &[u8]) -> &[u8]
        requires { self.start + self.size ≤ length file.now }
        ensures { result.now ≡ shown file.now self }
    {
        &file[self.start..self.start + self.size]
    }

    // Does it show this name? The size is at hand, so it is looked at before any byte is.
    fn shows(self, file: &[u8], name: &[u8]) -> bool
        requires { self.start + self.size ≤ length file.now }
        ensures { result ≡ same_bytes name.now (shown file.now self) }
    {
        self.size == name.len() && is_same(name, self.of(file))
    }
}

// Where the name of the line stands that begins at the place at.
#[tactic(auto, unfolding(crate::specs::Part::part_of, grammar::specs::Line::name_in))]
fn name_of(at: usize, line: &[u8]) -> Span
    requires { at + length line.now < 2 ^ 63 }
    ensures { part_in result ≡ part_of (record { start = at; bytes = line.now }) }
{
    let start = at + field_at(line, 0).len() + 1;
    let size = field_at(line, 1).len();
    Span { start, size }
}

// The names that the first n lines declare: those of F lines, then of S lines, then of T lines.
fn declare(file: &[u8], n: usize) -> [Span; MOST_NAMES]
    requires { (n ≤ most_names) × (n ≤ length (lines_of file.now)) }
    ensures { Held file.now result n }
{
    let mut names = [Span { start: 0, size: 0 }; MOST_NAMES];
    let mut at = 0;
    let mut rest = file;
    for name in &mut names[..n] {
        // None is missing: the file has n lines.
        let Some((line, behind)) = next_line(rest) else {
            break;
        };
        *name = name_of(at, line);
        at += line.len() + 1;
        rest = behind;
    }
    names
}

// Names are often alike but for their ends, as numbered ones are.
fn is_same(a: &[u8], b: &[u8]) -> bool
    ensures { result ≡ same_bytes a.now b.now }
{
    a.last() == b.last() && a == b
}

// The number of a name among those that stand in some parts of the file, whether or not the file has an outline.
pub fn find(file: &[u8], names: &[Span], name: &[u8]) -> Option<usize>
    requires { Within file.now names.now }
    ensures { result ≡ number_in (all_shown file.now names.now) name.now }
{
    names.iter().position(|p| p.shows(file, name))
}

// Question 6, of the names that stand in some parts of the file.
fn are_new(file: &[u8], names: &[Span]) -> bool
    requires { Within file.now names.now }
    ensures { result ≡ all_new (all_shown file.now names.now) }
{
    let mut rest = names;
    while let Some((first, behind)) = rest.split_first() {
        if find(file, behind, first.of(file)).is_some() {
            return false;
        }
        rest = behind;
    }
    true
}

// The kind in which a name is wanted; a task is a step or a job.
#[derive(Clone, Copy, Debug, PartialEq, Eq)]
pub enum Kind {
    Fact,
    Step,
    Job,
    Task,
}

// The names of a kind, of those that a file declares: they stand side by side.
fn of_kind(
    names: &[Span; MOST_NAMES],
    facts: usize,
    steps: usize,
    jobs: usize,
    kind: Kind,
) -> &[Span]
    requires { facts + steps + jobs ≤ most_names }
    ensures within { (s : List ℕ) → Indexed s facts steps jobs names.now → Within s result.now }
    ensures names { (s : List ℕ) → Indexed s facts steps jobs names.now → all_shown s result.now ≡ declared (sections (lines_of s)) (kind_of kind) }
{
    let first_job = facts + steps;
    let end = first_job + jobs;
    match kind {
        Kind::Fact => &names[..facts],
        Kind::Step => &names[facts..first_job],
        Kind::Job => &names[first_job..end],
        Kind::Task => &names[facts..end],
    }
}

// The number of the name among those declared in the kind wanted, whether or not the file has an outline: of its F, S and T lines the counts
// are asked, and where their names stand.
pub fn look_up(
    file: &[u8],
    names: &[Span; MOST_NAMES],
    facts: usize,
    steps: usize,
    jobs: usize,
    kind: Kind,
    name: &[u8],
) -> Option<usize>
    requires { Indexed file.now facts steps jobs names.now }
    ensures { result ≡ number_in (declared (sections (lines_of file.now)) (kind_of kind)) name.now }
{
    find(file, of_kind(names, facts, steps, jobs, kind), name)
}

// A file that meets questions 2 to 6: its sections, and where the names stand that it declares.
#[derive(Clone, Copy)]
pub struct Outline<'a> {
    pub shape: Shape<'a>,
    pub names: [Span; MOST_NAMES],
    ghost held: { Held shape.file.now names (shape.facts + shape.steps.count + shape.jobs) },
}

impl Outline<'_> {
    // The number of the name among those declared in the kind wanted.
    pub fn look_up(&self, kind: Kind, name: &[u8]) -> Option<usize>
        ensures number { result ≡ number_in (declared (sections (lines_of self.now.shape.file.now)) (kind_of kind)) name.now }
        ensures small { IfSome result (λ k. k < most_in (kind_of kind)) }
    {
        let s = &self.shape;
        look_up(
            s.file,
            &self.names,
            s.facts,
            s.steps.count,
            s.jobs,
            kind,
            name,
        )
    }
}

// The outline of a file, or the first of questions 2 to 6 that is not met.
pub fn outline_of(file: &[u8]) -> Result<Outline<'_>, Unmet>
    ensures question { unmet_in result ≡ first_unmet (questions2to6 file.now) }
    ensures of { IfOk result (λ o. o.shape.file.now ≡ file.now) }
{
    let shape = shape_of(file)?;
    let n = shape.facts + shape.steps.count + shape.jobs;
    let names = declare(file, n);
    if !are_new(file, &names[..n]) {
        return Err(Unmet::New);
    }
    Ok(Outline { shape, names })
}
