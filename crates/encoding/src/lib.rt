// The formula part's calls: any file, any lent tree, any line and any buffer. Each puts its questions in document 01's order and hands
// back the first that is not met, or its values; on a refusal nothing lent has changed.
#![tactic(auto)]

ghost use Rattle.std.specs.Prelude.{◌≡◌, ◌≤◌, length};
ghost use Rattle.planning.specs.Clause.{formula};
ghost use Rattle.table.specs.Layout.{table_in};
ghost use Rattle.index.specs.Index.{index_of};
ghost use Rattle.encoding.specs.Calls.{checked_from, checking, built_from, building, tree_after};
ghost use Rattle.encoding.specs.Calls.{text_from, writing, text_after, writing_formula, formula_after};
ghost use Rattle.encoding.specs.Parts.{Lined};

use nodes::Node;
use questions::{Accepted, INDEX_WORDS, MOST_NODES, RECORD_WORDS, SMALL_INDEX};
pub use text::Lines;
use unmet::Unmet;

// 1. "Are lent buffers long enough: .. 1,024 bytes for text ..?"
pub const TEXT_LEAST: usize = 1024;

// How many nodes, variables and clauses a table has.
#[derive(Clone, Copy)]
pub struct Counts {
    pub nodes: usize,
    pub variables: usize,
    pub clauses: usize,
}

// How many clauses there are, by an index in N words. Here and below not inlined, so that no call has an index on its stack while it reads the
// table, nor the words of both lengths.
#[inline(never)]
fn clauses_by<const N: usize>(accepted: &Accepted<'_>) -> usize
    requires { (length (index_of (table_in accepted.now.table)) ≤ N) × (N ≤ 65536) }
    ensures { result ≡ length (formula (table_in accepted.now.table)) }
{
    let mut words = [0u64; N];
    let e = accepted.encoded(&mut words);
    cursor::count_all(&e)
}

// Here and in the calls below: no table with a short index has the longest cleared for it. A closure that is handed the words would do for
// a count, but of what it writes into a captured buffer no proof knows.
fn count_clauses(accepted: &Accepted<'_>) -> usize
    ensures { result ≡ length (formula (table_in accepted.now.table)) }
{
    if accepted.index_words() <= SMALL_INDEX {
        clauses_by::<SMALL_INDEX>(accepted)
    } else {
        clauses_by::<INDEX_WORDS>(accepted)
    }
}

// Checks a table: questions 2 to 9.
pub fn check(file: &[u8]) -> Result<Counts, Unmet>
    ensures { checked_from result ≡ checking file.now }
{
    let mut records = [0u64; RECORD_WORDS];
    let table = questions::accept(file, &mut records)?;
    Ok(Counts {
        nodes: table.counts.nodes,
        variables: table.variables,
        clauses: count_clauses(&table),
    })
}

// Builds the tree: questions 1 and 2 to 9. All are put before a record is written.
pub fn build(file: &[u8], tree: &mut [Node]) -> Result<usize, Unmet>
    ensures { (built_from result ≡ building file.now tree.old)
        × (tree.new ≡ tree_after file.now tree.old) }
{
    if tree.len() < MOST_NODES {
        return Err(Unmet::Room);
    }
    let mut records = [0u64; RECORD_WORDS];
    let own = questions::accept(file, &mut records)?;
    own.lay(tree);
    Ok(own.counts.nodes)
}

// Question 11, and the lines, by an index in N words.
#[inline(never)]
fn lines_by<const N: usize>(
    accepted: &Accepted<'_>,
    line: usize,
    text: &mut [u8],
) -> Result<Lines, Unmet>
    requires { (length (index_of (table_in accepted.now.table)) ≤ N) × (N ≤ 65536) }
    ensures { Lined (table_in accepted.now.table) line text.old text.new result }
{
    let mut words = [0u64; N];
    let e = accepted.encoded(&mut words);
    let clauses = cursor::count_all(&e);
    if line > clauses {
        return Err(Unmet::Line);
    }
    Ok(text::put_text(&e, text, accepted.variables, clauses, line))
}

fn write_lines(accepted: &Accepted<'_>, line: usize, text: &mut [u8]) -> Result<Lines, Unmet>
    ensures { Lined (table_in accepted.now.table) line text.old text.new result }
{
    if accepted.index_words() <= SMALL_INDEX {
        lines_by::<SMALL_INDEX>(accepted, line, text)
    } else {
        lines_by::<INDEX_WORDS>(accepted, line, text)
    }
}

// Writes text: questions 1, 2 to 9, 10 and 11.
pub fn write_text(file: &[u8], tree: &[Node], line: usize, text: &mut [u8]) -> Result<Lines, Unmet>
    ensures { (text_from result ≡ writing file.now tree.now line text.old)
        × (text.new ≡ text_after file.now tree.now line text.old) }
{
    if tree.len() < MOST_NODES || text.len() < TEXT_LEAST {
        return Err(Unmet::Room);
    }
    let mut records = [0u64; RECORD_WORDS];
    let accepted = questions::accept(file, &mut records)?;
    if !accepted.is_own(tree) {
        return Err(Unmet::SameTree);
    }
    write_lines(&accepted, line, text)
}

// Writes the formula's text with no tree lent: questions 1, 2 to 9 and 11.
pub fn write_formula(file: &[u8], line: usize, text: &mut [u8]) -> Result<Lines, Unmet>
    ensures { (text_from result ≡ writing_formula file.now line text.old)
        × (text.new ≡ formula_after file.now line text.old) }
{
    if text.len() < TEXT_LEAST {
        return Err(Unmet::Room);
    }
    let mut records = [0u64; RECORD_WORDS];
    let accepted = questions::accept(file, &mut records)?;
    write_lines(&accepted, line, text)
}
