// The answer's calls: any file, any lent tree, any answer and any buffer. Each puts its questions in document 01's order and hands back
// the first that is not met, or its values; on a refusal nothing lent has changed.
#![tactic(auto)]

ghost use Rattle.std.specs.Prelude.{◌≡◌, ◌≤◌, IfOk, leb, length};
ghost use Rattle.lists.specs.List.{all};
ghost use Rattle.lists.specs.Question.{first_unmet};
ghost use Rattle.unmet.specs.Number.{unmet_in};
ghost use Rattle.planning.specs.Model.{bits, truths_in};
ghost use Rattle.planning.specs.Variable.{variables};
ghost use Rattle.table.specs.Layout.{table_in};
ghost use Rattle.index.specs.Index.{index_of};
ghost use Rattle.answer.specs.Calls.{answered, met15, taken_from, taking, values_after, listed_from, showing, listing_after};
ghost use Rattle.answer.specs.Calls.{showing_answer, answer_listing_after};
ghost use Rattle.answer.specs.Parts.{questions_heard, Showed};

use nodes::Node;
use questions::{Accepted, INDEX_WORDS, MOST_NODES, MOST_VARIABLES, RECORD_WORDS, SMALL_INDEX};
use unmet::Unmet;

// 1. "Are lent buffers long enough: .. 8,191 for values, 24,576 for a listing?"
pub const VALUES_LEAST: usize = MOST_VARIABLES;

pub const LISTING_LEAST: usize = 24576;

// Taking an answer -------------------------------------------------------------------------------------------------------------
// Questions 12 to 14: the values that an answer gives a table's variables, put into cells that are lent. What these hold afterwards is left free.
fn hear<'a>(
    accepted: &Accepted<'_>,
    answer: &[u8],
    cells: &'a mut [u8; MOST_VARIABLES],
) -> Result<&'a [u8], Unmet>
    ensures question { unmet_in result ≡ first_unmet (questions_heard answer.now (table_in accepted.now.table)) }
    ensures values { IfOk result (λ vs. vs.now ≡ bits (answered (table_in accepted.now.table) answer.now)) }
{
    let values = &mut cells[..accepted.variables];
    cells::read(answer, values)?;
    Ok(values)
}

// Question 15, by an index in N words. Here and below not inlined, so that no call has an index on its stack while it reads the table, nor the
// words of both lengths.
#[inline(never)]
fn is_model_by<const N: usize>(accepted: &Accepted<'_>, values: &[u8]) -> bool
    requires { (length (index_of (table_in accepted.now.table)) ≤ N) × (N ≤ 65536) }
    ensures { result ≡ met15 (table_in accepted.now.table) (truths_in values.now) }
{
    let mut words = [0u64; N];
    let e = accepted.encoded(&mut words);
    model::is_model(&e, values)
}

fn is_model(accepted: &Accepted<'_>, values: &[u8]) -> bool
    ensures { result ≡ met15 (table_in accepted.now.table) (truths_in values.now) }
{
    if accepted.index_words() <= SMALL_INDEX {
        is_model_by::<SMALL_INDEX>(accepted, values)
    } else {
        is_model_by::<INDEX_WORDS>(accepted, values)
    }
}

// Takes an answer: questions 1, 2 to 9, 10 and 12 to 15. The values are held apart until all are met.
pub fn take_answer(
    file: &[u8],
    tree: &[Node],
    answer: &[u8],
    values: &mut [u8],
) -> Result<usize, Unmet>
    ensures { (taken_from result ≡ taking file.now tree.now answer.now values.old)
        × (values.new ≡ values_after file.now tree.now answer.now values.old) }
{
    if tree.len() < MOST_NODES || values.len() < VALUES_LEAST {
        return Err(Unmet::Room);
    }
    let mut records = [0u64; RECORD_WORDS];
    let accepted = questions::accept(file, &mut records)?;
    if !accepted.is_own(tree) {
        return Err(Unmet::SameTree);
    }
    let mut cells = [0u8; MOST_VARIABLES];
    let heard = hear(&accepted, answer, &mut cells)?;
    if !is_model(&accepted, heard) {
        return Err(Unmet::Satisfied);
    }
    writer::put_bytes(values, 0, heard);
    Ok(heard.len())
}

// Listing a procedure ----------------------------------------------------------------------------------------------------------
// Is each of these 0 or 1?
fn are_binary(values: &[u8]) -> bool
    ensures { result ≡ all (λ v. leb v 1) values.now }
{
    values.iter().all(|v| *v <= 1)
}

// Question 15, and the lines, by an index in N words.
#[inline(never)]
fn list_by<const N: usize>(
    accepted: &Accepted<'_>,
    values: &[u8],
    text: &mut [u8],
) -> Result<usize, Unmet>
    requires { (length (index_of (table_in accepted.now.table)) ≤ N) × (N ≤ 65536)
        × (length values.now ≡ variables (table_in accepted.now.table)) × (24576 ≤ length text.old) }
    ensures { Showed accepted.now.file.now (table_in accepted.now.table) (truths_in values.now) text.old text.new result }
{
    let mut words = [0u64; N];
    let e = accepted.encoded(&mut words);
    if model::is_model(&e, values) {
        Ok(listing::write(accepted.file, &e, accepted.records, values, text))
    } else {
        Err(Unmet::Satisfied)
    }
}

fn list_lines(accepted: &Accepted<'_>, values: &[u8], text: &mut [u8]) -> Result<usize, Unmet>
    requires { (length values.now ≡ variables (table_in accepted.now.table)) × (24576 ≤ length text.old) }
    ensures { Showed accepted.now.file.now (table_in accepted.now.table) (truths_in values.now) text.old text.new result }
{
    if accepted.index_words() <= SMALL_INDEX {
        list_by::<SMALL_INDEX>(accepted, values, text)
    } else {
        list_by::<INDEX_WORDS>(accepted, values, text)
    }
}

// Lists a procedure: questions 1, 2 to 9, 10, 14 and 15.
pub fn list_procedure(
    file: &[u8],
    tree: &[Node],
    values: &[u8],
    text: &mut [u8],
) -> Result<usize, Unmet>
    ensures { (listed_from result ≡ showing file.now tree.now values.now text.old)
        × (text.new ≡ listing_after file.now tree.now values.now text.old) }
{
    if tree.len() < MOST_NODES || values.len() < VALUES_LEAST || text.len() < LISTING_LEAST {
        return Err(Unmet::Room);
    }
    let mut records = [0u64; RECORD_WORDS];
    let table = questions::accept(file, &mut records)?;
    if !table.is_own(tree) {
        return Err(Unmet::SameTree);
    }
    let own = &values[..table.variables];
    if !are_binary(own) {
        return Err(Unmet::EachOnce);
    }
    list_lines(&table, own, text)
}

// Lists the procedure of an answer, with no tree and no values lent: questions 1, 2 to 9 and 12 to 15.
pub fn list_answer(file: &[u8], answer: &[u8], text: &mut [u8]) -> Result<usize, Unmet>
    ensures { (listed_from result ≡ showing_answer file.now answer.now text.old)
        × (text.new ≡ answer_listing_after file.now answer.now text.old) }
{
    if text.len() < LISTING_LEAST {
        return Err(Unmet::Room);
    }
    let mut records = [0u64; RECORD_WORDS];
    let accepted = questions::accept(file, &mut records)?;
    let mut cells = [0u8; MOST_VARIABLES];
    let values = hear(&accepted, answer, &mut cells)?;
    list_lines(&accepted, values, text)
}
