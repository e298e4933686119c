// The calls for other languages, with numbers for answers; crate `curdfuture_c` makes C functions of them. A Result does not cross that border:
// each call returns the number of the question that is not met, or 0 where all are, and lays its values into numbers that the caller lends; on a
// refusal these too stay as they were.
#![tactic(auto)]

ghost use Rattle.std.specs.Prelude.{◌≡◌, [], ◌∷◌, MatchResult};
ghost use Rattle.unmet.specs.Number.{number_of};
ghost use Rattle.encoding.specs.Calls.{checking, building, tree_after, text_from, writing, text_after, writing_formula, formula_after};
ghost use Rattle.answer.specs.Calls.{taking, values_after, showing, listing_after, showing_answer, answer_listing_after};
ghost use Rattle.curdfuture.specs.Numbers.{Crossed};

use encoding::Lines;
use nodes::Node;
use unmet::Unmet;

// The number that crosses of an outcome: 0 where there is a count, which is laid into what is lent, or the question's.
fn cross(outcome: Result<usize, Unmet>, lent: &mut usize) -> usize
    ensures { MatchResult outcome (λ x. (lent.new ≡ x) × (result ≡ 0)) (λ q. (lent.new ≡ lent.old) × (result ≡ number_of q)) }
{
    match outcome {
        Ok(count) => {
            *lent = count;
            0
        }
        Err(question) => question.number(),
    }
}

// Checks a table: how many nodes, variables and clauses there are.
pub fn curdfuture_check(
    file: &[u8],
    nodes: &mut usize,
    variables: &mut usize,
    clauses: &mut usize,
) -> usize
    ensures { Crossed (checking file.now) (nodes.old ∷ variables.old ∷ clauses.old ∷ [])
        (nodes.new ∷ variables.new ∷ clauses.new ∷ []) result }
{
    match encoding::check(file) {
        Ok(counts) => {
            *nodes = counts.nodes;
            *variables = counts.variables;
            *clauses = counts.clauses;
            0
        }
        Err(unmet) => unmet.number(),
    }
}

// Builds the tree, one record a node: how many nodes there are.
pub fn curdfuture_build(file: &[u8], tree: &mut [Node], nodes: &mut usize) -> usize
    ensures { Crossed (building file.now tree.old) (nodes.old ∷ []) (nodes.new ∷ []) result
        × (tree.new ≡ tree_after file.now tree.old) }
{
    cross(encoding::build(file, tree), nodes)
}

// The number that crosses of a call that writes text: the bytes used and the next line are laid down.
fn cross_lines(written: Result<Lines, Unmet>, used: &mut usize, next: &mut usize) -> usize
    ensures { Crossed (text_from written) (used.old ∷ next.old ∷ []) (used.new ∷ next.new ∷ []) result }
{
    match written {
        Ok(lines) => {
            *used = lines.used;
            *next = lines.next;
            0
        }
        Err(first) => first.number(),
    }
}

// Writes text from a line on: the bytes used and the next line.
pub fn curdfuture_write_text(
    file: &[u8],
    tree: &[Node],
    line: usize,
    text: &mut [u8],
    used: &mut usize,
    next: &mut usize,
) -> usize
    ensures { Crossed (writing file.now tree.now line text.old) (used.old ∷ next.old ∷ [])
        (used.new ∷ next.new ∷ []) result
        × (text.new ≡ text_after file.now tree.now line text.old) }
{
    cross_lines(encoding::write_text(file, tree, line, text), used, next)
}

// Writes the formula's text from a line on, with no tree lent: the bytes used and the next line.
pub fn curdfuture_write_formula(
    file: &[u8],
    line: usize,
    text: &mut [u8],
    used: &mut usize,
    next: &mut usize,
) -> usize
    ensures { Crossed (writing_formula file.now line text.old)
        (used.old ∷ next.old ∷ []) (used.new ∷ next.new ∷ []) result
        × (text.new ≡ formula_after file.now line text.old) }
{
    cross_lines(encoding::write_formula(file, line, text), used, next)
}

// Takes an answer: how many values there are.
pub fn curdfuture_take_answer(
    file: &[u8],
    tree: &[Node],
    reply: &[u8],
    values: &mut [u8],
    count: &mut usize,
) -> usize
    ensures { Crossed (taking file.now tree.now reply.now values.old) (count.old ∷ [])
        (count.new ∷ []) result
        × (values.new ≡ values_after file.now tree.now reply.now values.old) }
{
    cross(answer::take_answer(file, tree, reply, values), count)
}

// Lists a procedure: the bytes used.
pub fn curdfuture_list_procedure(
    file: &[u8],
    tree: &[Node],
    values: &[u8],
    listing: &mut [u8],
    used: &mut usize,
) -> usize
    ensures { Crossed (showing file.now tree.now values.now listing.old) (used.old ∷ [])
        (used.new ∷ []) result
        × (listing.new ≡ listing_after file.now tree.now values.now listing.old) }
{
    cross(answer::list_procedure(file, tree, values, listing), used)
}

// Lists the procedure of an answer, with no tree and no values lent: the bytes used.
pub fn curdfuture_list_answer(
    file: &[u8],
    reply: &[u8],
    listing: &mut [u8],
    used: &mut usize,
) -> usize
    ensures { Crossed (showing_answer file.now reply.now listing.old)
        (used.old ∷ []) (used.new ∷ []) result
        × (listing.new ≡ answer_listing_after file.now reply.now listing.old) }
{
    cross(answer::list_answer(file, reply, listing), used)
}
