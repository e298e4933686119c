// The calls for other languages, as C functions in one static library: each makes the call of the same name of crate `curdfuture`, and promises
// what that promises. A slice is passed as a pointer and a length, a record of the tree as five 64-bit words in the order of its fields.
// include/curdfuture.h declares them.
#![tactic(auto)]

ghost use Rattle.std.specs.Prelude.{◌≡◌, [], ◌∷◌};
ghost use Rattle.encoding.specs.Calls.{checking, building, tree_after, writing, text_after, writing_formula, formula_after};
ghost use Rattle.answer.specs.Calls.{taking, values_after, showing, listing_after, showing_answer, answer_listing_after};
ghost use Rattle.curdfuture.specs.Numbers.{Crossed};

use nodes::Node;

// Checks a table: how many nodes, variables and clauses there are.
#[unsafe(no_mangle)]
pub extern "C" fn curdfuture_check(
    file: &[u8],
    nodes: &mut usize,
    variables: &mut usize,
    clauses: &mut usize,
) -> usize
    ensures { Crossed (checking file.now) (nodes.old ∷ variables.old ∷ clauses.old ∷ [])
        (nodes.new ∷ variables.new ∷ clauses.new ∷ []) result }
{
    curdfuture::curdfuture_check(file, nodes, variables, clauses)
}

// Builds the tree, one record a node: how many nodes there are.
#[unsafe(no_mangle)]
pub extern "C" fn curdfuture_build(file: &[u8], tree: &mut [Node], nodes: &mut usize) -> usize
    ensures { Crossed (building file.now tree.old) (nodes.old ∷ []) (nodes.new ∷ []) result
        × (tree.new ≡ tree_after file.now tree.old) }
{
    curdfuture::curdfuture_build(file, tree, nodes)
}

// Writes text from a line on: the bytes used and the next line.
#[unsafe(no_mangle)]
pub extern "C" fn curdfuture_write_text(
    file: &[u8],
    tree: &[Node],
    line: usize,
    text: &mut [u8],
    used: &mut usize,
    next: &mut usize,
) -> usize
    ensures { Crossed (writing file.now tree.now line text.old) (used.old ∷ next.old ∷ [])
        (used.new ∷ next.new ∷ []) result
        × (text.new ≡ text_after file.now tree.now line text.old) }
{
    curdfuture::curdfuture_write_text(file, tree, line, text, used, next)
}

// Writes the formula's text from a line on, with no tree lent: the bytes used and the next line.
#[unsafe(no_mangle)]
pub extern "C" fn curdfuture_write_formula(
    file: &[u8],
    line: usize,
    text: &mut [u8],
    used: &mut usize,
    next: &mut usize,
) -> usize
    ensures { Crossed (writing_formula file.now line text.old)
        (used.old ∷ next.old ∷ []) (used.new ∷ next.new ∷ []) result
        × (text.new ≡ formula_after file.now line text.old) }
{
    curdfuture::curdfuture_write_formula(file, line, text, used, next)
}

// Takes an answer: how many values there are.
#[unsafe(no_mangle)]
pub extern "C" fn curdfuture_take_answer(
    file: &[u8],
    tree: &[Node],
    reply: &[u8],
    values: &mut [u8],
    count: &mut usize,
) -> usize
    ensures { Crossed (taking file.now tree.now reply.now values.old) (count.old ∷ [])
        (count.new ∷ []) result
        × (values.new ≡ values_after file.now tree.now reply.now values.old) }
{
    curdfuture::curdfuture_take_answer(file, tree, reply, values, count)
}

// Lists a procedure: the bytes used.
#[unsafe(no_mangle)]
pub extern "C" fn curdfuture_list_procedure(
    file: &[u8],
    tree: &[Node],
    values: &[u8],
    listing: &mut [u8],
    used: &mut usize,
) -> usize
    ensures { Crossed (showing file.now tree.now values.now listing.old) (used.old ∷ [])
        (used.new ∷ []) result
        × (listing.new ≡ listing_after file.now tree.now values.now listing.old) }
{
    curdfuture::curdfuture_list_procedure(file, tree, values, listing, used)
}

// Lists the procedure of an answer, with no tree and no values lent: the bytes used.
#[unsafe(no_mangle)]
pub extern "C" fn curdfuture_list_answer(
    file: &[u8],
    reply: &[u8],
    listing: &mut [u8],
    used: &mut usize,
) -> usize
    ensures { Crossed (showing_answer file.now reply.now listing.old)
        (used.old ∷ []) (used.new ∷ []) result
        × (listing.new ≡ answer_listing_after file.now reply.now listing.old) }
{
    curdfuture::curdfuture_list_answer(file, reply, listing, used)
}
