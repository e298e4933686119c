// The literals of one clause, by its place, written as numbers: 2 * v for variable v, 2 * v + 1 for v negated.
#![tactic(auto)]

mod codes;
mod letters;
pub mod lookup;
mod slots;

ghost use Rattle.std.specs.Prelude.{◌≡◌, map, ◌≤◌, ◌<◌, length};
ghost use Rattle.lists.specs.Written.{Wrote};
ghost use Rattle.writer.specs.Literal.{code_of};
ghost use Rattle.places.specs.Nest.{at};
ghost use Rattle.places.specs.ClausePlace.{row_len, place_at, literals as literalsOf};
ghost use Rattle.shape.specs.Shape.{HasLetter};
ghost use Rattle.shape.specs.Views.{source_of};

pub use codes::Codes;
use shape::Encoded;
use table::Task;

// The literals of the clause at a place, which are at most 129. The place is six numbers here, and a struct only as a cursor, which crates
// above have: the definitions take a place number by number.
pub fn fill_codes(
    out: &mut Codes,
    e: &Encoded,
    r: usize,
    n: usize,
    g: usize,
    x: usize,
    y: usize,
    i: usize,
)
    requires { HasLetter (source_of e.now) r n g × (i < row_len (source_of e.now) r n g x y) }
    ensures { out.new ≡ map code_of (literalsOf (source_of e.now) (place_at (source_of e.now) (at r n g x y i))) }
{
    out.clear();
    match r {
        0 => letters::push_task(out, &e.node(0), Task::Job(table::root(e.table))),
        1 => letters::node_clause(out, &e.node(n), g, x, y, i),
        2 => slots::start(out, e, i),
        _ => slots::slot_clause(out, &e.slot(n), g, x, y, i),
    }
}

// The same in a caller's words, from their first place on: how many they are comes back, and the words behind them stay.
pub fn literals(
    e: &Encoded,
    out: &mut [u64],
    r: usize,
    n: usize,
    g: usize,
    x: usize,
    y: usize,
    i: usize,
) -> usize
    requires { HasLetter (source_of e.now) r n g × (i < row_len (source_of e.now) r n g x y) × (136 ≤ length out.old) }
    ensures { Wrote out.old 0 (map code_of (literalsOf (source_of e.now) (place_at (source_of e.now) (at r n g x y i)))) out.new result }
{
    let mut codes = Codes::new();
    fill_codes(&mut codes, e, r, n, g, x, y, i);
    let clause = codes.as_slice();
    let size = clause.len();
    out[..size].copy_from_slice(clause);
    size
}
