// Rules 3 and 4: facts at the start, and the clauses of a slot.
ghost use Rattle.std.specs.Prelude.{◌≡◌, ◌+◌, ◌++◌, ◌≤◌, ◌<◌, length, get_or};
ghost use Rattle.lists.specs.List.{filter, has};
ghost use Rattle.planning.specs.Table.{step_of};
ghost use Rattle.planning.specs.Clause.{all_pos, drops as dropsFact};
ghost use Rattle.table.specs.Layout.{table_in};
ghost use Rattle.places.specs.Nest.{at};
ghost use Rattle.places.specs.ClausePlace.{start as startPlace, effect_facts, row_len, place_at};
ghost use Rattle.places.specs.ClausePlace.{literals as literalsOf};
ghost use Rattle.shape.specs.Shape.{HasLetter};
ghost use Rattle.shape.specs.Views.{table_of, source_of, steps_of};
ghost use Rattle.clause.specs.Parts.{codes, moves as movesFact, moved};

use super::codes::Codes;
use shape::{Encoded, Slot};

// Fact f at the start: negated unless it is true then.
pub fn start(out: &mut Codes, e: &Encoded, f: usize)
    requires { (length out.old < 136) × (f < 64) }
    ensures { out.new ≡ out.old ++ codes (literalsOf (source_of e.now) (startPlace f)) }
{
    let facts = table::start(e.table);
    out.push(e.fact_variable(0, f), bitset::has(&facts, f));
}

// Member i of the facts that step s needs, sets, or clears and does not set: part y of rule 4.
fn effect_fact(e: &Encoded, s: usize, y: usize, i: usize) -> usize
    requires { (s < 64) × (y < 3) × (i < length (effect_facts (table_of e.now) s y)) }
    ensures { (result ≡ get_or (effect_facts (table_of e.now) s y) i 0) × (result < 64) }
{
    let facts = e.effects(s, y);
    // By halves: at most i members lie below lo, and more below hi.
    let mut lo: usize = 0;
    let mut hi: usize = 64;
    while lo + 1 < hi {
        let m = (lo + hi) / 2;
        if bitset::rank(&facts, m) <= i {
            lo = m;
        } else {
            hi = m;
        }
    }
    lo
}

// Step x of a slot, then its effect: needed before, set after, or cleared after.
fn effect(out: &mut Codes, slot: &Slot, x: usize, y: usize, i: usize)
    requires { (length out.old + 129 ≤ 136) × HasLetter (source_of slot.now.encoded) 3 slot.now.number 0
        × (i < row_len (source_of slot.now.encoded) 3 slot.now.number 0 x y) }
    ensures { out.new ≡ out.old ++ codes (literalsOf (source_of slot.now.encoded)
        (place_at (source_of slot.now.encoded) (at 3 slot.now.number 0 x y i))) }
{
    let e = &slot.encoded;
    let v = slot.variable(x);
    let f = effect_fact(e, slot.step(x), y, i);
    if y == 0 {
        out.push_pair(v, e.fact_variable(slot.number, f), true);
    } else {
        out.push_pair(v, e.fact_variable(slot.number + 1, f), y == 1);
    }
}

// Does step s set fact f? Does it clear it and not set it?
fn sets(ws: &[u64], s: usize, f: usize) -> bool
    requires { s < 64 }
    ensures { result ≡ has (step_of (table_in ws.now) s).sets f }
{
    let facts = table::sets(ws, s);
    bitset::has(&facts, f)
}

fn drops(ws: &[u64], s: usize, f: usize) -> bool
    requires { s < 64 }
    ensures { result ≡ dropsFact (step_of (table_in ws.now) s) f }
{
    let facts = table::clears(ws, s);
    !sets(ws, s, f) && bitset::has(&facts, f)
}

// Does it make the fact rise, or fall?
fn moves(ws: &[u64], s: usize, f: usize, rising: bool) -> bool
    requires { s < 64 }
    ensures { result ≡ movesFact (table_in ws.now) rising f s }
{
    if rising {
        sets(ws, s, f)
    } else {
        drops(ws, s, f)
    }
}

// The variables of the steps of a slot that make fact f rise, or fall.
fn push_steps(out: &mut Codes, slot: &Slot, f: usize, rising: bool)
    requires { length out.old + 64 ≤ 136 }
    ensures { out.new ≡ out.old
        ++ codes (all_pos (filter (λ x. movesFact (table_of slot.now.encoded) rising f x.1) (steps_of slot.now))) }
{
    let index = slot.encoded.index;
    // The slot's first variable, and the word that says what it stands for: those behind it follow. `slot.step(x)` would look up the node anew.
    let v = slot.node().first();
    let m = index::meanings_at(index) + (v - 1);
    for x in 0..slot.size() {
        let s = index::word(index, m + x);
        out.push_if(v + x, moves(slot.encoded.table, s, f, rising));
    }
}

// Fact f rises at a slot only by a step that sets it, and falls only by one that drops it.
fn frame(out: &mut Codes, slot: &Slot, f: usize, rising: bool)
    requires { (length out.old + 129 ≤ 136) × (f < 64) }
    ensures { out.new ≡ out.old ++ codes (literalsOf (source_of slot.now.encoded) (moved rising slot.now.number f)) }
{
    out.push(slot.encoded.fact_variable(slot.number, f), rising);
    out.push(slot.encoded.fact_variable(slot.number + 1, f), !rising);
    push_steps(out, slot, f, rising);
}

// The effects of step x; or fact x, first that it falls, then that it rises.
pub fn slot_clause(out: &mut Codes, slot: &Slot, g: usize, x: usize, y: usize, i: usize)
    requires { (length out.old + 129 ≤ 136) × HasLetter (source_of slot.now.encoded) 3 slot.now.number g
        × (i < row_len (source_of slot.now.encoded) 3 slot.now.number g x y) }
    ensures { out.new ≡ out.old ++ codes (literalsOf (source_of slot.now.encoded)
        (place_at (source_of slot.now.encoded) (at 3 slot.now.number g x y i))) }
{
    match g {
        0 => effect(out, slot, x, y, i),
        _ => frame(out, slot, x, i != 0),
    }
}
