// The literals of a clause, written as numbers: 2 * v for variable v, 2 * v + 1 for v negated.
ghost use Rattle.std.specs.Prelude.{◌≡◌, List, [], ◌∷◌, ℕ, ◌+◌, ◌++◌, ◌≤◌, ◌<◌, length, take};
ghost use Rattle.planning.specs.Clause.{neg, literal};
ghost use Rattle.writer.specs.Literal.{code_of};
ghost use Rattle.places.specs.Lookup.{lit_if};
ghost use Rattle.clause.specs.Parts.{codes};

use std::marker::Model;

// A clause has at most 129.
const MOST: usize = 136;

#[derive(Drop)]
pub struct Codes {
    all: [u64; MOST],
    size: usize,
}

impl Model for Codes {
    ghost Value = { List ℕ };

    ghost view = { λ c. take c.size c.all };

    ghost invariant = { λ c. c.size ≤ 136 };
}

// The number of variable v, or of v negated.
fn code(v: usize, plain: bool) -> u64
    requires { v < 100000 }
    ensures { result ≡ code_of (literal plain v) }
{
    if plain {
        2 * (v as u64)
    } else {
        2 * (v as u64) + 1
    }
}

impl Codes {
    pub fn new() -> Self
        ensures { result ≡ [] }
    {
        Codes {
            all: [0; MOST],
            size: 0,
        }
    }

    pub fn as_slice(&self) -> &[u64]
        ensures { (result.now ≡ self.now) × (length result.now ≤ 136) }
    {
        &self.all[..self.size]
    }

    pub fn clear(&mut self)
        ensures { self.new ≡ [] }
    {
        self.size = 0;
    }

    // Variable v, or v negated.
    pub fn push(&mut self, v: usize, plain: bool)
        requires { (length self.old < 136) × (v < 100000) }
        ensures { self.new ≡ self.old ++ codes (literal plain v ∷ []) }
    {
        self.all[self.size] = code(v, plain);
        self.size += 1;
    }

    // Variable v, where it is wanted.
    pub fn push_if(&mut self, v: usize, wanted: bool)
        requires { (length self.old < 136) × (v < 100000) }
        ensures { self.new ≡ self.old ++ codes (lit_if wanted v) }
    {
        if wanted {
            self.push(v, true);
        }
    }

    // Two literals, the first of them negated.
    pub fn push_pair(&mut self, v: usize, w: usize, plain: bool)
        requires { (length self.old + 2 ≤ 136) × (v < 100000) × (w < 100000) }
        ensures { self.new ≡ self.old ++ codes (neg v ∷ literal plain w ∷ []) }
    {
        self.push(v, false);
        self.push(w, plain);
    }
}
