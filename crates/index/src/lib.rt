// Look-ups in the index: one read each. What stands where is in specs/Index.
#![tactic(auto)]

ghost use Rattle.std.specs.Prelude.{◌≡◌, ◌≤◌, ◌<◌, get_or};
ghost use Rattle.index.specs.Index.{nodes_in, slots_in, first_fact_in, node_word_in, slot_node_in, meanings_at, meaning_in, Few};

// Word i, or 0 past the last.
pub fn word(ix: &[u64], i: usize) -> usize
    ensures { result ≡ get_or ix.now i 0 }
{
    ix.get(i).copied().unwrap_or(0) as usize
}

// How many nodes and slots there are, and the first fact variable.
pub fn nodes(ix: &[u64]) -> usize
    ensures { result ≡ nodes_in ix.now }
{
    word(ix, 0)
}

pub fn slots(ix: &[u64]) -> usize
    ensures { result ≡ slots_in ix.now }
{
    word(ix, 1)
}

pub fn first_fact(ix: &[u64]) -> usize
    ensures { result ≡ first_fact_in ix.now }
{
    word(ix, 2)
}

// Word k of node n.
pub fn node_word(ix: &[u64], n: usize, k: usize) -> usize
    requires { (n < 1024) × (k < 15) }
    ensures { result ≡ node_word_in ix.now n k }
{
    word(ix, 3 + 15 * n + k)
}

// The node of slot k.
pub fn slot_node(ix: &[u64], k: usize) -> usize
    requires { Few ix.now × (k < 1024) }
    ensures { result ≡ slot_node_in ix.now k }
{
    word(ix, 3 + 15 * nodes(ix) + k)
}

// Where it says what the variables stand for: the word of variable 1.
pub fn meanings_at(ix: &[u64]) -> usize
    requires { Few ix.now }
    ensures { (result ≡ meanings_at ix.now) × (result ≤ 16387) }
{
    3 + 15 * nodes(ix) + slots(ix)
}

// What variable v stands for: a step, a job or a method, by its number.
pub fn meaning(ix: &[u64], v: usize) -> usize
    requires { Few ix.now × (1 ≤ v) × (v < 65536) }
    ensures { result ≡ meaning_in ix.now v }
{
    word(ix, meanings_at(ix) + (v - 1))
}
