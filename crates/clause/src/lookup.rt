// A set in a word: whether it holds a number, and that number's place among its members.
ghost use Rattle.std.specs.Prelude.{◌≡◌, [], ◌∷◌, ◌≤◌};
ghost use Rattle.bitset.specs.Set.{contains, members};
ghost use Rattle.places.specs.Lookup.{rank};

// Is i a member of the set in a word, and how many members are less?
pub fn holds(w: u64, i: usize) -> bool
    ensures { result ≡ contains (w ∷ []) i }
{
    bitset::has(&[w], i)
}

pub fn rank_in(w: u64, i: usize) -> usize
    ensures { (result ≡ rank (members (w ∷ [])) i) × (result ≤ 64) }
{
    bitset::rank(&[w], i)
}
