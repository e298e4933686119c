// The lent tree records, one a node: a slice of node structs behind a few thin functions. The crates above keep
// the table's own records as words, five a record: of a lent slice they take the length, and what its records hold goes through these
// functions alone.
#![tactic(auto)]

ghost use Rattle.std.specs.Prelude.{◌≡◌, ◌*◌, ◌/◌, ◌≤◌, ◌<◌, length, set, get_or};
ghost use Rattle.nodes.specs.Nodes.{in_array, laid, same_to};
ghost use Rattle.nodes.specs.Tree.{blank};

// Document 01's record of a node: its depth, its parent's number, its child count, the sets of steps and of jobs it may hold.
// Other languages lend it too, so its fields lie in this order.
#[repr(C)]
#[derive(Clone, Copy, PartialEq, Eq)]
pub struct Node {
    pub depth: u64,
    pub parent: u64,
    pub children: u64,
    pub steps: u64,
    pub jobs: u64,
}

// The record that is kept as five words.
impl From<[u64; 5]> for Node {
    ghost from_gives = { λ w n. n ≡ in_array w };

    fn from(w: [u64; 5]) -> Node {
        let [depth, parent, children, steps, jobs] = w;
        Node {
            depth,
            parent,
            children,
            steps,
            jobs,
        }
    }
}

// Record i.
pub fn read(ns: &[Node], i: usize) -> Node
    requires { i < length ns.now }
    ensures { result ≡ get_or ns.now i blank }
{
    ns[i]
}

// Record i is n from now on.
pub fn write(ns: &mut [Node], i: usize, n: Node)
    requires { i < length ns.old }
    ensures { ns.new ≡ set ns.old i n }
{
    ns[i] = n;
}

// The first records are those kept in flat; the others stay.
#[tactic(auto)]
pub fn scatter(ns: &mut [Node], flat: &[u64])
    requires { length flat.now ≤ 5 * length ns.old }
    ensures { ns.new ≡ laid flat.now ns.old (length flat.now / 5) }
{
    let (records, _) = flat.as_chunks::<5>();
    for (i, w) in records.iter().enumerate() {
        write(ns, i, Node::from(*w));
    }
}

// Question 10: are the first records those kept in flat?
pub fn is_same(ns: &[Node], flat: &[u64]) -> bool
    requires { length flat.now ≤ 5 * length ns.now }
    ensures { result ≡ same_to flat.now ns.now (length flat.now / 5) }
{
    let (records, _) = flat.as_chunks::<5>();
    for (i, w) in records.iter().enumerate() {
        if read(ns, i) != Node::from(*w) {
            return false;
        }
    }
    true
}
