// An accepted table with its index, and its nodes and slots: how long the loops are that the cursor goes through, by rule, node, letter and row.
#![tactic(auto)]

ghost use Rattle.std.specs.Prelude.{◌≡◌, ◌≤◌, ◌<◌};
ghost use Rattle.places.specs.ClausePlace.{groups_in};

mod encoded;
mod node;
mod slot;

pub use encoded::Encoded;
pub use node::Node;
pub use slot::Slot;

// How many letters each node or slot of rule r has.
pub fn groups_in(r: usize) -> usize
    requires { r < 4 }
    ensures { (result ≡ groups_in r) × (result ≤ 7) }
{
    match r {
        1 => 7,
        3 => 2,
        _ => 1,
    }
}
