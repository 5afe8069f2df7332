// The labels found in a field or at a node: the first of a list with room for all.
// No ArrayVec, which is not Copy: a search hands the labels on from node to node.
ghost use Rattle.std.specs.Prelude.{◌≡◌, ◌≤◌, length};

use parts::marks::PLACES;

#[derive(Clone, Copy)]
pub struct Found {
    pub labels: [u8; PLACES],
    pub count: usize,
    ghost few: { count ≤ 96 },
    ghost size: { length labels ≡ 96 },
}
