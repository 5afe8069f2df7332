// A combination: the label that a node has on its left and the label that it has on its right.
ghost use Rattle.std.specs.Prelude.{◌≡◌, refl};
ghost use Rattle.stores.specs.Pairs.{same_pair, pair_labels, code};
ghost use Rattle.stores.specs.Alike.{pair_decides};

use fields::keys::Key;
use parts::marks::PLACES;

#[derive(Clone, Copy, PartialEq, Eq, Debug)]
pub struct Pair {
    pub left: u8,
    pub right: u8,
}

impl Pair {
    // The pair as one number.
    pub fn code(self) -> usize
        ensures { result ≡ code self }
    {
        PLACES * self.left as usize + self.right as usize
    }
}

impl Key for Pair {
    ghost eq = { same_pair };

    ghost labels = { pair_labels };

    ghost laws = { record { is_same = λ _ _. refl; decides = pair_decides } };
}
