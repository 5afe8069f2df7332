// The grid store: a cell for each pair.
ghost use Rattle.std.specs.Prelude.{◌≡◌, IfSome, Some, None, slice_index_or};
ghost use Rattle.parts.specs.Meaning.{nothing};
ghost use Rattle.stores.specs.Stored.{Shows};
ghost use Rattle.stores.specs.Cells.{CellsLead};
ghost use Rattle.stores.specs.Pairs.{code as code_of};

use crate::index::Index;
use crate::indexed::IndexedStore;
use crate::pairs::Pair;
use parts::checks::{entry_at, put_at};
use parts::marks::PLACES;

const CELLS: usize = PLACES * PLACES;

// A cell for each pair, with the label of the place that holds it.
#[derive(Drop)]
pub struct Grid {
    cells: [Option<u8>; CELLS],
}

pub type GridStore = IndexedStore<Grid>;

impl Index for Grid {
    ghost leads = { CellsLead };

    // by the cell of the pair: a label found is the one in it
    ghost reached = { λ s places pair found. IfSome found (λ l. slice_index_or s.cells (code_of pair) None ≡ Some l) };

    fn empty(&mut self) {
        self.cells = [None; CELLS];
    }

    fn enter(&mut self, pair: Pair, place: u8) {
        put_at(&mut self.cells, pair.code(), Some(place));
    }

    fn leave(&mut self, pair: Pair, _place: u8) {
        put_at(&mut self.cells, pair.code(), None);
    }

    fn find(&self, _pairs: &[Option<Pair>; PLACES], pair: Pair) -> Option<u8> {
        entry_at(&self.cells, pair.code()).filter(|label| (*label as usize) < PLACES)
    }
}

impl IndexedStore<Grid> {
    pub fn new() -> GridStore
        ensures held { Shows CellsLead result nothing }
        ensures asked { result.asked ≡ 0 }
    {
        IndexedStore::over(Grid {
            cells: [None; CELLS],
        })
    }
}
