// Making a classifier: nothing stands in it, and every part is empty.
ghost use Rattle.std.specs.Prelude.{◌≡◌, ℕ, ◌<◌, List, [], slice_index_or};
ghost use Rattle.stores.specs.declared.pairs.Pair.{Pair};
ghost use Rattle.labelling.specs.declared.board.Board.{Board};
ghost use Rattle.classifier.specs.Standing.{never_asked};

use crate::classifier::Classifier;
use crate::sorter::Sorter;
use arrayvec::ArrayVec;
use columns::columns::Columns;
use engines::engine::Engine;
use fields::flags::FlagMask;
use fields::orders::NetworkOrder;
use fields::prefixes::Prefix;
use fields::protocols::Protocol;
use fields::ranges::PortRange;
use filter_table::table::FilterTable;
use network::network::Network;
use stores::pairs::Pair;
use stores::store::Store;

impl<
    A: Engine<Prefix>,
    B: Engine<Prefix>,
    C: Engine<PortRange>,
    D: Engine<PortRange>,
    E: Engine<Protocol>,
    F: Engine<FlagMask>,
    S: Store,
> Classifier<A, B, C, D, E, F, S> {
    // A classifier over six engines and five stores, which are emptied, combining the fields in this order.
    pub fn make(
        source: A,
        destination: B,
        source_port: C,
        destination_port: D,
        protocol: E,
        flags: F,
        stores: (S, S, S, S, S),
        order: NetworkOrder,
    ) -> Classifier<A, B, C, D, E, F, S>
        ensures stands { ⟦<Classifier<A, B, C, D, E, F, S> as Sorter>⟧.stands result [] never_asked }
        ensures engines { A.Told.agrees result.columns.source.part [] × B.Told.agrees result.columns.destination.part [] × C.Told.agrees result.columns.source_port.part [] × D.Told.agrees result.columns.destination_port.part [] × E.Told.agrees result.columns.protocol.part [] × F.Told.agrees result.columns.flags.part [] }
        ensures stores { (j : ℕ) (z : Board Pair S) → j < 5 → S.Told.agrees (slice_index_or result.network.nodes j z).part [] }
        ensures order { result.network.order ≡ order }
    {
        let (first, second, third, fourth, fifth) = stores;
        let columns = Columns::make(
            source,
            destination,
            source_port,
            destination_port,
            protocol,
            flags,
        );
        let network = Network::make(order, first, second, third, fourth, fifth);
        Classifier {
            table: FilterTable::empty(),
            labels: ArrayVec::new(),
            columns,
            network,
        }
    }
}
