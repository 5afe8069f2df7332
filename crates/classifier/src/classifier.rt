// The classifier: the standing filters in rank order with their labels, six engines and five nodes.
use arrayvec::ArrayVec;
use columns::columns::Columns;
use entries::filter_labels::FilterLabels;
use filter_table::table::{CAPACITY, FilterTable};
use network::network::Network;

mod edits;
mod entering;
pub mod making;

// Six engines by name: what is told to each engine is said of each, which over one parameter for all columns would be the same six facts as laws of a trait.
#[derive(Drop)]
pub struct Classifier<A, B, C, D, E, F, S> {
    table: FilterTable,
    // the labels of the filters of the table, in the same order: beside the table, which is used without labels too
    labels: ArrayVec<FilterLabels, CAPACITY>,
    columns: Columns<A, B, C, D, E, F>,
    network: Network<S>,
}
