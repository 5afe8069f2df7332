// Labelling a filter in every part, and taking its labels back.
ghost use Rattle.std.specs.Prelude.{◌≡◌, ℕ, ◌<◌, ◌≤◌, List, ◌∷◌, ◌++◌, length};
ghost use Rattle.fields.specs.declared.orders.NetworkOrder.{NetworkOrder};
ghost use Rattle.filters.specs.declared.filter.Filter.{Filter};
ghost use Rattle.filter_table.specs.declared.table.FilterTable.{FilterTable};
ghost use Rattle.parts.specs.Asked.{Succeeds};
ghost use Rattle.entries.specs.Entries.{Entry};
ghost use Rattle.classifier.specs.Standing.{Asked, Serves};
ghost use Rattle.classifier.specs.Telling.{Came, Gone};

use crate::classifier::Classifier;
use columns::calls::Fields;
use engines::engine::Engine;
use entries::filter_labels::FilterLabels;
use fields::faults::Fault;
use fields::flags::FlagMask;
use fields::prefixes::Prefix;
use fields::protocols::Protocol;
use fields::ranges::PortRange;
use filters::filter::Filter;
use stores::store::Store;

// A trait, so that what the seven kinds of parts hold and were told is said once.
pub(crate) trait Labeller {
    ghost serves: { Self → List Entry → Asked → Type 0 };

    ghost came: { Self → Self → Filter → ℕ → List Entry → Asked → ℕ × ℕ → Type 0 };

    ghost gone: { Self → Self → Entry → List Entry → Asked → ℕ × ℕ → Type 0 };

    ghost table: { Self → FilterTable };

    ghost network_order: { Self → NetworkOrder };

    // Labels a filter at a position among those served. No part refuses it while fewer than 96 are served.
    fn enter(&mut self, filter: Filter, position: usize) -> Result<(u8, u8), Fault>
        ensures entered { (es : List Entry) (asked : Asked) → serves self.old es asked → length es < 96 → position ≤ length es → Succeeds result (λ n. came self.old self.new filter position es asked n) }
        ensures table { table self.new ≡ table self.old }
        ensures order { network_order self.new ≡ network_order self.old };

    // Takes back the labels of the filter at a position.
    fn leave(&mut self, position: usize) -> Result<(u8, u8), Fault>
        ensures left { (before after : List Entry) (out : Entry) (asked : Asked) → serves self.old (before ++ out ∷ after) asked → position ≡ length before → Succeeds result (λ n. gone self.old self.new out (before ++ after) asked n) }
        ensures table { table self.new ≡ table self.old }
        ensures order { network_order self.new ≡ network_order self.old };
}

impl<
    A: Engine<Prefix>,
    B: Engine<Prefix>,
    C: Engine<PortRange>,
    D: Engine<PortRange>,
    E: Engine<Protocol>,
    F: Engine<FlagMask>,
    S: Store,
> Labeller for Classifier<A, B, C, D, E, F, S> {
    ghost serves = { Serves A.Told.shows B.Told.shows C.Told.shows D.Told.shows E.Told.shows F.Told.shows S.Told.shows };

    ghost came = { Came A.Told.shows B.Told.shows C.Told.shows D.Told.shows E.Told.shows F.Told.shows S.Told.shows A.Told.agrees B.Told.agrees C.Told.agrees D.Told.agrees E.Told.agrees F.Told.agrees S.Told.agrees };

    ghost gone = { Gone A.Told.shows B.Told.shows C.Told.shows D.Told.shows E.Told.shows F.Told.shows S.Told.shows A.Told.agrees B.Told.agrees C.Told.agrees D.Told.agrees E.Told.agrees F.Told.agrees S.Told.agrees };

    ghost table = { λ classifier. classifier.table };

    ghost network_order = { λ classifier. classifier.network.order };

    fn enter(&mut self, filter: Filter, position: usize) -> Result<(u8, u8), Fault> {
        if self.labels.is_full() || position > self.labels.len() {
            return Err(Fault::Crowded);
        }
        let fields = self.columns.enter(filter)?;
        let nodes = self.network.enter(fields.labels)?;
        // Two names, since the check doesn't cover a field that is an array put straight into a literal.
        let in_fields = fields.labels;
        let along = nodes.labels;
        let labels = FilterLabels {
            fields: in_fields,
            nodes: along,
        };
        self.labels.insert(position, labels);
        Ok((fields.new, nodes.new))
    }

    fn leave(&mut self, position: usize) -> Result<(u8, u8), Fault> {
        if position >= self.labels.len() {
            return Err(Fault::Crowded);
        }
        let labels = self.labels.remove(position);
        let fields = self.columns.leave(labels.fields)?;
        let nodes = self.network.leave(labels.nodes)?;
        Ok((fields, nodes))
    }
}
