// Adding and removing filters: the table first, which refuses, and then the parts.
ghost use Rattle.classifier.specs.Standing.{Stands};
ghost use Rattle.classifier.specs.Telling.{Told};

use crate::classifier::Classifier;
use crate::classifier::entering::Labeller;
use crate::sorter::Sorter;
use engines::engine::Engine;
use fields::faults::Fault;
use fields::flags::FlagMask;
use fields::kinds::Kind;
use fields::prefixes::Prefix;
use fields::protocols::Protocol;
use fields::ranges::PortRange;
use filters::filter::Filter;
use filters::rows::FilterRow;
use stores::store::Store;

impl<
    A: Engine<Prefix>,
    B: Engine<Prefix>,
    C: Engine<PortRange>,
    D: Engine<PortRange>,
    E: Engine<Protocol>,
    F: Engine<FlagMask>,
    S: Store,
> Sorter for Classifier<A, B, C, D, E, F, S> {
    ghost stands = { Stands A.Told.shows B.Told.shows C.Told.shows D.Told.shows E.Told.shows F.Told.shows S.Told.shows };

    ghost told = { Told A.Told.agrees B.Told.agrees C.Told.agrees D.Told.agrees E.Told.agrees F.Told.agrees S.Told.agrees };

    ghost network_order = { λ classifier. classifier.network.order };

    fn add(&mut self, row: FilterRow) -> Result<(u8, u8), Fault> {
        let filter = Filter::form(row)?;
        let position = self.table.add(row)?;
        // No part refuses while the filters stand; a refusal from here could leave nothing as it was, so none is handed on.
        Ok(self.enter(filter, position).unwrap_or((0, 0)))
    }

    fn remove(&mut self, identifier: u16) -> Result<(u8, u8), Fault> {
        let position = self.table.remove(identifier)?;
        Ok(self.leave(position).unwrap_or((0, 0)))
    }
}
