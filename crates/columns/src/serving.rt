// The six columns serve the fields: each call goes to every board.
ghost use Rattle.std.specs.Prelude.{List, []};
ghost use Rattle.columns.specs.Fields.{Stand, ToldColumns, AnsweredColumns};

use crate::asking::ask;
use crate::calls::Fields;
use crate::columns::Columns;
use engines::engine::Engine;
use fields::faults::Fault;
use fields::flags::FlagMask;
use fields::orders::FIELDS;
use fields::prefixes::Prefix;
use fields::protocols::Protocol;
use fields::ranges::PortRange;
use filters::filter::Filter;
use filters::rows::Header;
use labelling::board::Board;
use labelling::entered::Entered;
use labelling::found::Found;
use labelling::told::{emptied, enter, leave};
use labels::table::LabelTable;

impl<
    A: Engine<Prefix>,
    B: Engine<Prefix>,
    C: Engine<PortRange>,
    D: Engine<PortRange>,
    E: Engine<Protocol>,
    F: Engine<FlagMask>,
> Columns<A, B, C, D, E, F> {
    // Six columns over these engines, emptied, with every label free.
    pub fn make(
        source: A,
        destination: B,
        source_port: C,
        destination_port: D,
        protocol: E,
        flags: F,
    ) -> Columns<A, B, C, D, E, F>
        ensures stands { ⟦<Columns<A, B, C, D, E, F> as Fields>⟧.stand result [] (λ _. 0) }
        ensures asked { A.Told.agrees result.source.part [] × B.Told.agrees result.destination.part [] × C.Told.agrees result.source_port.part [] × D.Told.agrees result.destination_port.part [] × E.Told.agrees result.protocol.part [] × F.Told.agrees result.flags.part [] }
    {
        // Not by Board::make, which asks that the board fits in memory: that is not known of a board of any engine.
        Columns {
            source: Board {
                table: LabelTable::empty(),
                part: emptied(source),
            },
            destination: Board {
                table: LabelTable::empty(),
                part: emptied(destination),
            },
            source_port: Board {
                table: LabelTable::empty(),
                part: emptied(source_port),
            },
            destination_port: Board {
                table: LabelTable::empty(),
                part: emptied(destination_port),
            },
            protocol: Board {
                table: LabelTable::empty(),
                part: emptied(protocol),
            },
            flags: Board {
                table: LabelTable::empty(),
                part: emptied(flags),
            },
        }
    }
}

// Each call is written out for the six fields, whose tables have different types.
impl<
    A: Engine<Prefix>,
    B: Engine<Prefix>,
    C: Engine<PortRange>,
    D: Engine<PortRange>,
    E: Engine<Protocol>,
    F: Engine<FlagMask>,
> Fields for Columns<A, B, C, D, E, F> {
    ghost stand = { Stand A.Told.shows B.Told.shows C.Told.shows D.Told.shows E.Told.shows F.Told.shows };

    ghost told = { ToldColumns A.Told.agrees B.Told.agrees C.Told.agrees D.Told.agrees E.Told.agrees F.Told.agrees };

    ghost answered = { AnsweredColumns A.Told.agrees B.Told.agrees C.Told.agrees D.Told.agrees E.Told.agrees F.Told.agrees };

    // By table and part, not by the board's methods: see labelling's `enter`.
    fn enter(&mut self, filter: Filter) -> Result<Entered, Fault> {
        let a = enter(&mut self.source.table, &mut self.source.part, filter.source)?;
        let b = enter(
            &mut self.destination.table,
            &mut self.destination.part,
            filter.destination,
        )?;
        let c = enter(
            &mut self.source_port.table,
            &mut self.source_port.part,
            filter.source_port,
        )?;
        let d = enter(
            &mut self.destination_port.table,
            &mut self.destination_port.part,
            filter.destination_port,
        )?;
        let e = enter(
            &mut self.protocol.table,
            &mut self.protocol.part,
            filter.protocol,
        )?;
        let f = enter(&mut self.flags.table, &mut self.flags.part, filter.flags)?;
        let new = a.new as u8 + b.new as u8 + c.new as u8 + d.new as u8 + e.new as u8 + f.new as u8;
        Ok(Entered {
            labels: [a.label, b.label, c.label, d.label, e.label, f.label],
            new,
        })
    }

    // By table and part, as `enter`.
    fn leave(&mut self, labels: [u8; FIELDS]) -> Result<u8, Fault> {
        let a = leave(&mut self.source.table, &mut self.source.part, labels[0])?;
        let b = leave(
            &mut self.destination.table,
            &mut self.destination.part,
            labels[1],
        )?;
        let c = leave(
            &mut self.source_port.table,
            &mut self.source_port.part,
            labels[2],
        )?;
        let d = leave(
            &mut self.destination_port.table,
            &mut self.destination_port.part,
            labels[3],
        )?;
        let e = leave(&mut self.protocol.table, &mut self.protocol.part, labels[4])?;
        let f = leave(&mut self.flags.table, &mut self.flags.part, labels[5])?;
        Ok(a as u8 + b as u8 + c as u8 + d as u8 + e as u8 + f as u8)
    }

    fn ask(&mut self, header: Header) -> Result<[Found; FIELDS], Fault> {
        let a = ask(&mut self.source.part, header.source)?;
        let b = ask(&mut self.destination.part, header.destination)?;
        let c = ask(&mut self.source_port.part, header.source_port as u32)?;
        let d = ask(
            &mut self.destination_port.part,
            header.destination_port as u32,
        )?;
        let e = ask(&mut self.protocol.part, header.protocol as u32)?;
        let f = ask(&mut self.flags.part, header.flags as u32)?;
        Ok([a, b, c, d, e, f])
    }

    // An inspection names a field by its number.
    fn count(&self, field: usize, label: u8) -> u8 {
        match field {
            0 => self.source.table.count(label),
            1 => self.destination.table.count(label),
            2 => self.source_port.table.count(label),
            3 => self.destination_port.table.count(label),
            4 => self.protocol.table.count(label),
            5 => self.flags.table.count(label),
            _ => 0,
        }
    }

    // One by one, since the tables have different types.
    fn in_use(&self) -> usize {
        self.source.table.in_use()
            + self.destination.table.in_use()
            + self.source_port.table.in_use()
            + self.destination_port.table.in_use()
            + self.protocol.table.in_use()
            + self.flags.table.in_use()
    }
}
