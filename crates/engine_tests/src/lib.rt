// Tests of the engines on full tables, equal values, short lists and short tables.
#![tactic(auto)]

#[cfg(test)]
mod tests {
    use engines::direct::Direct;
    use engines::engine::Engine;
    use engines::rows::{RowTable, Rows};
    use engines::scan::Scan;
    use fields::kinds::Kind;
    use fields::protocols::{Protocol, ProtocolRow};
    use fields::ranges::{PortRange, RangeRow};
    use parts::checks::check_room;
    use parts::marks::PLACES;
    use parts::told::Told;
    use std::process::Abort;
    use std::test::Fail;

    // One label is found.
    fn finds<E: Engine<Protocol>>(
        rt: &impl Abort,
        engine: &mut E,
        number: u32,
        label: u8,
    ) -> Result<(), Fail> {
        let mut list = [0; 96];
        assert!(rt; engine.matches(number, &mut list)? == 1);
        assert!(rt; list[0] == label);
        Ok(())
    }

    // Sets the number of each place at it, and finds it there alone.
    fn fills<E: Engine<Protocol>>(rt: &impl Abort, engine: &mut E) -> Result<(), Fail> {
        engine.empty();
        for place in 0..PLACES as u8 {
            let value = Protocol::form(ProtocolRow::Only(place))?;
            engine.set(place, value)?;
        }
        for place in 0..PLACES as u8 {
            finds(rt, engine, place as u32, place)?;
        }
        let mut list = [0; 96];
        assert!(rt; engine.matches(96, &mut list)? == 0);
        let mut short = [0; 95];
        assert!(rt; engine.matches(5, &mut short).is_err());
        Ok(())
    }

    fn fills_scan<T: Rows<ProtocolRow> + Drop>(rt: &impl Abort, table: T) -> Result<(), Fail> {
        let mut scan = Scan::over(table);
        fills(rt, &mut scan)?;
        assert!(rt; scan.asked_number() == 97);
        Ok(())
    }

    #[test]
    fn direct_fills(rt: HostRuntime) -> Result<(), Fail> {
        let mut direct = Direct::new();
        fills(&rt, &mut direct)?;
        assert!(rt; direct.asked_number() == 97);
        Ok(())
    }

    #[test]
    fn scan_fills(rt: HostRuntime) -> Result<(), Fail> {
        let mut rows = [ProtocolRow::Any; 97];
        fills_scan(&rt, RowTable::form(&mut rows)?)
    }

    // Nested ranges, all of them satisfied by the number in their middle.
    fn nests<E: Engine<PortRange>>(rt: &impl Abort, engine: &mut E) -> Result<(), Fail> {
        engine.empty();
        for place in 0..PLACES as u8 {
            let value = PortRange::form(RangeRow {
                low: 100 - place as u16,
                high: 100 + place as u16,
            })?;
            engine.set(place, value)?;
        }
        let mut list = [0; 97];
        assert!(rt; engine.matches(100, &mut list)? == 96);
        assert!(rt; list[95] == 95 && list[96] == 0);
        assert!(rt; engine.matches(5, &mut list)? == 1);
        assert!(rt; engine.matches(4, &mut list)? == 0);
        Ok(())
    }

    fn nests_scan<T: Rows<RangeRow> + Drop>(rt: &impl Abort, table: T) -> Result<(), Fail> {
        let mut scan = Scan::over(table);
        nests(rt, &mut scan)
    }

    #[test]
    fn all_match(rt: HostRuntime) -> Result<(), Fail> {
        let mut rows = [RangeRow { low: 0, high: 0 }; 96];
        nests_scan(&rt, RowTable::form(&mut rows)?)
    }

    #[test]
    fn short_tables(rt: HostRuntime) {
        let rows = [ProtocolRow::Any; 97];
        assert!(rt; check_room(&rows[0..95]).is_err());
        assert!(rt; check_room(&rows[0..96]).is_ok());
        assert!(rt; check_room(&rows).is_ok());
    }
}
