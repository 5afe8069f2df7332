// Refusals in their order, and the table at its bounds.
use fields::faults::Fault;
use fields::flags::FlagRow;
use fields::prefixes::PrefixRow;
use fields::protocols::ProtocolRow;
use fields::ranges::RangeRow;
use filter_table::table::FilterTable;
use filters::calls::{Best, Call, Scanned};
use filters::rows::{Class, FilterRow, Header};

const LONG: PrefixRow = PrefixRow {
    address: 0,
    length: 33,
};

const BEYOND: PrefixRow = PrefixRow {
    address: 1,
    length: 8,
};

const EVERY_ADDRESS: PrefixRow = PrefixRow {
    address: 0,
    length: 0,
};

const EVERY_PORT: RangeRow = RangeRow {
    low: 0,
    high: 65535,
};

const TURNED: RangeRow = RangeRow { low: 6, high: 5 };

const OUTSIDE: FlagRow = FlagRow { mask: 1, wanted: 2 };

const EVERY_FLAG: FlagRow = FlagRow { mask: 0, wanted: 0 };

const HEADER: Header = Header {
    source: 0,
    destination: 0,
    source_port: 7,
    destination_port: 0,
    protocol: 6,
    flags: 0,
};

// A filter for one source port.
fn for_port(identifier: u16, port: u16, class: Class) -> FilterRow {
    FilterRow {
        identifier,
        source: EVERY_ADDRESS,
        destination: EVERY_ADDRESS,
        source_port: RangeRow {
            low: port,
            high: port,
        },
        destination_port: EVERY_PORT,
        protocol: ProtocolRow::Any,
        flags: EVERY_FLAG,
        tag: 0,
        class,
        flow: port,
    }
}

// The number and the detail of a refusal.
fn told(fault: Option<Fault>) -> Option<(u8, u32)> {
    fault.map(Fault::told)
}

// The identifiers 1 to 96, each for the port of its number.
fn full() -> FilterTable {
    let mut table = FilterTable::empty();
    for identifier in 1..97u16 {
        let _ = table.add(for_port(identifier, identifier, Class::NonExclusive));
    }
    table
}

// Of two faults at once the earlier number decides, and under one number the lower field.
#[test]
fn the_first_fault_decides(rt: HostRuntime) {
    let table = full();
    let mut row = for_port(0, 7, Class::Exclusive);
    row.source = LONG;
    assert_eq!(rt; told(table.refusal(&Call::Add(row))), Some((2, 0)));
    row.identifier = 7;
    row.destination = BEYOND;
    assert_eq!(rt; told(table.refusal(&Call::Add(row))), Some((3, 33)));
    row.source = EVERY_ADDRESS;
    row.source_port = TURNED;
    assert_eq!(rt; told(table.refusal(&Call::Add(row))), Some((3, 8)));
    row.destination = EVERY_ADDRESS;
    row.destination_port = RangeRow { low: 9, high: 8 };
    assert_eq!(rt; told(table.refusal(&Call::Add(row))), Some((4, 6)));
    row.source_port = RangeRow { low: 7, high: 7 };
    row.flags = OUTSIDE;
    assert_eq!(rt; told(table.refusal(&Call::Add(row))), Some((4, 9)));
    row.destination_port = EVERY_PORT;
    assert_eq!(rt; told(table.refusal(&Call::Add(row))), Some((5, 1)));
    row.flags = EVERY_FLAG;
    assert_eq!(rt; told(table.refusal(&Call::Add(row))), Some((15, 7)));
    row.identifier = 97;
    assert_eq!(rt; told(table.refusal(&Call::Add(row))), Some((17, 7)));
    row.source_port = RangeRow { low: 97, high: 97 };
    assert_eq!(rt; told(table.refusal(&Call::Add(row))), Some((18, 96)));
}

#[test]
fn removals_and_inspections(rt: HostRuntime) {
    let table = full();
    assert_eq!(rt; told(table.refusal(&Call::Remove(0))), Some((2, 0)));
    assert_eq!(rt; told(table.refusal(&Call::Remove(97))), Some((16, 97)));
    assert!(rt; table.refusal(&Call::Remove(96)).is_none());
    assert_eq!(rt; told(table.refusal(&Call::Inspect(0, 0))), Some((2, 0)));
    assert_eq!(rt; told(table.refusal(&Call::Inspect(97, 12))), Some((9, 12)));
    assert_eq!(rt; told(table.refusal(&Call::Inspect(97, 0))), Some((9, 0)));
    assert_eq!(rt; told(table.refusal(&Call::Inspect(97, 11))), Some((16, 97)));
    assert!(rt; table.refusal(&Call::Inspect(1, 11)).is_none());
}

#[test]
fn searches(rt: HostRuntime) {
    let table = full();
    assert!(rt; table.refusal(&Call::Search(HEADER, 0, 0)).is_none());
    assert!(rt; table.refusal(&Call::Search(HEADER, 16, 16)).is_none());
    assert_eq!(rt;
        told(table.refusal(&Call::Search(HEADER, 17, 20))),
        Some((7, 17))
    );
    assert_eq!(rt;
        told(table.refusal(&Call::Search(HEADER, 17, 3))),
        Some((7, 17))
    );
    assert_eq!(rt;
        told(table.refusal(&Call::Search(HEADER, 4, 3))),
        Some((8, 3))
    );
}

// The 97th filter is refused, and taken after one removal.
#[test]
fn the_table_fills(rt: HostRuntime) {
    let mut table = full();
    let more = for_port(97, 97, Class::NonExclusive);
    assert_eq!(rt; table.count(), 96);
    assert!(rt; table.add(more).is_err());
    assert!(rt; table.remove(7).is_ok());
    assert_eq!(rt; table.count(), 95);
    assert!(rt; table.add(more).is_ok());
    assert_eq!(rt; table.count(), 96);
}

// Exclusive matches are not listed, and what the list does not fill stays.
#[test]
fn a_scan(rt: HostRuntime) {
    let mut table = FilterTable::empty();
    let mut wide = for_port(3, 7, Class::NonExclusive);
    wide.source_port = EVERY_PORT;
    let mut narrow = for_port(2, 7, Class::NonExclusive);
    narrow.protocol = ProtocolRow::Only(6);
    assert!(rt; table.add(for_port(1, 7, Class::Exclusive)).is_ok());
    assert!(rt; table.add(wide).is_ok());
    assert!(rt; table.add(narrow).is_ok());
    let mut list = [9; 4];
    let scanned = table.scan(&HEADER, 4, &mut list);
    let best = Some(Best {
        identifier: 1,
        flow: 7,
    });
    assert_eq!(rt; scanned, Ok(Scanned { best, listed: 2 }));
    assert_eq!(rt; list, [2, 3, 9, 9]);
}
