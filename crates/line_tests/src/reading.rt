// Lines that are read, and lines that are refused.
use fields::protocols::ProtocolRow;
use filters::calls::Call;
use filters::rows::Class;
use lines::calls::read_call;
use std::test::Fail;

// The number that a line is refused with, if it is refused.
fn refused(line: &str) -> Option<u8> {
    Some(read_call(line.as_bytes()).err()?.number())
}

#[test]
fn a_filter(rt: HostRuntime) -> Result<(), Fail> {
    let line = b"A 1 0A000000/8 00000000/0 0:65535 34964:34964 17 00=00 3 e 10";
    let Ok(Call::Add(filter)) = read_call(line) else {
        return Err(Fail::new("not read"));
    };
    assert_eq!(rt; filter.identifier, 1);
    assert_eq!(rt;
        (filter.source.address, filter.source.length),
        (0x0A00_0000, 8)
    );
    assert_eq!(rt;
        (filter.destination.address, filter.destination.length),
        (0, 0)
    );
    assert_eq!(rt;
        (filter.source_port.low, filter.source_port.high),
        (0, 65535)
    );
    assert_eq!(rt;
        (filter.destination_port.low, filter.destination_port.high),
        (34964, 34964)
    );
    assert!(rt; matches!(filter.protocol, ProtocolRow::Only(17)));
    assert_eq!(rt; (filter.flags.mask, filter.flags.wanted), (0, 0));
    assert_eq!(rt; (filter.tag, filter.flow), (3, 10));
    assert!(rt; matches!(filter.class, Class::Exclusive));
    Ok(())
}

#[test]
fn a_filter_for_any_protocol(rt: HostRuntime) -> Result<(), Fail> {
    let line = b"A 3 00000000/33 00000000/0 0:65535 0:65535 * 12=02 9 n 30";
    let Ok(Call::Add(filter)) = read_call(line) else {
        return Err(Fail::new("not read"));
    };
    assert!(rt; matches!(filter.protocol, ProtocolRow::Any));
    assert!(rt; matches!(filter.class, Class::NonExclusive));
    assert_eq!(rt; filter.source.length, 33);
    assert_eq!(rt; (filter.flags.mask, filter.flags.wanted), (0x12, 0x02));
    Ok(())
}

#[test]
fn a_search(rt: HostRuntime) -> Result<(), Fail> {
    let Ok(Call::Search(header, limit, room)) = read_call(b"F 0A010203 0A020304 5000 34964 17 FE 2")
    else {
        return Err(Fail::new("not read"));
    };
    assert_eq!(rt;
        (header.source, header.destination),
        (0x0A01_0203, 0x0A02_0304)
    );
    assert_eq!(rt;
        (header.source_port, header.destination_port),
        (5000, 34964)
    );
    assert_eq!(rt; (header.protocol, header.flags), (17, 0xFE));
    assert_eq!(rt; (limit, room), (2, 16));
    Ok(())
}

#[test]
fn a_removal_and_an_inspection(rt: HostRuntime) {
    assert!(rt; matches!(read_call(b"R 2"), Ok(Call::Remove(2))));
    assert!(rt; matches!(read_call(b"R 0"), Ok(Call::Remove(0))));
    assert!(rt; matches!(read_call(b"L 3 2"), Ok(Call::Inspect(3, 2))));
}

#[test]
fn no_form(rt: HostRuntime) {
    let lines = [
        "", " ", "R", "R ", "R\t2", "R 2\r", "R 2\0", " R 2", "R 2 ", "R  2", "R 2 2", "r 2",
        "RR 2", "L 3", "L 3 2 1", "R 00", "R 02", "R +2", "R 65536", "L 3 256", "X 2", "R 2\n",
        "é 2",
    ];
    for line in lines {
        assert_eq!(rt; refused(line), Some(1));
    }
}

#[test]
fn no_filter(rt: HostRuntime) {
    let lines = [
        "A 1 0a000000/8 00000000/0 0:65535 0:65535 17 00=00 3 e 10",
        "A 1 0A000000/256 00000000/0 0:65535 0:65535 17 00=00 3 e 10",
        "A 65536 0A000000/8 00000000/0 0:65535 0:65535 17 00=00 3 e 10",
        "A 1 0A000000/8 00000000/0 0:65536 0:65535 17 00=00 3 e 10",
        "A 1 0A000000/8 00000000/0 0:65535 0:65535 256 00=00 3 e 10",
        "A 1 0A000000/8 00000000/0 0:65535 0:65535 17 0=00 3 e 10",
        "A 1 0A000000/8 00000000/0 0:65535 0:65535 17 00=00 3 E 10",
        "A 1 0A000000/8 00000000/0 0:65535 0:65535 17 00=00 3 e 10 ",
        "A 1 0A000000/8 00000000/0 0:65535 0:65535 17 00=00 3 10",
        "A 1 00000000/0 0:65535 0:65535 17 00=00 3 e 10",
    ];
    for line in lines {
        assert_eq!(rt; refused(line), Some(1));
    }
    assert_eq!(rt;
        refused("A 65535 FFFFFFFF/255 FFFFFFFF/255 65535:65535 65535:65535 255 FF=FF 255 n 65535"),
        None
    );
}

#[test]
fn no_search(rt: HostRuntime) {
    let lines = [
        "F 0A010203 0A020304 5000 34964 * 00 2",
        "F 0A010203 0A020304 5000 34964 17 00 256",
        "F 0A010203 0A020304 5000 34964 17 0 2",
        "F A010203 0A020304 5000 34964 17 00 2",
        "F 0A010203 0A020304 65536 34964 17 00 2",
        "F 0A010203 0A020304 5000 34964 17 00",
        "F 0A010203 0A020304 5000 34964 17 00 2 16",
    ];
    for line in lines {
        assert_eq!(rt; refused(line), Some(1));
    }
    assert_eq!(rt; refused("F 0A010203 0A020304 5000 34964 17 00 255"), None);
}

// A byte that is no text is refused like any other, and a long line whatever it begins with.
#[test]
fn long_lines_and_bytes(rt: HostRuntime) {
    let mut line = [b'0'; 121];
    line[0] = b'R';
    line[1] = b' ';
    assert!(rt; read_call(&line[0..120]).is_err());
    assert!(rt; read_call(&line[0..121]).is_err());
    assert!(rt; read_call(&line[0..3]).is_ok());
    assert!(rt; read_call(b"R \xFF").is_err());
}
