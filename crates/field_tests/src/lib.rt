// What values, orders and words do at their edges.
#![tactic(auto)]

ghost use Rattle.std.specs.Prelude.{◌≡◌, true};
ghost use Rattle.field_tests.specs.Figures.{Figures};

// The definitions give the figures that a reader can check by hand.
pub fn figures_stand() -> bool
    ensures stand { Figures }
    ensures answer { result ≡ true }
{
    true
}

#[cfg(test)]
mod tests {
    use fields::faults::Fault;
    use fields::flags::{FlagMask, FlagRow};
    use fields::kinds::Kind;
    use fields::orders::NetworkOrder;
    use fields::prefixes::{Prefix, PrefixRow};
    use fields::ranges::{PortRange, RangeRow};
    use std::test::Fail;
    use words::decimals::{read_u8, read_u16};
    use words::hexadecimals::{read_address, read_flags};

    // The number and the detail of a fault, if there is one.
    fn told(fault: Option<Fault>) -> Option<(u8, u32)> {
        fault.map(Fault::told)
    }

    fn prefix_fault(address: u32, length: u8) -> Option<Fault> {
        Prefix::form(PrefixRow { address, length }).err()
    }

    #[test]
    fn prefix_lengths(rt: HostRuntime) {
        let rows = [
            (0, 0, None),
            (0x8000_0000, 1, None),
            (0xC0A8_0100, 31, None),
            (0xC0A8_0101, 32, None),
            (0, 33, Some(3)),
            (0, 255, Some(3)),
            (1, 31, Some(3)),
            (0x4000_0000, 1, Some(3)),
        ];
        for (address, length, number) in rows {
            assert_eq!(rt;
                told(prefix_fault(address, length)).map(|told| told.0),
                number
            );
        }
        assert_eq!(rt; told(prefix_fault(0x0A00_0001, 8)), Some((3, 8)));
    }

    #[test]
    fn range_ends(rt: HostRuntime) -> Result<(), Fail> {
        let rows = [
            (0, 0, 0, true),
            (0, 0, 1, false),
            (0, 65535, 0, true),
            (0, 65535, 65535, true),
            (65535, 65535, 65535, true),
            (65535, 65535, 65534, false),
        ];
        for (low, high, number, takes) in rows {
            assert_eq!(rt;
                PortRange::form(RangeRow { low, high })?.takes(number),
                takes
            );
        }
        assert_eq!(rt;
            told(PortRange::form(RangeRow { low: 6, high: 5 }).err()),
            Some((4, 6))
        );
        Ok(())
    }

    #[test]
    fn flag_masks(rt: HostRuntime) -> Result<(), Fail> {
        let rows = [
            (0x00, 0x00, 0xFF, true),
            (0xFF, 0xFF, 0xFF, true),
            (0xFF, 0xFF, 0xFE, false),
            (0x12, 0x02, 0x0A, true),
            (0x12, 0x02, 0x12, false),
        ];
        for (mask, wanted, number, takes) in rows {
            assert_eq!(rt;
                FlagMask::form(FlagRow { mask, wanted })?.takes(number),
                takes
            );
        }
        assert_eq!(rt;
            told(FlagMask::form(FlagRow { mask: 1, wanted: 2 }).err()),
            Some((5, 1))
        );
        Ok(())
    }

    #[test]
    fn orders(rt: HostRuntime) {
        let rows = [
            ([1, 2, 3, 4, 5, 6], None),
            ([6, 5, 4, 3, 2, 1], None),
            ([1, 2, 3, 4, 5, 5], Some(6)),
            ([1, 1, 3, 4, 5, 6], Some(2)),
            ([0, 2, 3, 4, 5, 6], Some(1)),
            ([1, 2, 3, 7, 5, 6], Some(4)),
        ];
        for (fields, position) in rows {
            assert_eq!(rt;
                told(NetworkOrder::form(fields).err()).map(|told| told.1),
                position
            );
        }
    }

    #[test]
    fn decimals(rt: HostRuntime) {
        assert_eq!(rt; read_u8(b"0"), Some(0));
        assert_eq!(rt; read_u8(b"255"), Some(255));
        assert_eq!(rt; read_u8(b"256"), None);
        assert_eq!(rt; read_u16(b"256"), Some(256));
        assert_eq!(rt; read_u16(b"65535"), Some(65535));
        assert_eq!(rt; read_u16(b"65536"), None);
        assert_eq!(rt; read_u16(b"00"), None);
        assert_eq!(rt; read_u16(b"01"), None);
        assert_eq!(rt; read_u16(b""), None);
        assert_eq!(rt; read_u16(b"12345678901234567890"), None);
        assert_eq!(rt; read_u16(b"1 "), None);
    }

    #[test]
    fn hexadecimals(rt: HostRuntime) {
        assert_eq!(rt; read_address(b"0AFFFFFF"), Some(0x0AFF_FFFF));
        assert_eq!(rt; read_address(b"0aFFFFFF"), None);
        assert_eq!(rt; read_address(b"AFFFFFF"), None);
        assert_eq!(rt; read_flags(b"9A"), Some(0x9A));
        assert_eq!(rt; read_flags(b"1G"), None);
        assert_eq!(rt; read_flags(b"/0"), None);
    }
}
