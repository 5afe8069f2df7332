// A small sample of calls, with the figures that the definitions give.
ghost use Rattle.std.specs.Prelude.{◌≡◌};
ghost use Rattle.filter_laws.specs.Figures.{sample as sample_calls, Figures};

use fields::flags::FlagRow;
use fields::prefixes::PrefixRow;
use fields::protocols::ProtocolRow;
use fields::ranges::RangeRow;
use filters::calls::Call;
use filters::rows::{Class, FilterRow, Header};

const EVERY_ADDRESS: PrefixRow = PrefixRow {
    address: 0,
    length: 0,
};

const EVERY_PORT: RangeRow = RangeRow {
    low: 0,
    high: 65535,
};

const EVERY_FLAG: FlagRow = FlagRow { mask: 0, wanted: 0 };

// A drive protocol from one network.
const DRIVE: FilterRow = FilterRow {
    identifier: 1,
    source: PrefixRow {
        address: 0x0A000000,
        length: 8,
    },
    destination: EVERY_ADDRESS,
    source_port: EVERY_PORT,
    destination_port: RangeRow {
        low: 34964,
        high: 34964,
    },
    protocol: ProtocolRow::Only(17),
    flags: EVERY_FLAG,
    tag: 3,
    class: Class::Exclusive,
    flow: 10,
};

// Everything from a part of that network.
const PART: FilterRow = FilterRow {
    identifier: 2,
    source: PrefixRow {
        address: 0x0A010000,
        length: 16,
    },
    destination: EVERY_ADDRESS,
    source_port: EVERY_PORT,
    destination_port: EVERY_PORT,
    protocol: ProtocolRow::Any,
    flags: EVERY_FLAG,
    tag: 5,
    class: Class::Exclusive,
    flow: 20,
};

const REST: FilterRow = FilterRow {
    identifier: 3,
    source: EVERY_ADDRESS,
    destination: EVERY_ADDRESS,
    source_port: EVERY_PORT,
    destination_port: EVERY_PORT,
    protocol: ProtocolRow::Any,
    flags: EVERY_FLAG,
    tag: 9,
    class: Class::NonExclusive,
    flow: 30,
};

const INSIDE: Header = Header {
    source: 0x0A010203,
    destination: 0x0A020304,
    source_port: 5000,
    destination_port: 34964,
    protocol: 17,
    flags: 0,
};

const OUTSIDE: Header = Header {
    source: 0x0B000001,
    destination: 0x0A020304,
    source_port: 5000,
    destination_port: 502,
    protocol: 6,
    flags: 2,
};

// The calls of the sample in their order.
#[tactic(auto, using(crate::proofs::Known::figures))]
pub fn sample() -> [Call; 8]
    ensures calls { result ≡ sample_calls }
    ensures figures { Figures }
{
    [
        Call::Add(DRIVE),
        Call::Add(PART),
        Call::Add(REST),
        Call::Search(INSIDE, 2, 16),
        Call::Remove(2),
        Call::Remove(2),
        Call::Inspect(3, 2),
        Call::Search(OUTSIDE, 0, 16),
    ]
}
