// Filters and headers as callers give them: plain numbers.
ghost use Rattle.std.specs.Prelude.{◌≡◌};
ghost use Rattle.filters.specs.Filters.{ranks_ahead, same_values};

use fields::flags::FlagRow;
use fields::prefixes::PrefixRow;
use fields::protocols::ProtocolRow;
use fields::ranges::RangeRow;

// An exclusive filter takes a packet alone, and the best of them wins; all non-exclusive ones that match are listed.
#[derive(Clone, Copy, Default, PartialEq, Eq, Debug)]
pub enum Class {
    #[default]
    Exclusive,
    NonExclusive,
}

// The default row is no filter's, as none has the identifier 0. Its six values are fields of their own, as in a formed filter and a
// header: they are of three sorts there, and a caller names each.
#[derive(Clone, Copy, Default)]
pub struct FilterRow {
    pub identifier: u16,
    pub source: PrefixRow,
    pub destination: PrefixRow,
    pub source_port: RangeRow,
    pub destination_port: RangeRow,
    pub protocol: ProtocolRow,
    pub flags: FlagRow,
    // the priority: a smaller tag ranks ahead
    pub tag: u8,
    pub class: Class,
    // where packets that the filter takes go
    pub flow: u16,
}

#[derive(Clone, Copy)]
pub struct Header {
    pub source: u32,
    pub destination: u32,
    pub source_port: u16,
    pub destination_port: u16,
    pub protocol: u8,
    pub flags: u8,
}

impl FilterRow {
    // Whether this filter ranks ahead of another: by the smaller tag, and between equal tags by the smaller identifier.
    pub fn ranks_ahead(&self, other: &FilterRow) -> bool
        ensures { result ≡ ranks_ahead self.now other.now }
    {
        (self.tag, self.identifier) < (other.tag, other.identifier)
    }

    // Whether the two filters have the same value in every field. Not the whole row is compared, so no derive.
    pub fn same_values(&self, other: &FilterRow) -> bool
        ensures { result ≡ same_values self.now other.now }
    {
        self.source == other.source
            && self.destination == other.destination
            && self.source_port == other.source_port
            && self.destination_port == other.destination_port
            && self.protocol == other.protocol
            && self.flags == other.flags
    }
}
