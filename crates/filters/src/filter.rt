// A filter whose values are formed: what a row of numbers stands for, once it has been checked.
ghost use Rattle.std.specs.Prelude.{◌≡◌};
ghost use Rattle.fields.specs.Faults.{answer, answer_by};
ghost use Rattle.filters.specs.Filters.{matches, row_fault};
ghost use Rattle.filters.specs.Formed.{plain};

use crate::rows::{Class, FilterRow, Header};
use fields::faults::Fault;
use fields::flags::FlagMask;
use fields::kinds::Kind;
use fields::prefixes::Prefix;
use fields::protocols::Protocol;
use fields::ranges::PortRange;

#[derive(Clone, Copy)]
pub struct Filter {
    pub identifier: u16,
    pub source: Prefix,
    pub destination: Prefix,
    pub source_port: PortRange,
    pub destination_port: PortRange,
    pub protocol: Protocol,
    pub flags: FlagMask,
    pub tag: u8,
    pub class: Class,
    pub flow: u16,
}

impl Filter {
    // The filter with exactly this row. The identifier is checked first, then the values in the order of the fields.
    pub fn form(row: FilterRow) -> Result<Filter, Fault>
        ensures { answer_by plain result ≡ answer (row_fault row) row }
    {
        if row.identifier == 0 {
            return Err(Fault::Identifier);
        }
        let source = Prefix::form(row.source)?;
        let destination = Prefix::form(row.destination)?;
        let source_port = PortRange::form(row.source_port)?;
        let destination_port = PortRange::form(row.destination_port)?;
        let protocol = Protocol::form(row.protocol)?;
        let flags = FlagMask::form(row.flags)?;
        Ok(Filter {
            identifier: row.identifier,
            source,
            destination,
            source_port,
            destination_port,
            protocol,
            flags,
            tag: row.tag,
            class: row.class,
            flow: row.flow,
        })
    }

    // Whether the header's numbers satisfy all values.
    pub fn matches(&self, header: &Header) -> bool
        ensures { result ≡ matches (plain self.now) header.now }
    {
        self.source.takes(header.source)
            && self.destination.takes(header.destination)
            && self.source_port.takes(header.source_port as u32)
            && self.destination_port.takes(header.destination_port as u32)
            && self.protocol.takes(header.protocol as u32)
            && self.flags.takes(header.flags as u32)
    }
}
