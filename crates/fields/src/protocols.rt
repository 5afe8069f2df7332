// Field 5: a protocol number, or any.
ghost use Rattle.std.specs.Prelude.{◌≡◌, true, []};
ghost use Rattle.fields.specs.Protocols.{protocol_fault, protocol_takes, same_protocol, fits_byte};
ghost use Rattle.std.proofs.Common.{refl, rules, arith};
ghost use Rattle.fields.specs.Unique.{protocol_rows};

use crate::faults::Fault;
use crate::keys::Key;
use crate::kinds::Kind;

// An enum of its own and no Option, whose None would read as no protocol where this takes any.
#[derive(Clone, Copy, Debug, Default, PartialEq, Eq)]
pub enum ProtocolRow {
    #[default]
    Any,
    Only(u8),
}

#[derive(Clone, Copy, PartialEq, Eq, Debug)]
pub struct Protocol {
    row: ProtocolRow,
    ghost fits: { fits_byte row ≡ true },
}

impl Key for Protocol {
    ghost eq = { λ a b. same_protocol a.row b.row };

    ghost labels = { λ _. [] };

    ghost laws = { record { is_same = Prim.search rules; decides = first_of (Prim.search rules, Prim.grind (arith, Self.row.coded.inj)) } };
}

impl Kind for Protocol {
    type Row = ProtocolRow;

    ghost satisfied = { λ s n. protocol_takes s.row n };

    ghost width = { 8 };

    ghost plain = { λ s. s.row };

    ghost unlawful = { protocol_fault };

    ghost unique = { λ a b h. let e = protocol_rows a.row b.row a.fits b.fits h in Prim.grind (arith, Self.row.coded.inj) };

    ghost unlabelled = { λ _. refl };

    fn form(row: ProtocolRow) -> Result<Protocol, Fault> {
        Ok(Protocol { row })
    }

    fn row(self) -> ProtocolRow {
        self.row
    }

    fn takes(self, number: u32) -> bool {
        match self.row {
            ProtocolRow::Any => true,
            ProtocolRow::Only(p) => number == p as u32,
        }
    }
}
