// Fields 3 and 4: a range of ports.
ghost use Rattle.std.specs.Prelude.{◌≡◌, ◌^◌, ◌<◌, ◌≤◌, []};
ghost use Rattle.fields.specs.Ranges.{range_fault, range_takes, same_range};
ghost use Rattle.std.proofs.Common.{refl, rules, arith};
ghost use Rattle.fields.specs.Unique.{range_rows};

use crate::faults::Fault;
use crate::keys::Key;
use crate::kinds::Kind;

#[derive(Clone, Copy, Debug, Default, PartialEq, Eq)]
pub struct RangeRow {
    pub low: u16,
    pub high: u16,
}

#[derive(Clone, Copy, PartialEq, Eq, Debug)]
pub struct PortRange {
    row: RangeRow,
    ghost ascends: { row.low ≤ row.high },
    ghost fits: { row.high < 2 ^ 16 },
}

impl Key for PortRange {
    ghost eq = { λ a b. same_range a.row b.row };

    ghost labels = { λ _. [] };

    ghost laws = { record { is_same = λ _ _. refl; decides = first_of (Prim.search rules, Prim.grind (arith, Self.row.coded.inj)) } };
}

impl Kind for PortRange {
    type Row = RangeRow;

    ghost satisfied = { λ s n. range_takes s.row n };

    ghost width = { 16 };

    ghost plain = { λ s. s.row };

    ghost unlawful = { range_fault };

    ghost unique = { λ a b h. let e = range_rows a.row b.row a.ascends b.ascends a.fits b.fits h in Prim.grind (arith, Self.row.coded.inj) };

    ghost unlabelled = { λ _. refl };

    fn form(row: RangeRow) -> Result<PortRange, Fault> {
        if row.low > row.high {
            return Err(Fault::Range(row.low));
        }
        Ok(PortRange { row })
    }

    fn row(self) -> RangeRow {
        self.row
    }

    fn takes(self, number: u32) -> bool {
        self.row.low as u32 <= number && number <= self.row.high as u32
    }
}
