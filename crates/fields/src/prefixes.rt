// Fields 1 and 2: a prefix of a 32-bit address.
ghost use Rattle.std.specs.Prelude.{◌≡◌, ◌-◌, ◌/◌, ◌%◌, ◌^◌, ◌<◌, ◌≤◌, []};
ghost use Rattle.fields.specs.Prefixes.{prefix_fault, prefix_takes, same_prefix};
ghost use Rattle.std.proofs.Common.{refl, rules, arith};
ghost use Rattle.fields.specs.Unique.{prefix_rows};

use crate::faults::Fault;
use crate::keys::Key;
use crate::kinds::Kind;

#[derive(Clone, Copy, Debug, Default, PartialEq, Eq)]
pub struct PrefixRow {
    pub address: u32,
    pub length: u8,
}

#[derive(Clone, Copy, PartialEq, Eq, Debug)]
pub struct Prefix {
    row: PrefixRow,
    ghost short: { row.length ≤ 32 },
    ghost clean: { row.address % 2 ^ (32 - row.length) ≡ 0 },
    ghost fits: { row.address < 2 ^ 32 },
}

impl Key for Prefix {
    ghost eq = { λ a b. same_prefix a.row b.row };

    ghost labels = { λ _. [] };

    ghost laws = { record { is_same = λ _ _. refl; decides = first_of (Prim.search rules, Prim.grind (arith, Self.row.coded.inj)) } };
}

impl Kind for Prefix {
    type Row = PrefixRow;

    ghost satisfied = { λ s n. prefix_takes s.row n };

    ghost width = { 32 };

    ghost plain = { λ s. s.row };

    ghost unlawful = { prefix_fault };

    ghost unique = { λ a b h. let e = prefix_rows a.row b.row a.short b.short a.clean b.clean a.fits b.fits h in Prim.grind (arith, Self.row.coded.inj) };

    ghost unlabelled = { λ _. refl };

    fn form(row: PrefixRow) -> Result<Prefix, Fault> {
        if row.length > 32 || beyond(row.address, row.length) != 0 {
            return Err(Fault::Prefix(row.length));
        }
        Ok(Prefix { row })
    }

    fn row(self) -> PrefixRow {
        self.row
    }

    fn takes(self, number: u32) -> bool {
        within(number, self.row.length) == within(self.row.address, self.row.length)
    }
}

// The first bits of a number; a shift by 32 would pass its width, so length 0 has none.
fn within(number: u32, length: u8) -> u32
    requires { length ≤ 32 }
    ensures { result ≡ number / 2 ^ (32 - length) }
{
    number.checked_shr(32 - length as u32).unwrap_or(0)
}

// The bits beyond the first.
fn beyond(number: u32, length: u8) -> u32
    requires { length ≤ 32 }
    ensures { result ≡ number % 2 ^ (32 - length) }
{
    number & u32::MAX.checked_shr(length as u32).unwrap_or(0)
}
