// Field 6: flags under a mask.
ghost use Rattle.std.specs.Prelude.{◌≡◌, ◌^◌, ◌<◌, [], bit_and};
ghost use Rattle.fields.specs.Flags.{flag_fault, flag_takes, same_flags};
ghost use Rattle.std.proofs.Common.{refl, rules, arith};
ghost use Rattle.fields.specs.Unique.{flag_rows};

use crate::faults::Fault;
use crate::keys::Key;
use crate::kinds::Kind;

#[derive(Clone, Copy, Debug, Default, PartialEq, Eq)]
pub struct FlagRow {
    pub mask: u8,
    pub wanted: u8,
}

#[derive(Clone, Copy, PartialEq, Eq, Debug)]
pub struct FlagMask {
    row: FlagRow,
    ghost inside: { bit_and row.wanted row.mask ≡ row.wanted },
    ghost fits: { row.mask < 2 ^ 8 },
}

impl Key for FlagMask {
    ghost eq = { λ a b. same_flags a.row b.row };

    ghost labels = { λ _. [] };

    ghost laws = { record { is_same = λ _ _. refl; decides = first_of (Prim.search rules, Prim.grind (arith, Self.row.coded.inj)) } };
}

impl Kind for FlagMask {
    type Row = FlagRow;

    ghost satisfied = { λ s n. flag_takes s.row n };

    ghost width = { 8 };

    ghost plain = { λ s. s.row };

    ghost unlawful = { flag_fault };

    ghost unique = { λ a b h. let e = flag_rows a.row b.row a.inside b.inside a.fits b.fits h in Prim.grind (arith, Self.row.coded.inj) };

    ghost unlabelled = { λ _. refl };

    fn form(row: FlagRow) -> Result<FlagMask, Fault> {
        if row.wanted & row.mask != row.wanted {
            return Err(Fault::Flags(row.mask));
        }
        Ok(FlagMask { row })
    }

    fn row(self) -> FlagRow {
        self.row
    }

    fn takes(self, number: u32) -> bool {
        number & self.row.mask as u32 == self.row.wanted as u32
    }
}
