// Numbers as words: decimals, and the hexadecimal numbers of a header.
ghost use Rattle.std.specs.Prelude.{◌^◌, ◌<◌, decimal};
ghost use Rattle.words.specs.Texts.{hex};
ghost use Rattle.spelling.specs.Unspaced.{decimal_unspaced};
ghost use Rattle.std.proofs.Common.{arith, rules};

use crate::spelled::{Spelled, Word};
use words::decimals::{read_u8, read_u16};
use words::hexadecimals::{read_address, read_flags};

// A header's address: eight hexadecimal digits.
#[derive(Clone, Copy)]
pub struct Address(pub u32);

// A header's flags: two hexadecimal digits.
#[derive(Clone, Copy)]
pub struct Flags(pub u8);

impl Spelled for u16 {
    ghost spelling = { decimal };

    ghost fits = { λ n. n < 2 ^ 16 };

    fn read(bytes: &[u8]) -> Option<u16> {
        read_u16(bytes)
    }
}

impl Word for u16 {
    ghost unspaced = { decimal_unspaced };
}

impl Spelled for u8 {
    ghost spelling = { decimal };

    ghost fits = { λ n. n < 2 ^ 8 };

    fn read(bytes: &[u8]) -> Option<u8> {
        read_u8(bytes)
    }
}

impl Word for u8 {
    ghost unspaced = { λ n f. decimal_unspaced n (omega arith) };
}

impl Spelled for Address {
    ghost spelling = { λ a. hex 8 a.0 };

    ghost fits = { λ a. a.0 < 2 ^ 32 };

    fn read(bytes: &[u8]) -> Option<Address> {
        let address = read_address(bytes)?;
        Some(Address(address))
    }
}

impl Word for Address {
    ghost unspaced = { Prim.search rules };
}

impl Spelled for Flags {
    ghost spelling = { λ f. hex 2 f.0 };

    ghost fits = { λ f. f.0 < 2 ^ 8 };

    fn read(bytes: &[u8]) -> Option<Flags> {
        let flags = read_flags(bytes)?;
        Some(Flags(flags))
    }
}

impl Word for Flags {
    ghost unspaced = { Prim.search rules };
}
