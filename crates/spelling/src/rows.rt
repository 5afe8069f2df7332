// The values of a filter and its class as words.
ghost use Rattle.words.specs.Texts.{prefix_text, range_text, protocol_text, flag_text, PrefixFits, RangeFits, ProtocolFits, FlagFits};
ghost use Rattle.spelling.specs.Classes.{class_text};
ghost use Rattle.spelling.specs.Unspaced.{prefix_unspaced, range_unspaced, protocol_unspaced};
ghost use Rattle.std.proofs.Common.{rules};

use crate::spelled::{Spelled, Word};
use fields::flags::FlagRow;
use fields::prefixes::PrefixRow;
use fields::protocols::ProtocolRow;
use fields::ranges::RangeRow;
use filters::rows::Class;
use words::values::{read_flag_mask, read_prefix, read_protocol, read_range};

// Each impl names its text and its reader, and has nothing else to share.
impl Spelled for PrefixRow {
    ghost spelling = { prefix_text };

    ghost fits = { PrefixFits };

    fn read(bytes: &[u8]) -> Option<PrefixRow> {
        read_prefix(bytes)
    }
}

impl Word for PrefixRow {
    ghost unspaced = { prefix_unspaced };
}

impl Spelled for RangeRow {
    ghost spelling = { range_text };

    ghost fits = { RangeFits };

    fn read(bytes: &[u8]) -> Option<RangeRow> {
        read_range(bytes)
    }
}

impl Word for RangeRow {
    ghost unspaced = { range_unspaced };
}

impl Spelled for ProtocolRow {
    ghost spelling = { protocol_text };

    ghost fits = { ProtocolFits };

    fn read(bytes: &[u8]) -> Option<ProtocolRow> {
        read_protocol(bytes)
    }
}

impl Word for ProtocolRow {
    ghost unspaced = { protocol_unspaced };
}

impl Spelled for FlagRow {
    ghost spelling = { flag_text };

    ghost fits = { FlagFits };

    fn read(bytes: &[u8]) -> Option<FlagRow> {
        read_flag_mask(bytes)
    }
}

impl Word for FlagRow {
    ghost unspaced = { Prim.search rules };
}

impl Spelled for Class {
    ghost spelling = { class_text };

    ghost fits = { λ _. Unit {0} };

    fn read(bytes: &[u8]) -> Option<Class> {
        let [letter] = bytes else {
            return None;
        };
        match *letter as char {
            'e' => Some(Class::Exclusive),
            'n' => Some(Class::NonExclusive),
            _ => None,
        }
    }
}

impl Word for Class {
    ghost unspaced = { Prim.search rules };
}
