// The direct engine: reaches protocol values by their number.
ghost use Rattle.std.specs.Prelude.{◌≡◌, ℕ, ◌%◌, ◌^◌, true, length, replicate, if◌then◌else◌, None, slice_index_or};
ghost use Rattle.fields.specs.declared.protocols.ProtocolRow.{ProtocolRow};
ghost use Rattle.fields.specs.Protocols.{fits_byte, same_protocol};
ghost use Rattle.parts.specs.Asked.{Agrees};
ghost use Rattle.engines.specs.Numbers.{kept_label, Reached};
ghost use Rattle.std.proofs.Common.{rules};

use crate::engine::Engine;
use crate::pairs::write_rising;
use fields::faults::Fault;
use fields::kinds::Kind;
use fields::protocols::{Protocol, ProtocolRow};
use parts::checks::{check_clear, check_set, entry_at};
use parts::marks::PLACES;
use parts::told::Told;

// How many protocol numbers there are.
const NUMBERS: usize = 256;

// The values at their places, and the label of each: of any, and of each number. Both ways are kept, so that clear reads
// the value at a place, and a match the places of a number, without a search.
#[derive(Drop)]
pub struct Direct {
    held: [Option<Protocol>; PLACES],
    any: Option<u8>,
    numbered: [Option<u8>; NUMBERS],
    asked: u32,
}

impl Direct {
    // An empty engine.
    pub fn new() -> Direct
        ensures held { result.held ≡ replicate 96 None }
        ensures any { result.any ≡ None }
        ensures numbered { result.numbered ≡ replicate 256 None }
        ensures asked { result.asked ≡ 0 }
    {
        Direct {
            held: [None; PLACES],
            any: None,
            numbered: [None; NUMBERS],
            asked: 0,
        }
    }

    // A method of each engine: one of `Told` would leave open at a scan engine's call for which kind of value it is meant.
    pub fn asked_number(&self) -> u32
        ensures { result ≡ self.now.asked }
    {
        self.asked
    }

    // The label kept for a value.
    fn label(&self, row: ProtocolRow) -> Option<u8>
        ensures { result ≡ kept_label self.now row }
    {
        match row {
            ProtocolRow::Any => self.any,
            ProtocolRow::Only(number) => self.numbered[number as usize],
        }
    }

    // The label kept for a number; only numbers of 8 bits have one.
    fn numbered_label(&self, number: u32) -> Option<u8>
        ensures { result ≡ slice_index_or self.now.numbered number None }
    {
        entry_at(&self.numbered, number as usize)
    }

    // Keeps a label, or none, for a value.
    fn point(&mut self, row: ProtocolRow, label: Option<u8>)
        ensures held { self.new.held ≡ self.old.held }
        ensures asked { self.new.asked ≡ self.old.asked }
        ensures size { length self.new.numbered ≡ length self.old.numbered }
        ensures label { length self.old.numbered ≡ 256 → (r : ProtocolRow) → fits_byte r ≡ true → kept_label self.new r ≡ (if same_protocol r row then label else kept_label self.old r) }
    {
        match row {
            ProtocolRow::Any => self.any = label,
            ProtocolRow::Only(number) => self.numbered[number as usize] = label,
        }
    }
}

impl Told<Protocol> for Direct {
    type Asked = u32;

    ghost shows = { Reached };

    ghost agrees = { λ s l. Agrees s.asked l };

    ghost proper = { Prim.search rules };

    fn empty(&mut self) {
        self.held = [None; PLACES];
        self.any = None;
        self.numbered = [None; NUMBERS];
        self.asked = 0;
    }

    fn set(&mut self, place: u8, value: Protocol) -> Result<(), Fault> {
        let at = place as usize;
        let row = value.row();
        check_set(place, &[], entry_at(&self.held, at), self.label(row))?;
        self.held[at] = Some(value);
        self.point(row, Some(place));
        Ok(())
    }

    fn clear(&mut self, place: u8) -> Result<Protocol, Fault> {
        let at = place as usize;
        let value = check_clear(place, entry_at(&self.held, at))?;
        self.held[at] = None;
        self.point(value.row(), None);
        Ok(value)
    }
}

impl Engine<Protocol> for Direct {
    fn matches(&mut self, number: u32, list: &mut [u8]) -> Result<usize, Fault> {
        let count = write_rising(self.any, self.numbered_label(number), list)?;
        self.asked = self.asked.wrapping_add(1);
        Ok(count)
    }
}
