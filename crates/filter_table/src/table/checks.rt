// Why a call would be refused: the first fault in the order of checking.
ghost use Rattle.std.specs.Prelude.{◌≡◌};
ghost use Rattle.fields.specs.Faults.{first_fault, answer};
ghost use Rattle.filters.specs.declared.calls.Call.TheVariants.{Add, Inspect};
ghost use Rattle.filters.specs.Standing.{refusal, search_checks};
ghost use Rattle.filter_table.specs.Tables.{held};

use crate::lists::check_twin;
use crate::table::FilterTable;
use fields::faults::Fault;
use fields::orders::FIELDS;
use filters::calls::Call;
use filters::filter::Filter;
use filters::rows::FilterRow;

// A search lists at most so many filters.
pub const MOST_LISTED: u8 = 16;

// How many places there are to inspect: the fields, and a node fewer than that.
pub const PLACES: usize = FIELDS + FIELDS - 1;

// Refuses what a search would be refused for.
pub fn check_search(most: u8, room: usize) -> Result<(), Fault>
    ensures { result ≡ answer (first_fault (search_checks most room)) tt }
{
    if most > MOST_LISTED {
        return Err(Fault::Limit(most));
    }
    if room < most as usize {
        return Err(Fault::Answers(room as u8));
    }
    Ok(())
}

impl FilterTable {
    // Why a call would be refused.
    pub fn refusal(&self, call: &Call) -> Option<Fault>
        ensures { result ≡ refusal (held self.now) call.now }
    {
        self.check(call).err()
    }

    fn check(&self, call: &Call) -> Result<(), Fault>
        ensures { result ≡ answer (refusal (held self.now) call.now) tt }
    {
        match *call {
            Call::Add(row) => self.check_add(&row),
            Call::Remove(identifier) => self.check_remove(identifier),
            Call::Inspect(identifier, place) => self.check_inspect(identifier, place),
            Call::Search(_, most, room) => check_search(most, room),
        }
    }

    // Refuses what an add would be refused for.
    pub fn check_add(&self, row: &FilterRow) -> Result<(), Fault>
        ensures { result ≡ answer (refusal (held self.now) (Add row.now)) tt }
    {
        Filter::form(*row)?;
        if self.position_of(row.identifier).is_some() {
            return Err(Fault::Stands(row.identifier));
        }
        check_twin(self.rows.as_slice(), row)?;
        if self.rows.is_full() {
            return Err(Fault::Crowded);
        }
        Ok(())
    }

    // Refuses what an inspection would be refused for.
    pub fn check_inspect(&self, identifier: u16, place: u8) -> Result<(), Fault>
        ensures { result ≡ answer (refusal (held self.now) (Inspect identifier place)) tt }
    {
        if identifier == 0 {
            return Err(Fault::Identifier);
        }
        if place < 1 || place as usize > PLACES {
            return Err(Fault::Place(place));
        }
        self.standing_position(identifier)?;
        Ok(())
    }
}
