// Changing the filter table: it becomes what the filter list is after the call.
ghost use Rattle.std.specs.Prelude.{◌≡◌, true, [], is_err};
ghost use Rattle.std.specs.List.{slice_get};
ghost use Rattle.fields.specs.Faults.{answer};
ghost use Rattle.filters.specs.declared.calls.Call.TheVariants.{Add, Remove};
ghost use Rattle.filters.specs.Standing.{refusal, after, position as rank_position, rank_place, place_of};
ghost use Rattle.filter_table.specs.Tables.{held};

use crate::lists::{position_of, rank_place};
use crate::table::FilterTable;
use arrayvec::ArrayVec;
use fields::faults::Fault;
use filters::rows::FilterRow;

impl FilterTable {
    pub fn empty() -> FilterTable
        ensures { held result ≡ [] }
    {
        FilterTable {
            rows: ArrayVec::new(),
        }
    }

    // The filter at a position in rank order, from 0.
    pub fn row_at(&self, position: usize) -> Option<FilterRow>
        ensures { result ≡ slice_get (held self.now) position }
    {
        self.rows.as_slice().get(position).copied()
    }

    // The position of the filter of an identifier.
    pub fn position_of(&self, identifier: u16) -> Option<usize>
        ensures { result ≡ rank_position identifier (held self.now) }
    {
        position_of(self.rows.as_slice(), identifier)
    }

    // Puts a filter in by its rank, and answers its position.
    #[tactic(auto, using(crate::proofs::Held::answered, crate::proofs::Held::entering))]
    pub fn add(&mut self, row: FilterRow) -> Result<usize, Fault>
        ensures result { result ≡ answer (refusal (held self.old) (Add row)) (rank_place row (held self.old)) }
        ensures list { held self.new ≡ after (held self.old) (Add row) }
        ensures kept { is_err result ≡ true → self.new ≡ self.old }
    {
        self.check_add(&row)?;
        let position = rank_place(self.rows.as_slice(), &row);
        self.rows.insert(position, row);
        Ok(position)
    }

    // Refuses what a removal would be refused for.
    pub fn check_remove(&self, identifier: u16) -> Result<(), Fault>
        ensures { result ≡ answer (refusal (held self.now) (Remove identifier)) tt }
    {
        self.standing_position(identifier)?;
        Ok(())
    }

    // The position of the filter that a removal takes out, or why it is refused.
    pub(crate) fn standing_position(&self, identifier: u16) -> Result<usize, Fault>
        ensures { result ≡ answer (refusal (held self.now) (Remove identifier)) (place_of identifier (held self.now)) }
    {
        if identifier == 0 {
            return Err(Fault::Identifier);
        }
        self.position_of(identifier)
            .ok_or(Fault::Unknown(identifier))
    }

    // Takes out the filter of an identifier, and answers the position that it had.
    #[tactic(auto, using(crate::proofs::Held::answered, crate::proofs::Held::leaving))]
    pub fn remove(&mut self, identifier: u16) -> Result<usize, Fault>
        ensures result { result ≡ answer (refusal (held self.old) (Remove identifier)) (place_of identifier (held self.old)) }
        ensures list { held self.new ≡ after (held self.old) (Remove identifier) }
        ensures kept { is_err result ≡ true → self.new ≡ self.old }
    {
        let position = self.standing_position(identifier)?;
        self.rows.remove(position);
        Ok(position)
    }
}
