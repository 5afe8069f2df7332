// Which places of a table are full.
ghost use Rattle.std.specs.Prelude.{◌≡◌, ◌<◌, true, false, replicate, slice_index_or, slice_set};
ghost use Rattle.engines.specs.Tables.{Idle};

use parts::marks::PLACES;

// No place from top on is full, so that nobody need look there.
#[derive(Clone, Copy)]
pub struct Used {
    full: [bool; PLACES],
    top: u8,
    ghost idle: { Idle full top },
}

impl Used {
    pub fn none() -> Used
        ensures { result.full ≡ replicate 96 false }
    {
        Used {
            full: [false; PLACES],
            top: 0,
        }
    }

    pub fn top(&self) -> u8
        ensures { result ≡ self.now.top }
    {
        self.top
    }

    pub fn is_full(&self, place: usize) -> bool
        ensures { result ≡ slice_index_or self.now.full place false }
    {
        place < self.top as usize && self.full[place]
    }

    pub fn fill(&mut self, place: usize)
        requires { place < 96 }
        ensures { self.new.full ≡ slice_set self.old.full place true }
    {
        self.full[place] = true;
        self.top = self.top.max(place as u8 + 1);
    }

    pub fn free(&mut self, place: usize)
        requires { place < 96 }
        ensures { self.new.full ≡ slice_set self.old.full place false }
    {
        self.full[place] = false;
        self.top = top_of(&self.full);
    }
}

// One more than the highest full place.
fn top_of(full: &[bool; PLACES]) -> u8
    ensures { Idle full.now result }
{
    full.iter()
        .rposition(|is_full| *is_full)
        .map_or(0, |place| place as u8 + 1)
}
