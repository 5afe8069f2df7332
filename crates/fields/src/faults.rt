// The refusals of the classifier and everything below it.
ghost use Rattle.std.specs.Prelude.{◌≡◌, Some};
ghost use Rattle.fields.specs.Faults.{number, detail, fault_text};
ghost use Rattle.fields.specs.declared.faults.Fault.{Fault};

use std::error::Error;
use std::fmt;

// One case for each refusal, in the order of its number, with what its detail is made of.
#[derive(Clone, Copy, PartialEq, Eq, Debug)]
pub enum Fault {
    // a console line of no form
    Line,
    // identifier 0
    Identifier,
    // a prefix longer than 32 bits or with a 1 beyond its length: the length
    Prefix(u8),
    // a range with low above high: low
    Range(u16),
    // a flag mask with a wanted bit outside it: the mask
    Flags(u8),
    // a network order: its first position, 1 to 6, that is out of range or repeats
    Order(u8),
    // a search for more than 16 listed filters: how many were asked for
    Limit(u8),
    // an answer list shorter than the search may fill: its length
    Answers(u8),
    // a place to inspect that there is not: the place
    Place(u8),
    // a label above 95: the label
    Label(u8),
    // setting at a full place: its label
    Full(u8),
    // setting what another place holds: that place's label
    Elsewhere(u8),
    // clearing an empty place: its label
    Vacant(u8),
    // a label list or a scan table shorter than 96: its length
    Short(u8),
    // adding an identifier that stands: the identifier
    Stands(u16),
    // removing or inspecting an identifier that does not stand: the identifier
    Unknown(u16),
    // adding six values that a standing filter has: that filter's identifier
    Twin(u16),
    // adding when 96 filters stand
    Crowded,
}

impl Fault {
    pub fn number(self) -> u8
        ensures { result ≡ number self }
    {
        match self {
            Fault::Line => 1,
            Fault::Identifier => 2,
            Fault::Prefix(_) => 3,
            Fault::Range(_) => 4,
            Fault::Flags(_) => 5,
            Fault::Order(_) => 6,
            Fault::Limit(_) => 7,
            Fault::Answers(_) => 8,
            Fault::Place(_) => 9,
            Fault::Label(_) => 10,
            Fault::Full(_) => 11,
            Fault::Elsewhere(_) => 12,
            Fault::Vacant(_) => 13,
            Fault::Short(_) => 14,
            Fault::Stands(_) => 15,
            Fault::Unknown(_) => 16,
            Fault::Twin(_) => 17,
            Fault::Crowded => 18,
        }
    }

    pub fn detail(self) -> u32
        ensures { result ≡ detail self }
    {
        match self {
            Fault::Line | Fault::Identifier => 0,
            Fault::Prefix(d)
            | Fault::Flags(d)
            | Fault::Order(d)
            | Fault::Limit(d)
            | Fault::Answers(d)
            | Fault::Place(d)
            | Fault::Label(d)
            | Fault::Full(d)
            | Fault::Elsewhere(d)
            | Fault::Vacant(d)
            | Fault::Short(d) => d as u32,
            Fault::Range(d) | Fault::Stands(d) | Fault::Unknown(d) | Fault::Twin(d) => d as u32,
            Fault::Crowded => 96,
        }
    }

    // Its number and its detail, which no other refusal has.
    pub fn told(self) -> (u8, u32)
        ensures value { result ≡ (number self, detail self) }
        ensures alone { (f : Fault) → number f ≡ number self → detail f ≡ detail self → f ≡ self }
    {
        (self.number(), self.detail())
    }
}

// Shown by its number and its detail.
impl fmt::Display for Fault {
    ghost output = { λ f. Some (fault_text f) };

    fn fmt<W: fmt::Write>(&self, f: &mut fmt::Formatter<W>) -> fmt::Result {
        write!(f, "{} {}", self.number(), self.detail())
    }
}

impl Error for Fault {}
