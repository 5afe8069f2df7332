// What the columns of all fields do together, whichever engines serve them.
ghost use Rattle.std.specs.Prelude.{◌≡◌, ℕ, ◌<◌, List, ◌∷◌, ◌++◌, length};
ghost use Rattle.filters.specs.declared.filter.Filter.{Filter};
ghost use Rattle.filters.specs.declared.rows.Header.{Header};
ghost use Rattle.parts.specs.Asked.{Succeeds};
ghost use Rattle.labelling.specs.Boards.{Labels};
ghost use Rattle.labelling.specs.Lists.{found_in};
ghost use Rattle.columns.specs.Fields.{Placed, placed, fresh, CountedColumns, values_in_use, once_more};

use fields::faults::Fault;
use fields::orders::FIELDS;
use filters::filter::Filter;
use filters::rows::Header;
use labelling::entered::Entered;
use labelling::found::Found;

pub trait Fields {
    // the columns stand for these filters, and the engine of each field, from 0, was asked so often
    ghost stand: { Self → List Placed → (ℕ → ℕ) → Type 0 };

    // a filter came or went where these others stand: each engine was told only if it had to be
    ghost told: { Self → Self → Filter → List Placed → Type 0 };

    // each engine was asked the header's number in its field, once, and these labels were found
    ghost answered: { Self → Self → Header → List Placed → (ℕ → List ℕ) → Type 0 };

    // Gives a filter its labels in the fields.
    fn enter(&mut self, filter: Filter) -> Result<Entered, Fault>
        ensures { (before after : List Placed) (ns : ℕ → ℕ) → length (before ++ after) < 96 → stand self.old (before ++ after) ns → Succeeds result (λ x. stand self.new (before ++ placed filter x.labels ∷ after) ns × (x.new ≡ fresh filter (before ++ after)) × Labels x.labels × told self.old self.new filter (before ++ after)) };

    // Gives a filter's labels in the fields back, and says how many were freed.
    fn leave(&mut self, labels: [u8; FIELDS]) -> Result<u8, Fault>
        ensures { (before after : List Placed) (filter : Filter) (ns : ℕ → ℕ) → stand self.old (before ++ placed filter labels ∷ after) ns → Succeeds result (λ freed. stand self.new (before ++ after) ns × (freed ≡ fresh filter (before ++ after)) × told self.old self.new filter (before ++ after)) };

    // The labels found in each field.
    fn ask(&mut self, header: Header) -> Result<[Found; FIELDS], Fault>
        ensures { (ps : List Placed) (ns : ℕ → ℕ) → stand self.old ps ns → Succeeds result (λ found. stand self.new ps (once_more ns) × answered self.old self.new header ps (found_in found)) };

    // How many standing filters have a label in a field, counted from 0; 0 where there is no such field.
    fn count(&self, field: usize, label: u8) -> u8
        ensures { (ps : List Placed) (ns : ℕ → ℕ) → stand self.now ps ns → CountedColumns field label result ps };

    // How many field labels are in use, in all fields together.
    fn in_use(&self) -> usize
        ensures { (ps : List Placed) (ns : ℕ → ℕ) → stand self.now ps ns → result ≡ values_in_use ps };
}
