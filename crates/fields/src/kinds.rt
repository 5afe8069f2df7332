// A kind of value that a field of a filter can have.
// Each kind gives its row and its laws itself: one frame for all would hold the same proofs, a kind at a time.
ghost use Rattle.std.specs.Prelude.{◌≡◌, ℕ, ◌^◌, ◌<◌, Bool, [], Ok, Option};
ghost use Rattle.fields.specs.Faults.{answer, answer_by};
ghost use Rattle.fields.specs.declared.faults.Fault.{Fault};

use crate::faults::Fault;
use crate::keys::Key;

pub trait Kind: Key {
    // the plain numbers that a value lies as in a table
    type Row: Copy;

    // whether a header's number satisfies the value
    ghost satisfied: { Self → ℕ → Bool };

    // how many bits such a number has
    ghost width: { ℕ };

    ghost plain: { Self → Self.Row };

    // why a row is no value's, if it is none's
    ghost unlawful: { Self.Row → Option Fault };

    // The value with exactly this row; forming a value's row gives the value.
    fn form(row: Self::Row) -> Result<Self, Fault>
        ensures formed { answer_by plain result ≡ answer (unlawful row) row }
        ensures again { (v : Self) → plain v ≡ row → result ≡ Ok v };

    fn row(self) -> Self::Row
        ensures { result ≡ plain self };

    fn takes(self, number: u32) -> bool
        ensures { result ≡ satisfied self number };

    // values that the same numbers satisfy are the same value
    ghost unique: { (a b : Self) → ((n : ℕ) → n < 2 ^ width → satisfied a n ≡ satisfied b n) → a ≡ b };

    // a field's value names no label
    ghost unlabelled: { (a : Self) → Self.Key.labels a ≡ [] };
}
