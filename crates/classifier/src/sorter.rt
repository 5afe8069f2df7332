// What a classifier does with its filters, whichever engines and stores it is over.
ghost use Rattle.std.specs.Prelude.{◌≡◌, true, List, is_err, Some, None};
ghost use Rattle.fields.specs.Faults.{answer_by};
ghost use Rattle.fields.specs.declared.orders.NetworkOrder.{NetworkOrder};
ghost use Rattle.filters.specs.declared.rows.FilterRow.{FilterRow};
ghost use Rattle.filters.specs.declared.calls.Call.TheVariants.{Add, Remove};
ghost use Rattle.filters.specs.Standing.{refusal, after, without};
ghost use Rattle.filters.specs.Labels.{of_identifier};
ghost use Rattle.filters.specs.Answers.{added, removed, answer as list_answer};
ghost use Rattle.classifier.specs.Standing.{Asked};

use fields::faults::Fault;
use filters::rows::FilterRow;

pub trait Sorter {
    // these filters stand in it, and each part was asked so often
    ghost stands: { Self → List FilterRow → Asked → Type 0 };

    // a filter came or went where these others stand: a part was told only if it had to be
    ghost told: { Self → Self → FilterRow → List FilterRow → Type 0 };

    // in which order it combines the fields
    ghost network_order: { Self → NetworkOrder };

    // Adds a filter, and answers how many field labels and how many combination labels came into use: a pair of plain counts.
    fn add(&mut self, row: FilterRow) -> Result<(u8, u8), Fault>
        ensures answer { (fs : List FilterRow) (asked : Asked) → stands self.old fs asked → answer_by (λ n. added n.0 n.1) result ≡ list_answer (network_order self.old).fields fs (Add row) }
        ensures stands { (fs : List FilterRow) (asked : Asked) → stands self.old fs asked → stands self.new (after fs (Add row)) asked }
        ensures told { (fs : List FilterRow) (asked : Asked) → stands self.old fs asked → refusal fs (Add row) ≡ None → told self.old self.new row fs }
        ensures order { network_order self.new ≡ network_order self.old }
        ensures kept { is_err result ≡ true → self.new ≡ self.old };

    // Removes the filter of an identifier, and answers how many labels of either sort were freed.
    fn remove(&mut self, identifier: u16) -> Result<(u8, u8), Fault>
        ensures answer { (fs : List FilterRow) (asked : Asked) → stands self.old fs asked → answer_by (λ n. removed n.0 n.1) result ≡ list_answer (network_order self.old).fields fs (Remove identifier) }
        ensures stands { (fs : List FilterRow) (asked : Asked) → stands self.old fs asked → stands self.new (after fs (Remove identifier)) asked }
        ensures told { (fs : List FilterRow) (asked : Asked) (gone : FilterRow) → stands self.old fs asked → refusal fs (Remove identifier) ≡ None → of_identifier identifier fs ≡ Some gone → told self.old self.new gone (without identifier fs) }
        ensures order { network_order self.new ≡ network_order self.old }
        ensures kept { is_err result ≡ true → self.new ≡ self.old };
}
