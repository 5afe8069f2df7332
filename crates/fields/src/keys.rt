// What tables are keyed by: a field's value, or a pair of labels.
ghost use Rattle.std.specs.Prelude.{ℕ, Bool, List};
ghost use Rattle.fields.specs.Keys.{KeyLaws};

pub trait Key: Copy + Eq {
    // when two keys are the same, in the words of the definitions
    ghost eq: { Self → Self → Bool };

    // the labels that the key itself names, in the order in which they are checked; a field's value names none
    ghost labels: { Self → List ℕ };

    // `==` is this equality, and tells any two keys apart
    ghost laws: { KeyLaws Self.PartialEq.eq eq };
}
