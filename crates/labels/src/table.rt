// A label table: which key has which label, and how many standing filters have it.
ghost use Rattle.std.specs.Prelude.{◌≡◌, length};

use parts::marks::PLACES;

// A key in use, and how many standing filters have it.
#[derive(Clone, Copy)]
pub struct Used<K> {
    pub key: K,
    pub count: u8,
}

// A slot for each label, free or in use.
// The standing filters lie elsewhere, so no invariant can speak of them: each call says for which filters it holds.
#[derive(Drop)]
pub struct LabelTable<K> {
    pub(crate) slots: [Option<Used<K>>; PLACES],
    ghost size: { length slots ≡ 96 },
}

// The label that a key got, and whether it came into use.
// A struct, since both cases carry the label and callers add up the flags.
#[derive(Clone, Copy)]
pub struct Acquired {
    pub label: u8,
    pub new: bool,
}

// The key whose label was given back, and whether the label was freed.
// A struct, since both cases carry the key.
#[derive(Clone, Copy)]
pub struct Released<K> {
    pub key: K,
    pub freed: bool,
}
