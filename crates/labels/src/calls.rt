// Getting a label for a key and giving it back.
ghost use Rattle.std.specs.Prelude.{◌≡◌, ℕ, ◌+◌, ◌<◌, ◌≤◌, Bool, true, false, not, List, [], ◌∷◌, ◌++◌, map, length, replicate, is_some, IfSome, Some, None, count_by, MatchOption, ◌==◌, slice_index_or};
ghost use Rattle.std.specs.List.{position};
ghost use Rattle.filters.specs.Counting.{different};
ghost use Rattle.labels.specs.Labels.{here, used, uses, occurrences, standing, Labelled, Standing, keys, Keyed, Left, OneLabel, AsMany};

use crate::table::{Acquired, LabelTable, Released, Used};
use fields::keys::Key;
use parts::checks::entry_at;
use parts::marks::PLACES;

impl<K: Key> LabelTable<K> {
    // A table with every label free.
    pub fn empty() -> LabelTable<K>
        ensures labelled { Labelled K.Key.eq result.slots [] }
        ensures none { result.slots ≡ replicate 96 None }
    {
        LabelTable {
            slots: [None; PLACES],
        }
    }

    // The key's label, with its count raised, or a free one. None only where 96 filters stand.
    pub fn acquire(&mut self, key: K) -> Option<Acquired>
        ensures room { (fs : List (Standing K)) → Labelled K.Key.eq self.old.slots fs → length fs < 96 → is_some result ≡ true }
        ensures labelled { (before after : List (Standing K)) → Labelled K.Key.eq self.old.slots (before ++ after) → IfSome result (λ a. Labelled K.Key.eq self.new.slots (before ++ standing key a.label ∷ after)) }
        ensures fresh { (fs : List (Standing K)) → Labelled K.Key.eq self.old.slots fs → IfSome result (λ a. a.new ≡ (occurrences K.Key.eq key fs == 0)) }
        ensures keyed { IfSome result (λ a. (a.label < 96) × Keyed K.Key.eq (keys self.old.slots) (keys self.new.slots) key a.label a.new) }
        ensures kept { is_some result ≡ false → self.new ≡ self.old }
    {
        if let Some(i) = place_of(&self.slots, &key) {
            let used = self.slots[i]?;
            let count = used.count.checked_add(1)?;
            self.slots[i] = Some(Used { count, ..used });
            return Some(Acquired {
                label: i as u8,
                new: false,
            });
        }
        let i = free_place(&self.slots)?;
        self.slots[i] = Some(Used { key, count: 1 });
        Some(Acquired {
            label: i as u8,
            new: true,
        })
    }

    // Gives a label back, for one filter that has it. None where the label is free or there is no such label.
    pub fn release(&mut self, label: u8) -> Option<Released<K>>
        ensures labelled { (before after : List (Standing K)) (key : K) → Labelled K.Key.eq self.old.slots (before ++ standing key label ∷ after) → (result ≡ Some (record { key = key; freed = (occurrences K.Key.eq key (before ++ after) == 0) })) × Labelled K.Key.eq self.new.slots (before ++ after) }
        ensures keyed { MatchOption result (slice_index_or (keys self.old.slots) label None ≡ None) (λ d. Left (keys self.old.slots) (keys self.new.slots) d.key label d.freed) }
        ensures kept { is_some result ≡ false → self.new ≡ self.old }
    {
        let Used { key, count } = self.used_at(label)?;
        let freed = count <= 1;
        self.slots[label as usize] = if freed {
            None
        } else {
            Some(Used {
                key,
                count: count - 1,
            })
        };
        Some(Released { key, freed })
    }

    // The label of a key in use.
    pub fn label_of(&self, key: &K) -> Option<u8>
        ensures found { MatchOption result ((i : ℕ) → i < 96 → here K.Key.eq key.now (slice_index_or self.now.slots i None) ≡ false) (λ l. (l < 96) × (here K.Key.eq key.now (slice_index_or self.now.slots l None) ≡ true)) }
        ensures one { (fs : List (Standing K)) → Labelled K.Key.eq self.now.slots fs → OneLabel fs }
    {
        place_of(&self.slots, key).map(|i| i as u8)
    }

    // How many standing filters have a label: 0 for a free one, and where there is no such label.
    pub fn count(&self, label: u8) -> u8
        ensures value { result ≡ uses (slice_index_or self.now.slots label None) }
        ensures counts { (fs : List (Standing K)) (key : K) → Labelled K.Key.eq self.now.slots fs → here K.Key.eq key (slice_index_or self.now.slots label None) ≡ true → result ≡ occurrences K.Key.eq key fs }
    {
        self.used_at(label).map_or(0, |used| used.count)
    }

    // How many labels are in use.
    pub fn in_use(&self) -> usize
        ensures value { result ≡ count_by used self.now.slots }
        ensures different { (fs : List (Standing K)) → Labelled K.Key.eq self.now.slots fs → AsMany K.Key.eq self.now.slots fs }
        ensures each { (fs : List (Standing K)) → Labelled K.Key.eq self.now.slots fs → result ≡ different K.Key.eq (λ _. true) (map (λ f. f.key) fs) }
        ensures few { result ≤ 96 }
    {
        self.slots.iter().map(|slot| slot.is_some() as usize).sum()
    }

    // What the slot of a label holds.
    fn used_at(&self, label: u8) -> Option<Used<K>>
        ensures { result ≡ slice_index_or self.now.slots label None }
    {
        entry_at(&self.slots, label as usize)
    }
}

// Whether a slot is in use, by the key.
fn has<K: Key>(slot: &Option<Used<K>>, key: &K) -> bool
    ensures { result ≡ here K.Key.eq key.now slot.now }
{
    slot.is_some_and(|used| *key == used.key)
}

// The slot of a key.
fn place_of<K: Key>(slots: &[Option<Used<K>>], key: &K) -> Option<usize>
    ensures { result ≡ position (here K.Key.eq key.now) slots.now }
{
    slots.iter().position(|slot| has(slot, key))
}

// The first free slot.
fn free_place<K: Copy>(slots: &[Option<Used<K>>]) -> Option<usize>
    ensures { result ≡ position (λ s. not (used s)) slots.now }
{
    slots.iter().position(|slot| slot.is_none())
}
