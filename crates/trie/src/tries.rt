// The trie engine: it finds the prefixes that an address begins with by one walk down a binary trie.
ghost use Rattle.std.specs.Prelude.{◌≡◌, ℕ, ◌^◌, ◌<◌, ◌≤◌, [], None, slice_index_or};
ghost use Rattle.std.proofs.Common.{subst};
ghost use Rattle.parts.specs.Asked.{Agrees};
ghost use Rattle.parts.specs.Meaning.{Meaning, nothing};
ghost use Rattle.fields.specs.declared.prefixes.Prefix.{Prefix};
ghost use Rattle.trie.specs.Strings.{string_count};
ghost use Rattle.trie.specs.Shown.{Shows};
ghost use Rattle.trie.specs.Meant.{size_from, single_from};

use crate::tree::Tree;
use engines::engine::Engine;
use fields::faults::Fault;
use fields::keys::Key;
use fields::kinds::Kind;
use fields::prefixes::Prefix;
use parts::checks::{check_clear, check_set};
use parts::marks::{PLACES, write_marked};
use parts::told::Told;

// The held prefixes, and how often the engine was asked since it was emptied.
#[derive(Drop)]
pub struct Trie {
    tree: Tree,
    asked: u32,
}

impl Trie {
    pub fn new() -> Trie
        ensures held { Shows result nothing }
        ensures asked { Agrees {Q = ℕ} result.asked [] }
    {
        Trie {
            tree: Tree::bare(),
            asked: 0,
        }
    }

    // How many nodes below the root are in use: as many as there are different non-empty bit strings that some held prefix begins with.
    pub fn nodes_in_use(&self) -> usize
        ensures exactly { (m : Meaning Prefix) → Shows self.now m → result ≡ string_count m.places }
        ensures few { result ≤ 3072 }
        ensures none { (m : Meaning Prefix) → Shows self.now m → ((l : ℕ) → slice_index_or m.places l None ≡ None) → result ≡ 0 }
    {
        self.tree.in_use()
    }

    // How often the engine was asked since it was emptied, modulo 2^32. A method of each engine, as the scan engine says.
    pub fn asked_number(&self) -> u32
        ensures { (m : Meaning Prefix) → Shows self.now m → result ≡ m.asked }
    {
        self.asked
    }
}

impl Told<Prefix> for Trie {
    type Asked = u32;

    ghost shows = { Shows };

    ghost agrees = { λ s l. Agrees s.asked l };

    ghost proper = { λ s m h.
        record {
          size = size_from s.tree.tables m.places s.tree.sound h.held;
          single = single_from s.tree.tables m.places s.tree.sound h.held;
          counted = subst (λ (x : ℕ). x < 2 ^ 32) h.counted h.small;
        } };

    fn empty(&mut self) {
        *self = Trie::new();
    }

    fn set(&mut self, place: u8, value: Prefix) -> Result<(), Fault> {
        // a call that is refused for its place walks nothing
        check_set(place, &[], self.tree.held(place), None)?;
        let row = value.row();
        let path = self.tree.walk(row.address, row.length);
        let path = path.as_slice();
        check_set(
            place,
            &[],
            self.tree.held(place),
            self.tree.holder(value, path),
        )?;
        self.tree.put(place, value, path);
        Ok(())
    }

    fn clear(&mut self, place: u8) -> Result<Prefix, Fault> {
        let value = check_clear(place, self.tree.held(place))?;
        self.tree.remove(place, value);
        Ok(value)
    }
}

impl Engine<Prefix> for Trie {
    fn matches(&mut self, number: u32, list: &mut [u8]) -> Result<usize, Fault> {
        let mut marks = [false; PLACES];
        self.tree.mark_path(number, &mut marks);
        let count = write_marked(&marks, list)?;
        self.asked = self.asked.wrapping_add(1);
        Ok(count)
    }
}
