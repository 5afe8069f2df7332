// Asking one engine.
ghost use Rattle.std.specs.Prelude.{◌≡◌, ℕ, List, [], ◌∷◌, ◌++◌, take};
ghost use Rattle.parts.specs.Asked.{Succeeds};
ghost use Rattle.parts.specs.Meaning.{Meaning, asked_once};
ghost use Rattle.parts.specs.Marks.{labels_of};

use engines::engine::Engine;
use fields::faults::Fault;
use fields::kinds::Kind;
use labelling::found::Found;
use parts::marks::PLACES;

// The labels of the values that a number satisfies.
pub fn ask<V: Kind, P: Engine<V>>(engine: &mut P, number: u32) -> Result<Found, Fault>
    ensures { (m : Meaning V) → P.Told.shows engine.old m → Succeeds result (λ f. (take f.count f.labels ≡ labels_of (λ v. V.Kind.satisfied v number) m.places) × P.Told.shows engine.new (asked_once m) × ((l : List ℕ) → P.Told.agrees engine.old l → P.Told.agrees engine.new (l ++ number ∷ []))) }
{
    let mut labels = [0u8; PLACES];
    let count = engine.matches(number, &mut labels)?;
    Ok(Found { labels, count })
}
