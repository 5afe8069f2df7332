// Values with one spelling each, and the reader of any two with a space between them.
ghost use Rattle.std.specs.Prelude.{ℕ, List};
ghost use Rattle.words.specs.Texts.{joined};
ghost use Rattle.words.specs.Reading.{Reads, Free};

use words::cuts::cut;

pub trait Spelled: Copy {
    ghost spelling: { Self → List ℕ };

    // each number fits its width
    ghost fits: { Self → Type 0 };

    fn read(bytes: &[u8]) -> Option<Self>
        ensures { Reads spelling fits bytes.now result };
}

// A value whose spelling has no space.
pub trait Word: Spelled {
    ghost unspaced: { (v : Self) → Self.Spelled.fits v → Free 32 (Self.Spelled.spelling v) };
}

// A word, a space and what follows it.
impl<A: Word, B: Spelled> Spelled for (A, B) {
    ghost spelling = { λ p. joined (A.Spelled.spelling p.0) 32 (B.Spelled.spelling p.1) };

    ghost fits = { λ p. A.Spelled.fits p.0 × B.Spelled.fits p.1 };

    fn read(bytes: &[u8]) -> Option<(A, B)> {
        let (front, rest) = cut(bytes, b' ')?;
        let first = A::read(front)?;
        let second = B::read(rest)?;
        Some((first, second))
    }
}
