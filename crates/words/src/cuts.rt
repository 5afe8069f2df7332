// Words are cut at separators.
ghost use Rattle.std.specs.Prelude.{◌≡◌, MatchOption};
ghost use Rattle.words.specs.Texts.{joined};
ghost use Rattle.words.specs.Reading.{Free};

// What stands before the first separator, and what stands behind it; none where there is no separator.
pub fn cut(bytes: &[u8], separator: u8) -> Option<(&[u8], &[u8])>
    ensures { MatchOption result (Free separator bytes.now) (λ p. (bytes.now ≡ joined p.0.now separator p.1.now) × Free separator p.0.now) }
{
    let place = bytes.iter().position(|byte| *byte == separator)?;
    Some((&bytes[..place], &bytes[place + 1..]))
}
