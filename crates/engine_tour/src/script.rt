// The script's lines: reading a call, showing an answer.
use engine_runs::calls::{Answer, Call};
use fields::kinds::Kind;
use fields::protocols::{Protocol, ProtocolRow};
use parts::marks::PLACES;
use std::fmt;

// One of: empty, set PLACE NUMBER, set PLACE any, clear PLACE, match NUMBER.
// No `FromStr`: the type of a call is another crate's, and its words are this program's.
pub fn read(line: &str) -> Option<Call<Protocol>> {
    let mut words = line.split(' ');
    match words.next()? {
        "empty" => Some(Call::Empty),
        "set" => {
            let place = words.next()?.parse().ok()?;
            Some(Call::Set(place, read_value(words.next()?)?))
        }
        "clear" => Some(Call::Clear(words.next()?.parse().ok()?)),
        "match" => Some(Call::Match(words.next()?.parse().ok()?)),
        _ => None,
    }
}

fn read_value(word: &str) -> Option<Protocol> {
    let row = match word {
        "any" => ProtocolRow::Any,
        number => ProtocolRow::Only(number.parse().ok()?),
    };
    Protocol::form(row).ok()
}

// An answer as the text of one line; a refusal by its number and detail.
#[derive(Clone, Copy)]
pub struct Shown(pub Answer<Protocol>);

impl fmt::Display for Shown {
    fn fmt<W: fmt::Write>(&self, f: &mut fmt::Formatter<W>) -> fmt::Result {
        match self.0 {
            Answer::Emptied => write!(f, "emptied"),
            Answer::Set(Ok(())) => write!(f, "set"),
            Answer::Cleared(Ok(value)) => match value.row() {
                ProtocolRow::Any => write!(f, "cleared any"),
                ProtocolRow::Only(number) => write!(f, "cleared {number}"),
            },
            Answer::Matched(Ok(count), list) => write_labels(f, count, &list),
            Answer::Set(Err(fault))
            | Answer::Cleared(Err(fault))
            | Answer::Matched(Err(fault), _) => write!(f, "refused {fault}"),
        }
    }
}

fn write_labels<W: fmt::Write>(
    f: &mut fmt::Formatter<W>,
    count: usize,
    list: &[u8; PLACES],
) -> fmt::Result {
    write!(f, "matched {count}:")?;
    for label in list.iter().take(count) {
        write!(f, " {label}")?;
    }
    Ok(())
}
