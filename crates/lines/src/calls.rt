// Lines of the console, read as calls.
ghost use Rattle.std.specs.Prelude.{◌∷◌};
ghost use Rattle.words.specs.Reading.{Reads};
ghost use Rattle.lines.specs.Calls.{call_text, CallFits, LineReads};

use fields::faults::Fault;
use fields::flags::FlagRow;
use fields::prefixes::PrefixRow;
use fields::protocols::ProtocolRow;
use fields::ranges::RangeRow;
use filters::calls::Call;
use filters::rows::{Class, FilterRow, Header};
use spelling::numbers::{Address, Flags};
use spelling::spelled::Spelled;
use words::cuts::cut;

// How many bytes a line has at most.
const LONGEST: usize = 120;

// The console's answer list.
const ROOM: usize = 16;

// The words of a filter and of a search, in their order.
type FilterWords = (u16, (PrefixRow, (PrefixRow, PortWords)));

type PortWords = (RangeRow, (RangeRow, (ProtocolRow, (FlagRow, RankWords))));

type RankWords = (u8, (Class, u16));

type SearchWords = (Address, (Address, (u16, (u16, (u8, (Flags, u8))))));

// The call whose text the line is.
pub fn read_call(line: &[u8]) -> Result<Call, Fault>
    ensures { LineReads line.now result }
{
    if line.len() > LONGEST {
        return Err(Fault::Line);
    }
    read_form(line).ok_or(Fault::Line)
}

fn read_form(line: &[u8]) -> Option<Call>
    ensures { Reads call_text CallFits line.now result }
{
    let (command, arguments) = cut(line, b' ')?;
    let [letter] = command else {
        return None;
    };
    match *letter as char {
        'A' => read_add(arguments),
        'R' => read_remove(arguments),
        'L' => read_inspect(arguments),
        'F' => read_search(arguments),
        _ => None,
    }
}

// What follows `A `.
fn read_add(arguments: &[u8]) -> Option<Call>
    ensures { Reads call_text CallFits (65 ∷ 32 ∷ arguments.now) result }
{
    let words: FilterWords = Spelled::read(arguments)?;
    let (identifier, (source, (destination, rest))) = words;
    let (source_port, (destination_port, (protocol, (flags, rest)))) = rest;
    let (tag, (class, flow)) = rest;
    Some(Call::Add(FilterRow {
        identifier,
        source,
        destination,
        source_port,
        destination_port,
        protocol,
        flags,
        tag,
        class,
        flow,
    }))
}

// What follows `R `.
fn read_remove(arguments: &[u8]) -> Option<Call>
    ensures { Reads call_text CallFits (82 ∷ 32 ∷ arguments.now) result }
{
    let identifier = u16::read(arguments)?;
    Some(Call::Remove(identifier))
}

// What follows `L `.
fn read_inspect(arguments: &[u8]) -> Option<Call>
    ensures { Reads call_text CallFits (76 ∷ 32 ∷ arguments.now) result }
{
    let words: (u16, u8) = Spelled::read(arguments)?;
    let (identifier, place) = words;
    Some(Call::Inspect(identifier, place))
}

// What follows `F `.
fn read_search(arguments: &[u8]) -> Option<Call>
    ensures { Reads call_text CallFits (70 ∷ 32 ∷ arguments.now) result }
{
    let words: SearchWords = Spelled::read(arguments)?;
    let (source, (destination, (source_port, (destination_port, (protocol, (flags, limit)))))) =
        words;
    let header = Header {
        source: source.0,
        destination: destination.0,
        source_port,
        destination_port,
        protocol,
        flags: flags.0,
    };
    Some(Call::Search(header, limit, ROOM))
}
