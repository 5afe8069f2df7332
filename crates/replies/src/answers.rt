// Answers, written as lines of the console.
ghost use Rattle.std.specs.Prelude.{◌≡◌, [], ◌∷◌, ◌++◌, take, Ok, Err, string_bytes, OnOk};
ghost use Rattle.replies.specs.Answers.{decimals, best_numbers, answer_text};

use fields::faults::Fault;
use filters::calls::{Answer, Best};
use std::alloc::AllocError;

// Writes the line of an answer behind what there is. A search fills a list, of which as many identifiers are written as it listed.
pub fn write_answer(
    out: &mut String,
    answer: Result<Answer, Fault>,
    listed: &[u16],
) -> Result<(), AllocError>
    ensures { OnOk result (string_bytes out.new ≡ string_bytes out.old ++ answer_text answer listed.now) }
{
    match answer {
        Ok(answer) => write_accepted(out, answer, listed),
        Err(fault) => write_refusal(out, fault),
    }
}

// Pieces by functions, each with its clause: a Display would need the answer and the list in one struct and hold the same pieces.
fn write_accepted(out: &mut String, answer: Answer, listed: &[u16]) -> Result<(), AllocError>
    ensures { OnOk result (string_bytes out.new ≡ string_bytes out.old ++ answer_text (Ok answer) listed.now) }
{
    match answer {
        Answer::Added(fields, nodes) => write!(out, "+ {fields} {nodes}"),
        Answer::Removed(fields, nodes) => write!(out, "- {fields} {nodes}"),
        Answer::Inspected(_, count) => write!(out, "# {count}"),
        Answer::Found(best, count, pairs) => write_found(out, best, pairs, first(listed, count)),
    }
}

fn write_refusal(out: &mut String, fault: Fault) -> Result<(), AllocError>
    ensures { OnOk result (string_bytes out.new ≡ string_bytes out.old ++ answer_text (Err fault) []) }
{
    write!(out, "! {fault}")
}

fn write_found(
    out: &mut String,
    best: Option<Best>,
    pairs: u32,
    listed: &[u16],
) -> Result<(), AllocError>
    ensures { OnOk result (string_bytes out.new ≡ string_bytes out.old ++ 61 ∷ decimals (best_numbers best ++ pairs ∷ listed.now)) }
{
    write_best(out, best)?;
    write!(out, " {pairs}")?;
    write_listed(out, listed)
}

fn write_best(out: &mut String, best: Option<Best>) -> Result<(), AllocError>
    ensures { OnOk result (string_bytes out.new ≡ string_bytes out.old ++ 61 ∷ decimals (best_numbers best)) }
{
    match best {
        Some(best) => write!(out, "= {} {}", best.identifier, best.flow),
        None => write!(out, "= 0 0"),
    }
}

fn write_listed(out: &mut String, listed: &[u16]) -> Result<(), AllocError>
    ensures { OnOk result (string_bytes out.new ≡ string_bytes out.old ++ decimals listed.now) }
{
    for identifier in listed {
        write!(out, " {identifier}")?;
    }
    Ok(())
}

fn first(list: &[u16], count: u8) -> &[u16]
    ensures { result.now ≡ take count list.now }
{
    list.get(..count as usize).unwrap_or(list)
}
