// Explains, line by line, whether a value takes a number and why, or why a value or a network order is refused.
#![tactic(auto)]

mod questions;
mod reading;
mod wording;

use fields::orders::FIELDS;
use questions::{Line, Question};
use reading::read_line;
use std::fmt;
use std::io::{BufRead, BufReader};
use wording::{Outcome, explanation, unreadable};

fn main(rt: HostRuntime) -> anyhow::Result<()> {
    explain_lines(&rt)
}

// How the lines came out.
#[derive(Clone, Copy, Default)]
struct Tally {
    read: u64,
    taken: u64,
    not_taken: u64,
    refused: u64,
}

impl Tally {
    fn count(&mut self, outcome: Outcome) {
        self.read = self.read.saturating_add(1);
        match outcome {
            Outcome::Taken => self.taken = self.taken.saturating_add(1),
            Outcome::NotTaken => self.not_taken = self.not_taken.saturating_add(1),
            Outcome::Refused => self.refused = self.refused.saturating_add(1),
        }
    }
}

impl fmt::Display for Tally {
    fn fmt<W: fmt::Write>(&self, f: &mut fmt::Formatter<W>) -> fmt::Result {
        write!(
            f,
            "{} lines read: {} taken, {} not taken, {} refused",
            self.read, self.taken, self.not_taken, self.refused
        )
    }
}

fn explain_lines(rt: &HostRuntime) -> anyhow::Result<()> {
    let mut tally = Tally::default();
    for line in BufReader::new(rt.alloc(), rt.stdin())?.split(rt.alloc(), b'\n') {
        let line = line?;
        tally.count(explain_line(rt, read_line(line.as_slice()))?);
    }
    println!(rt; "{tally}")?;
    Ok(())
}

fn explain_line(rt: &HostRuntime, line: Option<Line>) -> anyhow::Result<Outcome> {
    let said = match line {
        None => unreadable(rt.alloc())?,
        Some(Line::One(question)) => explanation(rt.alloc(), question)?,
        Some(Line::Filter(questions)) => return explain_filter(rt, &questions),
    };
    println!(rt; "{}", said.text)?;
    Ok(said.outcome)
}

// Field by field, and then the filter as a whole.
fn explain_filter(rt: &HostRuntime, questions: &[Question; FIELDS]) -> anyhow::Result<Outcome> {
    let mut whole = Outcome::Taken;
    for (field, question) in (1..=FIELDS).zip(questions) {
        let said = explanation(rt.alloc(), *question)?;
        println!(rt; "field {field}: {}", said.text)?;
        whole = whole.max(said.outcome);
    }
    let verdict = match whole {
        Outcome::Taken => "matches: every value takes its number",
        Outcome::NotTaken => "does not match",
        Outcome::Refused => "is refused",
    };
    println!(rt; "the filter {verdict}")?;
    Ok(whole)
}
