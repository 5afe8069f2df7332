// A tour of the engines: a script of calls, one to a line, run on a scan engine and on the direct engine.
#![tactic(auto)]

mod script;

use crate::script::{Shown, read};
use anyhow::Context;
use engine_runs::calls::Call;
use engine_runs::runs::run_both;
use engines::direct::Direct;
use engines::rows::{RowTable, Rows};
use engines::scan::Scan;
use fields::protocols::{Protocol, ProtocolRow};

fn main(rt: HostRuntime) -> anyhow::Result<()> {
    let heap = rt.alloc();
    let mut calls = Vec::new(heap);
    for line in rt.lines(heap) {
        calls.push(read(&line?).context("not a call")?)?;
    }
    let mut rows = [ProtocolRow::Any; 100];
    tour(&rt, RowTable::form(&mut rows)?, &calls)
}

// Runs the calls on both engines, and shows the answers of one: those of the other are equal.
fn tour<T: Rows<ProtocolRow> + Drop>(
    rt: &HostRuntime,
    table: T,
    calls: &[Call<Protocol>],
) -> anyhow::Result<()> {
    let mut scan = Scan::over(table);
    let mut direct = Direct::new();
    let both = run_both(rt.alloc(), &mut scan, &mut direct, calls)?;
    for answer in &both.first {
        println!(rt; "{}", Shown(*answer))?;
    }
    println!(rt; "asked {}", scan.asked_number())?;
    Ok(())
}
