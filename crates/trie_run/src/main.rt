// Takes a trie engine through filling, emptying and filling again, and prints what it answers and how many nodes it uses.
#![tactic(auto)]

use engines::engine::Engine;
use fields::faults::Fault;
use fields::kinds::Kind;
use fields::prefixes::{Prefix, PrefixRow};
use parts::marks::PLACES;
use parts::told::Told;
use std::io;
use trie::tries::Trie;

// Whose first bits the nested prefixes are.
const ADDRESS: u32 = 0xA5C3_0F96;

// Between the addresses of 96 prefixes that part as early as can be.
const APART: u32 = 44_739_242;

fn main(rt: HostRuntime) -> io::Result<()> {
    let mut trie = Trie::new();
    spread(&rt, &mut trie)?;
    nested(&rt, &mut trie)?;
    refused(&rt, &mut trie)?;
    let asked = trie.asked_number();
    println!(rt; "asked {asked} times")?;
    trie.empty();
    report(&rt, "emptied", &trie)
}

fn report(rt: &HostRuntime, what: &str, trie: &Trie) -> io::Result<()> {
    let nodes = trie.nodes_in_use();
    println!(rt; "{what}: {nodes} nodes")
}

// All places with long prefixes, emptied in another order and filled again.
fn spread(rt: &HostRuntime, trie: &mut Trie) -> io::Result<()> {
    told(rt, "spread", fill(trie))?;
    report(rt, "filled", trie)?;
    found(rt, trie, APART)?;
    told(rt, "emptied", clear_all(trie))?;
    report(rt, "emptied", trie)?;
    told(rt, "spread again", fill(trie))?;
    report(rt, "filled", trie)?;
    told(rt, "emptied", clear_all(trie))
}

// The prefixes of one address, of every length, cleared from either end.
fn nested(rt: &HostRuntime, trie: &mut Trie) -> io::Result<()> {
    told(rt, "nested", nest(trie))?;
    report(rt, "nested", trie)?;
    found(rt, trie, ADDRESS)?;
    found(rt, trie, 0xA5C3_0000)?;
    for length in (0..33).rev() {
        cleared(rt, trie, length)?;
    }
    told(rt, "nested again", nest(trie))?;
    for length in 0..33 {
        cleared(rt, trie, length)?;
    }
    Ok(())
}

// Every refusal that the engine knows, the trie holding one prefix.
fn refused(rt: &HostRuntime, trie: &mut Trie) -> io::Result<()> {
    told(rt, "length 0", put(trie, 5, 0, 0))?;
    report(rt, "length 0", trie)?;
    found(rt, trie, 7)?;
    told(rt, "no such place", put(trie, 96, 0, 0))?;
    told(rt, "a full place", put(trie, 5, 0, 1))?;
    told(rt, "held elsewhere", put(trie, 6, 0, 0))?;
    told(rt, "no prefix", put(trie, 6, 1, 31))?;
    told(rt, "an empty place", take(trie, 6))?;
    told(rt, "no such place", take(trie, 255))?;
    match trie.matches(7, &mut [0; PLACES - 1]) {
        Ok(count) => println!(rt; "short list: {count} labels"),
        Err(fault) => told(rt, "short list", Err(fault)),
    }
}

fn put(trie: &mut Trie, place: u8, address: u32, length: u8) -> Result<(), Fault> {
    trie.set(place, Prefix::form(PrefixRow { address, length })?)
}

fn take(trie: &mut Trie, place: u8) -> Result<(), Fault> {
    trie.clear(place)?;
    Ok(())
}

fn fill(trie: &mut Trie) -> Result<(), Fault> {
    for place in 0..PLACES as u8 {
        put(trie, place, APART.wrapping_mul(place as u32), 32)?;
    }
    Ok(())
}

fn clear_all(trie: &mut Trie) -> Result<(), Fault> {
    for turn in 0..PLACES {
        take(trie, (turn * 37 % PLACES) as u8)?;
    }
    Ok(())
}

// A prefix of each length at the place of that number.
fn nest(trie: &mut Trie) -> Result<(), Fault> {
    for length in (0..33).rev() {
        let mask = u32::MAX.checked_shl(32 - length as u32).unwrap_or(0);
        put(trie, length, ADDRESS & mask, length)?;
    }
    Ok(())
}

fn cleared(rt: &HostRuntime, trie: &mut Trie, place: u8) -> io::Result<()> {
    told(rt, "clear", take(trie, place))?;
    report(rt, "left", trie)
}

fn told(rt: &HostRuntime, what: &str, answer: Result<(), Fault>) -> io::Result<()> {
    match answer {
        Ok(()) => println!(rt; "{what}: done"),
        Err(fault) => println!(rt; "{what}: refused {fault}"),
    }
}

fn found(rt: &HostRuntime, trie: &mut Trie, address: u32) -> io::Result<()> {
    let mut list = [0; PLACES];
    match trie.matches(address, &mut list) {
        Ok(count) => {
            let labels = &list[..count];
            println!(rt; "{address:08X}: {labels:?}")
        }
        Err(fault) => told(rt, "match", Err(fault)),
    }
}
