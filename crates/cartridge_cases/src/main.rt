//! Runs the reader over recorded cartridges and compares each outcome with the recorded one.
#![tactic(auto)]

ghost use Rattle.std.specs.Prelude.{◌<◌, IfOk};

use anyhow::anyhow;
use cartridge::Cartridge;
use map::Map;
use std::alloc::{AllocError, Global};
use std::fs;

/// The value of a hexadecimal digit.
fn digit(b: u8) -> anyhow::Result<u8>
    ensures { IfOk result (λ d. d < 16) }
{
    match b {
        b'0'..=b'9' => Ok(b - b'0'),
        b'a'..=b'f' => Ok(b - b'a' + 10),
        _ => Err(anyhow!("not a hexadecimal digit")),
    }
}

/// The bytes that a row of hexadecimal digits spells.
fn decode(heap: Global, hex: &str) -> anyhow::Result<Vec<u8>> {
    let mut bytes = Vec::new(heap);
    let (pairs, rest) = hex.as_bytes().as_chunks::<2>();
    for [high, low] in pairs {
        bytes.push(digit(*high)? * 16 + digit(*low)?)?;
    }
    // A last digit without a second spells no byte, but it has to be one.
    for last in rest {
        digit(*last)?;
    }
    Ok(bytes)
}

/// What the reader says of the bytes: `ok` and the counts, or `no`, the refusal's number and what it carries.
fn outcome(heap: Global, bytes: &[u8]) -> Result<String, AllocError> {
    let mut mine = Cartridge::blank();
    match mine.read(bytes) {
        Ok(()) => format!(in heap;
            "ok {} {} {}",
            mine.places(),
            mine.districts(),
            mine.roads()
        ),
        Err(refusal) => format!(in heap; "no {} {}", refusal.number(), refusal.payload()),
    }
}

/// Whether the reader says of a case what is expected; if not, the case is printed.
fn agrees(rt: &HostRuntime, expected: &str, hex: &str) -> anyhow::Result<bool> {
    let bytes = decode(rt.alloc(), hex)?;
    let found = outcome(rt.alloc(), &bytes)?;
    let same = found.as_str() == expected;
    if !same {
        println!(rt; "{found} in place of {expected}")?;
    }
    Ok(same)
}

fn run(rt: &HostRuntime) -> anyhow::Result<()> {
    let text = fs::read_to_string(rt, "cases.txt")?;
    let mut expected = "";
    let mut cases = 0u32;
    let mut differ = 0u32;
    for line in text.lines() {
        if let Some(outcome) = line.strip_prefix("E ") {
            expected = outcome;
        } else if let Some(hex) = line.strip_prefix("H ") {
            cases = cases.saturating_add(1);
            if !agrees(rt, expected, hex)? {
                differ = differ.saturating_add(1);
            }
        }
    }
    println!(rt; "{cases} cases, {differ} differ")?;
    Ok(())
}

fn main(rt: HostRuntime) -> anyhow::Result<()> {
    run(&rt)
}
