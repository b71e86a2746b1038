//! The shift program: reads the cartridge MINE.MAP in its folder and says what it holds.
#![tactic(auto)]

use anyhow::anyhow;
use cartridge::Cartridge;
use map::{District, Map};
use std::fs;
use survey::{places_in, roads_leaving};

/// Prints the counts of a map, and for each district those of its places and of the roads that leave it.
fn print_survey<M: Map>(rt: &HostRuntime, map: &M) -> anyhow::Result<()> {
    println!(rt;
        "{} places, {} districts, {} roads",
        map.places(),
        map.districts(),
        map.roads()
    )?;
    for d in 0..map.districts() as u8 {
        let district = District(d);
        println!(rt;
            "district {d}: {} places, {} roads leave it",
            places_in(map, district),
            roads_leaving(map, district)
        )?;
    }
    Ok(())
}

/// The bytes of the cartridge.
fn load(rt: &HostRuntime) -> anyhow::Result<Vec<u8>> {
    fs::read(rt, "MINE.MAP").map_err(|_| anyhow!("MINE.MAP cannot be read"))
}

fn run(rt: &HostRuntime) -> anyhow::Result<()> {
    let bytes = load(rt)?;
    let mut mine = Cartridge::blank();
    match mine.read(&bytes) {
        Ok(()) => print_survey(rt, &mine),
        Err(refusal) => {
            println!(rt; "no {} 0", refusal.number())?;
            Ok(())
        }
    }
}

fn main(rt: HostRuntime) -> anyhow::Result<()> {
    run(&rt)
}
