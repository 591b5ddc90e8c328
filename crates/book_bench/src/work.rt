// What is timed.
use crate::plain::Plain;
use anyhow::anyhow;
use book::{Book, Leg};
use search::next_entry;
use std::time::Instant;

// How many of the next entries from every eighth slot on there are.
fn found<B: Book>(book: &B, rounds: u16) -> usize {
    let mut count = 0usize;
    for _ in 0..rounds {
        let found = (0..512u16)
            .step_by(8)
            .filter(|from| next_entry(book, 0, *from).is_some())
            .count();
        count = count.saturating_add(found);
    }
    count
}

fn timed<B: Book>(rt: &HostRuntime, way: &str, book: &B, rounds: u16) -> anyhow::Result<()> {
    let start = Instant::now(rt)?;
    let count = found(book, rounds);
    let spent = start.elapsed(rt)?;
    println!(rt; "{}: {} found", way, count)?;
    eprintln!(rt; "{}: {} µs", way, spent.as_micros())?;
    Ok(())
}

// The gaps between the four legs are a slot too short, so that none is found and each entry fails late.
pub fn both_ways<B: Book + Drop>(rt: &HostRuntime, name: &str, book: B) -> anyhow::Result<()> {
    let mut book = book;
    println!(rt; "{}, no leg standing", name)?;
    timed(rt, "  its own way", &book, 20)?;
    for entry in [63u16, 190, 317, 444] {
        let Ok(()) = book.reserve(Leg { segment: 0, entry }) else {
            return Err(anyhow!("not admissible"));
        };
    }
    println!(rt; "{}, four legs standing", name)?;
    timed(rt, "  its own way", &book, 20)?;
    let plain = Plain { below: book };
    timed(rt, "  entry by entry", &plain, 20)
}
