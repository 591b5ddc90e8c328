// Writing a sheet.
ghost use Rattle.std.specs.Prelude.{◌≡◌, ◌+◌, ◌≤◌, length};
ghost use Rattle.plan.specs.Content.{content};
ghost use Rattle.sheet.specs.Format.{head_bytes};
ghost use Rattle.sheet.specs.Records.{written_all};
ghost use Rattle.sheet.specs.Writes.{Put, Writes};

use crate::format::{
    CLOSURE_SIZE, FORMAT, SECTIONS, SEGMENT_SIZE, SEGMENTS_START, SETTINGS_SIZE, SETTINGS_START,
};
use crate::records::Record;
use plan::{Fault, Plan, Refusal};

// Writes bytes from a place on, and answers the place behind them. A cursor would be no plainer: its two fields are the two
// arguments here.
fn put(memory: &mut [u8], place: usize, bytes: &[u8]) -> usize
    requires { place + length bytes.now ≤ length memory.old }
    ensures { Put memory.old place bytes.now memory.new result }
{
    let end = place + bytes.len();
    memory[place..end].copy_from_slice(bytes);
    end
}

// Writes records one after the other, and answers the place behind them.
fn put_all<const SIZE: usize, R: Record<SIZE>>(
    memory: &mut [u8],
    start: usize,
    records: &[R],
) -> usize
    requires { start + length (written_all R.layout records.now) ≤ length memory.old }
    ensures { Put memory.old start (written_all R.layout records.now) memory.new result }
{
    let mut place = start;
    for record in records {
        place = put(memory, place, &record.bytes());
    }
    place
}

fn put_head(memory: &mut [u8], segments: u16, closures: u16) -> usize
    requires { (26 ≤ length memory.old) × ((segments ≤ 128) × (closures ≤ 16)) }
    ensures { Put memory.old 0 (head_bytes segments closures) memory.new result }
{
    let segments_extent = SEGMENT_SIZE * segments as u32;
    let closures_extent = CLOSURE_SIZE * closures as u32;
    let pairs = [
        SETTINGS_START,
        SETTINGS_SIZE,
        SEGMENTS_START,
        segments_extent,
        SEGMENTS_START + segments_extent,
        closures_extent,
    ];
    let place = put(memory, 0, &[FORMAT, SECTIONS]);
    put_all(memory, place, &pairs)
}

// Writes the sheet of a plan at the start of the memory and answers how many bytes it has. Where the memory is shorter,
// nothing is written.
pub fn write(plan: &Plan, memory: &mut [u8]) -> Result<usize, Fault>
    ensures { Writes (content plan.now) memory.old result memory.new }
{
    let segments = plan.segment_count();
    let closures = plan.closure_count();
    let size = SEGMENTS_START + SEGMENT_SIZE * segments as u32 + CLOSURE_SIZE * closures as u32;
    if memory.len() < size as usize {
        return Err(Refusal::MemoryTooShort.into());
    }
    let settings_start = put_head(memory, segments, closures);
    let segments_start = put(memory, settings_start, &plan.settings().bytes());
    let closures_start = put_all(memory, segments_start, plan.segments());
    let end = put_all(memory, closures_start, plan.closures());
    Ok(end)
}
