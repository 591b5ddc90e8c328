// Too little memory, and more than enough. Two segments below a horizon of 10 take 20 bytes. The other cases have
// exactly enough.
use crate::roads::*;
use book::Book;
use grid_book::GridBook;
use leg_book::{LegBook, LegRecord};
use plan::Refusal;
use std::process::Abort;
use std::test::Fail;

// Every leg is barred, and a leg can neither be reserved nor freed.
fn keeps_none<B: Book>(rt: &impl Abort, book: &mut B) {
    assert!(rt; !book.admissible(leg(0, 0)));
    assert!(rt; book.next_entry_held_back(1, 0, 0).is_none());
    assert_eq!(rt; book.reserve(leg(0, 0)).map_err(Refusal::number), Err(21));
    assert_eq!(rt; book.free(leg(0, 0)).map_err(Refusal::number), Err(23));
    assert_eq!(rt; book.sizes().segments, 2);
    assert_eq!(rt; book.total(), 0);
}

fn keeps_a_leg<B: Book>(rt: &impl Abort, book: &mut B) {
    assert_eq!(rt; book.reserve(leg(1, 7)).map_err(Refusal::number), Ok(()));
    assert_eq!(rt; book.standing(leg(1, 7)), 1);
    assert_eq!(rt; book.total(), 1);
}

#[test]
fn memory_that_suffices(rt: HostRuntime) -> Result<(), Fail> {
    let plan = plan_with(&rt, rt.alloc(), 1, 2)?;
    assert_eq!(rt; grid_book::grid_bytes(&plan), 20);
    assert!(rt; !grid_book::memory_suffices(&plan, 19));
    assert!(rt; grid_book::memory_suffices(&plan, 20));
    assert!(rt; !leg_book::memory_suffices(1023));
    assert!(rt; leg_book::memory_suffices(1024));
    Ok(())
}

#[test]
fn too_little(rt: HostRuntime) -> Result<(), Fail> {
    let plan = plan_with(&rt, rt.alloc(), 1, 2)?;
    let mut bytes = [9u8; 19];
    let mut records = [LegRecord::unused(); 1023];
    keeps_none(&rt, &mut GridBook::new(&plan, &mut bytes));
    keeps_none(&rt, &mut LegBook::new(&plan, &mut records));
    assert_eq!(rt; bytes, [9u8; 19]);
    Ok(())
}

// The byte of the second segment's entry 7 has the number 17. Past the first 20 bytes nothing is written.
#[test]
fn more_than_enough(rt: HostRuntime) -> Result<(), Fail> {
    let plan = plan_with(&rt, rt.alloc(), 1, 2)?;
    let mut bytes = [9u8; 22];
    let mut records = [LegRecord::unused(); 1025];
    keeps_a_leg(&rt, &mut GridBook::new(&plan, &mut bytes));
    keeps_a_leg(&rt, &mut LegBook::new(&plan, &mut records));
    let mut written = [0u8; 22];
    written[17] = 1;
    written[20] = 9;
    written[21] = 9;
    assert_eq!(rt; bytes, written);
    Ok(())
}
