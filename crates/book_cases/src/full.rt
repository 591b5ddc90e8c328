// A book with 1,024 legs, and a critical count of 255. Legs that enter at 0, 3 and 6 share no slot, so a segment takes
// three times 255 of them.
use crate::roads::*;
use book::Book;
use grid_book::GridBook;
use leg_book::{LegBook, LegRecord};
use plan::Refusal;
use std::process::Abort;
use std::test::Fail;

fn reserve_times<B: Book>(rt: &impl Abort, book: &mut B, segment: u16, entry: u16, times: u16) {
    for _ in 0..times {
        assert_eq!(rt;
            book.reserve(leg(segment, entry)).map_err(Refusal::number),
            Ok(())
        );
    }
    assert_eq!(rt; book.standing(leg(segment, entry)), times);
}

// 1,024 is four times 255 and 4 more.
fn fill<B: Book>(rt: &impl Abort, book: &mut B) {
    reserve_times(rt, book, 0, 0, 255);
    assert_eq!(rt; book.reserve(leg(0, 0)).map_err(Refusal::number), Err(21));
    reserve_times(rt, book, 0, 3, 255);
    reserve_times(rt, book, 0, 6, 255);
    reserve_times(rt, book, 1, 0, 255);
    reserve_times(rt, book, 1, 3, 4);
    assert_eq!(rt; book.total(), 1024);
    assert_eq!(rt; book.reserve(leg(1, 3)).map_err(Refusal::number), Err(22));
    assert_eq!(rt; book.free(leg(0, 0)).map_err(Refusal::number), Ok(()));
    assert_eq!(rt; book.standing(leg(0, 0)), 254);
    assert_eq!(rt; book.reserve(leg(1, 3)).map_err(Refusal::number), Ok(()));
    assert_eq!(rt; book.reserve(leg(0, 0)).map_err(Refusal::number), Err(22));
}

#[test]
fn both_fill_up(rt: HostRuntime) -> Result<(), Fail> {
    let plan = plan_with(&rt, rt.alloc(), 255, 255)?;
    let mut bytes = [0u8; 20];
    let mut records = [LegRecord::unused(); 1024];
    fill(&rt, &mut GridBook::new(&plan, &mut bytes));
    fill(&rt, &mut LegBook::new(&plan, &mut records));
    Ok(())
}
