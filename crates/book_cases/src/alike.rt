// Both books, and piles of layers over them, answer alike after each call of a list of calls. The first segment has
// critical count 1 and the second 2, and a leg takes 3 slots of 10: the last entry is 7.
use crate::roads::*;
use book::{Book, Leg};
use grid_book::GridBook;
use layers::{ClosureLayer, HoldBackLayer};
use leg_book::{LegBook, LegRecord};
use plan::{Plan, Refusal};
use std::process::Abort;
use std::test::Fail;

// Each question for each leg of three segments, one of which is unknown, and of twelve entries, two past the horizon. The
// loops make the legs.
fn same_answers<A: Book, B: Book>(rt: &impl Abort, one: &A, other: &B) {
    assert_eq!(rt; one.total(), other.total());
    for segment in 0..3u16 {
        for entry in 0..12u16 {
            let leg = leg(segment, entry);
            assert_eq!(rt; one.standing(leg), other.standing(leg));
            assert_eq!(rt; one.admissible(leg), other.admissible(leg));
            assert_eq!(rt; one.load(segment, entry), other.load(segment, entry));
            assert_eq!(rt;
                one.admissible_held_back(leg, 1),
                other.admissible_held_back(leg, 1)
            );
            assert!(rt;
                one.next_entry_held_back(segment, entry, 0)
                    == other.next_entry_held_back(segment, entry, 0)
            );
        }
    }
}

fn reserve_both<A: Book, B: Book>(rt: &impl Abort, one: &mut A, other: &mut B, leg: Leg) {
    assert_eq!(rt; one.reserve(leg), other.reserve(leg));
    same_answers(rt, one, other);
}

fn free_both<A: Book, B: Book>(rt: &impl Abort, one: &mut A, other: &mut B, leg: Leg) {
    assert_eq!(rt; one.free(leg), other.free(leg));
    same_answers(rt, one, other);
}

fn run<A: Book, B: Book>(rt: &impl Abort, one: &mut A, other: &mut B) {
    same_answers(rt, one, other);
    for entry in 0..9u16 {
        reserve_both(rt, one, other, leg(1, entry));
    }
    for segment in 0..3u16 {
        reserve_both(rt, one, other, leg(segment, 7));
        reserve_both(rt, one, other, leg(segment, 0));
        free_both(rt, one, other, leg(segment, 3));
        free_both(rt, one, other, leg(segment, 7));
    }
}

#[test]
fn books_answer_alike(rt: HostRuntime) -> Result<(), Fail> {
    let plan = plan_with(&rt, rt.alloc(), 1, 2)?;
    let mut bytes = [7u8; 20];
    let mut records = [LegRecord::unused(); 1024];
    let mut grid = GridBook::new(&plan, &mut bytes);
    let mut legs = LegBook::new(&plan, &mut records);
    run(&rt, &mut grid, &mut legs);
    Ok(())
}

// A pile over lent memory is made where the book below is a type parameter: the borrow checker covers no type argument
// that holds a `&mut` and a struct with a ghost field, as `HoldBackLayer<GridBook<'_>>` in the test itself would.
fn run_piles<A: Book + Drop, B: Book + Drop>(rt: &impl Abort, one: A, other: B, plan: &Plan) {
    let mut closed = ClosureLayer::new(HoldBackLayer::new(one, 1), plan);
    let mut lowered = HoldBackLayer::new(ClosureLayer::new(other, plan), 1);
    run(rt, &mut closed, &mut lowered);
}

#[test]
fn piles_answer_alike(rt: HostRuntime) -> Result<(), Fail> {
    let plan = plan_with(&rt, rt.alloc(), 2, 3)?;
    let mut bytes = [7u8; 20];
    let mut records = [LegRecord::unused(); 1024];
    let grid = GridBook::new(&plan, &mut bytes);
    let legs = LegBook::new(&plan, &mut records);
    run_piles(&rt, grid, legs, &plan);
    Ok(())
}

// The leg of the first segment holds the slots 3 to 5, and so rules out the entries 1 to 5. Those of the second, which
// enter at 3 and 4, fill the slots 4 and 5, and so rule out the entries 2 to 5.
fn worked_answers<B: Book>(rt: &impl Abort, book: &mut B) {
    assert_eq!(rt; book.reserve(leg(0, 8)).map_err(Refusal::number), Err(21));
    assert_eq!(rt; book.reserve(leg(0, 3)).map_err(Refusal::number), Ok(()));
    assert_eq!(rt; book.reserve(leg(1, 3)).map_err(Refusal::number), Ok(()));
    assert_eq!(rt; book.reserve(leg(1, 4)).map_err(Refusal::number), Ok(()));
    assert_eq!(rt; book.reserve(leg(1, 3)).map_err(Refusal::number), Err(21));
    for entry in 0..10u16 {
        assert_eq!(rt;
            book.admissible(leg(0, entry)),
            entry == 0 || entry >= 6 && entry <= 7
        );
    }
    assert_eq!(rt; book.load(1, 4), 2);
    assert_eq!(rt; book.load(1, 6), 1);
    assert!(rt; book.next_entry_held_back(1, 2, 0) == Some(6));
    assert!(rt; book.next_entry_held_back(1, 2, 1) == Some(7));
    assert!(rt; book.next_entry_held_back(1, 0, 2).is_none());
    assert_eq!(rt; book.free(leg(1, 3)).map_err(Refusal::number), Ok(()));
    assert_eq!(rt; book.free(leg(1, 3)).map_err(Refusal::number), Err(23));
    assert_eq!(rt; book.total(), 2);
}

#[test]
fn worked_answers_of_both(rt: HostRuntime) -> Result<(), Fail> {
    let plan = plan_with(&rt, rt.alloc(), 1, 2)?;
    let mut bytes = [0u8; 20];
    let mut records = [LegRecord::unused(); 1024];
    worked_answers(&rt, &mut GridBook::new(&plan, &mut bytes));
    worked_answers(&rt, &mut LegBook::new(&plan, &mut records));
    Ok(())
}
