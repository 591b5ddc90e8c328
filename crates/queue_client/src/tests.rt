use crate::event::{Change, Event};
use crate::label::Label;
use crate::sort;
use queue::{Full, Queue};

fn label(slot: u16, junction: u16) -> Label {
    Label { slot, junction }
}

fn event(slot: u16, change: Change, number: u16) -> Event {
    Event {
        slot,
        change,
        number,
    }
}

#[test]
fn labels_ascend_by_slot_then_junction(rt: HostRuntime) {
    let mut items = [
        label(5, 1),
        label(2, 9),
        label(2, 3),
        label(5, 1),
        label(0, 4),
    ];
    let mut scratch = [label(8, 8); 6];
    assert_eq!(rt; sort(&mut items, &mut scratch), Ok(()));
    assert_eq!(rt; scratch[5], label(8, 8));
    assert_eq!(rt;
        items,
        [
            label(0, 4),
            label(2, 3),
            label(2, 9),
            label(5, 1),
            label(5, 1),
        ]
    );
}

#[test]
fn ends_come_before_departures_of_one_slot(rt: HostRuntime) {
    let mut items = [
        event(4, Change::Departure, 1),
        event(4, Change::End, 2),
        event(3, Change::Departure, 3),
        event(4, Change::End, 0),
    ];
    let mut scratch = items;
    assert_eq!(rt; sort(&mut items, &mut scratch), Ok(()));
    assert_eq!(rt; items[0], event(3, Change::Departure, 3));
    assert_eq!(rt; items[1], event(4, Change::End, 0));
    assert_eq!(rt; items[2], event(4, Change::End, 2));
    assert_eq!(rt; items[3], event(4, Change::Departure, 1));
}

#[test]
fn a_short_scratch_leaves_all(rt: HostRuntime) {
    let mut items = [label(5, 1), label(2, 9)];
    let mut scratch = [label(7, 7)];
    assert_eq!(rt; sort(&mut items, &mut scratch), Err(Full));
    assert_eq!(rt; items, [label(5, 1), label(2, 9)]);
    assert_eq!(rt; scratch, [label(7, 7)]);
}

#[test]
fn full_at_put_and_empty_at_take_stay_as_they_are(rt: HostRuntime) {
    let mut slots = [label(0, 0), label(0, 0), label(8, 8)];
    let mut queue = Queue::new(&mut slots[0..2]);
    assert_eq!(rt; queue.put(label(4, 1)), Ok(()));
    assert_eq!(rt; queue.put(label(2, 7)), Ok(()));
    assert_eq!(rt; queue.put(label(1, 1)), Err(Full));
    assert_eq!(rt; queue.len(), 2);
    assert_eq!(rt; queue.take(), Some(label(2, 7)));
    assert_eq!(rt; queue.take(), Some(label(4, 1)));
    assert_eq!(rt; queue.take(), None);
    assert!(rt; queue.is_empty());
    assert_eq!(rt; queue.room(), 2);
    assert_eq!(rt; slots, [label(4, 1), label(2, 7), label(8, 8)]);
}

#[test]
fn one_place_and_none(rt: HostRuntime) {
    let mut slots = [label(6, 6)];
    let mut queue = Queue::new(&mut slots);
    assert_eq!(rt; queue.put(label(3, 2)), Ok(()));
    assert!(rt; !queue.is_empty());
    assert_eq!(rt; queue.take(), Some(label(3, 2)));
    assert_eq!(rt; queue.take(), None);
    let mut none = Queue::new(&mut slots[0..0]);
    assert_eq!(rt; none.put(label(3, 2)), Err(Full));
    assert_eq!(rt; none.take(), None);
    assert_eq!(rt; none.room(), 0);
}
