// Each fault with its number, section and place, in the example sheet with some bytes changed.
use crate::example::SHEET;
use std::test::Fail;

// The bytes that are changed, each a place and a value, and what the check is to say.
struct Case {
    changes: &'static [(usize, u8)],
    number: u8,
    section: u8,
    place: u32,
}

const CASES: [Case; 37] = [
    // an unknown format
    Case {
        changes: &[(0, 2)],
        number: 2,
        section: 0,
        place: 0,
    },
    Case {
        changes: &[(0, 0)],
        number: 2,
        section: 0,
        place: 0,
    },
    // another number of sections
    Case {
        changes: &[(1, 2)],
        number: 2,
        section: 0,
        place: 1,
    },
    // the settings do not begin behind the head
    Case {
        changes: &[(5, 27)],
        number: 3,
        section: 0,
        place: 2,
    },
    Case {
        changes: &[(2, 255)],
        number: 3,
        section: 0,
        place: 2,
    },
    // the segments do not begin behind the settings
    Case {
        changes: &[(13, 34)],
        number: 3,
        section: 0,
        place: 10,
    },
    Case {
        changes: &[(9, 8)],
        number: 3,
        section: 0,
        place: 10,
    },
    Case {
        changes: &[(6, 255)],
        number: 3,
        section: 0,
        place: 10,
    },
    // the closures do not begin behind the segments
    Case {
        changes: &[(21, 58)],
        number: 3,
        section: 0,
        place: 18,
    },
    Case {
        changes: &[(17, 30)],
        number: 3,
        section: 0,
        place: 18,
    },
    // the closures do not end the sheet
    Case {
        changes: &[(25, 10)],
        number: 3,
        section: 0,
        place: 18,
    },
    Case {
        changes: &[(25, 0)],
        number: 3,
        section: 0,
        place: 18,
    },
    Case {
        changes: &[(22, 255)],
        number: 3,
        section: 0,
        place: 18,
    },
    // settings of another length
    Case {
        changes: &[(9, 6), (13, 32), (17, 25)],
        number: 4,
        section: 0,
        place: 2,
    },
    // no whole records of segments
    Case {
        changes: &[(17, 23), (21, 56), (25, 6)],
        number: 4,
        section: 0,
        place: 10,
    },
    // no whole records of closures
    Case {
        changes: &[(17, 18), (21, 51), (25, 11)],
        number: 4,
        section: 0,
        place: 18,
    },
    // slot length 0
    Case {
        changes: &[(26, 0), (27, 0)],
        number: 5,
        section: 1,
        place: 26,
    },
    // horizon 0 and 513
    Case {
        changes: &[(31, 0)],
        number: 5,
        section: 1,
        place: 30,
    },
    Case {
        changes: &[(30, 2), (31, 1)],
        number: 5,
        section: 1,
        place: 30,
    },
    // 1 and 65 junctions
    Case {
        changes: &[(32, 1)],
        number: 5,
        section: 1,
        place: 32,
    },
    Case {
        changes: &[(32, 65)],
        number: 5,
        section: 1,
        place: 32,
    },
    // of two settings the first
    Case {
        changes: &[(26, 0), (27, 0), (31, 0), (32, 1)],
        number: 5,
        section: 1,
        place: 26,
    },
    // the first segment: an unknown start and end, a loop, no length, no lane, an unknown class
    Case {
        changes: &[(33, 4)],
        number: 7,
        section: 2,
        place: 33,
    },
    Case {
        changes: &[(34, 4)],
        number: 7,
        section: 2,
        place: 33,
    },
    Case {
        changes: &[(34, 0)],
        number: 7,
        section: 2,
        place: 33,
    },
    Case {
        changes: &[(36, 0)],
        number: 7,
        section: 2,
        place: 33,
    },
    Case {
        changes: &[(37, 0)],
        number: 7,
        section: 2,
        place: 33,
    },
    Case {
        changes: &[(38, 16)],
        number: 7,
        section: 2,
        place: 33,
    },
    // the last segment
    Case {
        changes: &[(51, 4)],
        number: 7,
        section: 2,
        place: 51,
    },
    Case {
        changes: &[(56, 16)],
        number: 7,
        section: 2,
        place: 51,
    },
    // 65 travel slots, in the first and in the last segment
    Case {
        changes: &[(35, 2), (36, 133)],
        number: 8,
        section: 2,
        place: 33,
    },
    Case {
        changes: &[(53, 2), (54, 133)],
        number: 8,
        section: 2,
        place: 51,
    },
    // of two segments the first, of one segment 7 before 8
    Case {
        changes: &[(35, 255), (56, 16)],
        number: 8,
        section: 2,
        place: 33,
    },
    Case {
        changes: &[(35, 255), (38, 16)],
        number: 7,
        section: 2,
        place: 33,
    },
    // the closure: an unknown segment, no slot, past the horizon
    Case {
        changes: &[(57, 4)],
        number: 9,
        section: 3,
        place: 57,
    },
    Case {
        changes: &[(59, 17)],
        number: 9,
        section: 3,
        place: 57,
    },
    Case {
        changes: &[(61, 21)],
        number: 9,
        section: 3,
        place: 57,
    },
];

fn changed(changes: &[(usize, u8)]) -> [u8; 62] {
    let mut bytes = SHEET;
    for (place, value) in changes {
        if *place < 62 {
            bytes[*place] = *value;
        }
    }
    bytes
}

#[test]
fn changed_bytes(rt: HostRuntime) -> Result<(), Fail> {
    assert!(rt; sheet::check(&SHEET).is_none(), "the example has no fault");
    for case in &CASES {
        let bytes = changed(case.changes);
        let Some(fault) = sheet::check(&bytes) else {
            return Err(Fail::new("no fault"));
        };
        assert_eq!(rt; fault.refusal.number(), case.number);
        assert_eq!(rt; fault.section.number(), case.section);
        assert_eq!(rt; fault.place, case.place);
    }
    Ok(())
}

// 64 travel slots are allowed: 644 m at 1000 cm/s and 1000 ms.
#[test]
fn longest_travel(rt: HostRuntime) {
    let bytes = changed(&[(35, 2), (36, 132)]);
    assert!(rt; sheet::check(&bytes).is_none());
}

// Every front of the example that is shorter than the head, and every other front.
#[test]
fn fronts(rt: HostRuntime) -> Result<(), Fail> {
    for length in 0..SHEET.len() {
        let Some(fault) = sheet::check(&SHEET[0..length]) else {
            return Err(Fail::new("no fault"));
        };
        assert_eq!(rt; fault.refusal.number(), if length < 26 { 1 } else { 3 });
        assert_eq!(rt; fault.section.number(), 0);
        assert_eq!(rt; fault.place, if length < 26 { 0 } else { 18 });
    }
    Ok(())
}

// 33 + (2^32 - 7) is 26 in 32 bits, and 26 + 36 is 62: a sum that wraps would take the sections for well placed.
#[test]
fn sums_do_not_wrap(rt: HostRuntime) -> Result<(), Fail> {
    let mut bytes = SHEET;
    bytes[14] = 255;
    bytes[15] = 255;
    bytes[16] = 255;
    bytes[17] = 249;
    bytes[21] = 26;
    bytes[25] = 36;
    let Some(fault) = sheet::check(&bytes) else {
        return Err(Fail::new("no fault"));
    };
    assert_eq!(rt; fault.refusal.number(), 3);
    assert_eq!(rt; fault.place, 18);
    Ok(())
}

// What C is answered: the number times 2^32 and the place.
#[test]
fn exported(rt: HostRuntime) {
    assert_eq!(rt; sheet::export::road_sheet_check(&SHEET), 0);
    let bytes = changed(&[(57, 4)]);
    assert_eq!(rt; sheet::export::road_sheet_check(&bytes), 38_654_705_721);
}
