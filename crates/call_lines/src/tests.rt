use crate::calls::LineCall;
use crate::{LONGEST, parse};

#[test]
fn each_form_is_read(rt: HostRuntime) {
    assert_eq!(rt; parse(b"R 0 3 0"), Ok(LineCall::Request(0, 3, 0)));
    assert_eq!(rt; parse(b"C 7"), Ok(LineCall::Confirm(7)));
    assert_eq!(rt; parse(b"W 00012"), Ok(LineCall::Withdraw(12)));
    assert_eq!(rt; parse(b"A 65535"), Ok(LineCall::Arrive(65535)));
    assert_eq!(rt; parse(b"L"), Ok(LineCall::List));
}

#[test]
fn missing_bytes_are_one_past_the_end(rt: HostRuntime) {
    assert_eq!(rt; parse(b""), Err(1));
    assert_eq!(rt; parse(b"C"), Err(2));
    assert_eq!(rt; parse(b"C "), Err(3));
    assert_eq!(rt; parse(b"R 0 3"), Err(6));
}

#[test]
fn the_first_wrong_byte_is_told(rt: HostRuntime) {
    assert_eq!(rt; parse(b"X"), Err(1));
    assert_eq!(rt; parse(b"R  0 3 0"), Err(3));
    assert_eq!(rt; parse(b"C 12x"), Err(5));
    assert_eq!(rt; parse(b"C 65536"), Err(7));
    assert_eq!(rt; parse(b"C 065535"), Err(8));
    assert_eq!(rt; parse(b"L "), Err(2));
    assert_eq!(rt; parse(b"R 1 2 3 "), Err(8));
}

#[test]
fn the_deciding_bytes_decide(rt: HostRuntime) {
    let line = b"R 65535 65535 65535 and more";
    assert_eq!(rt;
        parse(&line[..LONGEST - 1]),
        Ok(LineCall::Request(65535, 65535, 65535))
    );
    assert_eq!(rt; parse(&line[..LONGEST]), Err(20));
    assert_eq!(rt; parse(line), Err(20));
}
