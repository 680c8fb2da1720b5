// A tape of all nine steps, and buffers of 0xEE, for the tests.
use machine::steps::Step;
use shorts::step;
use std::process::Abort;

pub(crate) fn all_nine() -> &'static [Step] {
    &[
        step!(copy 1 2),
        step!(set 3 0x1122_3344_5566_7788),
        step!(fetch 4 0x0102),
        step!(reserve 256),
        step!(store 31 5),
        step!(back 6 7),
        step!(call 0x0A0B_0C0D 0xF0E0_D0C0),
        step!(pop 256),
        step!(keep 1023 8),
    ]
}

// the tape of these steps
pub const TAPE: &[u8; 44] = b"\x01\x01\x02\
    \x02\x03\x88\x77\x66\x55\x44\x33\x22\x11\
    \x03\x04\x02\x01\
    \x07\x00\x01\
    \x05\x1F\x00\x05\
    \x04\x06\x07\x00\
    \x08\x0D\x0C\x0B\x0A\xC0\xD0\xE0\xF0\
    \x09\x00\x01\
    \x06\xFF\x03\x08";

// The buffer begins with these bytes, and goes on as it was.
pub(crate) fn filled(rt: &impl Abort, buffer: &[u8], bytes: &[u8]) {
    assert_eq!(rt; buffer.get(0..bytes.len()), Some(bytes));
    for byte in buffer.iter().skip(bytes.len()) {
        assert_eq!(rt; *byte, 0xEE);
    }
}
