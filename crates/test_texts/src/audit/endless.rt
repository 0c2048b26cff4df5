//! Texts without an end, each of which is judged after a few bytes.
use crate::audit::judges;
use cell_audit::AuditError;
use std::io;
use std::io::Read;

// What a text begins with, and the record that can't be read where one byte goes on without an end from there.
const BEGINS: [(&[u8], u32); 5] = [
    (b"", 0),
    (b"profile,1,,", 0),
    (b"profile,1,,\n", 1),
    (b"profile,2,,\n", 1),
    (b"\n\nprofile,1,,\n\nlamp,feed,green,\n\n", 2),
];

#[test]
fn judges_a_line_without_an_end(rt: HostRuntime) {
    for &byte in &[b',', b'a', b'0', 0, 0xFF] {
        for &(begin, place) in &BEGINS {
            let endless = begin.chain(io::repeat(byte));
            let wanted = Err(AuditError::Unreadable(place));
            judges(&rt, rt.alloc(), endless, wanted, ("endless", begin.len()));
        }
    }
}
