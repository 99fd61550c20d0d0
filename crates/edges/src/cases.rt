// The cases, each with its title.
use Case::{Frame, Hear, Insert, Six, Ticks, Trailer};
use encoding::Encoding;
use encoding::Encoding::{Hsr, Prp, RTag};

#[derive(Clone, Copy)]
pub enum Case {
    // numbers to a fresh state, by its rule (0 vector, 1 match) and history length
    Hear(u8, u16, &'static [u16]),
    // milliseconds, at ticks per second
    Ticks(u32, u16),
    // octets behind the addresses of a frame, and its length
    Frame(&'static [u8], usize),
    // the last octets of a payload, and its length
    Trailer(&'static [u8], u8),
    // an encoding, a path or LAN id, and the frame's length
    Insert(Encoding, u8, usize),
    Six(Encoding),
}

pub const CASES: [(&str, Case); 48] = [
    ("fresh, 10", Hear(0, 4, &[10])),
    ("H 4, 10 13", Hear(0, 4, &[10, 13])),
    ("H 4, 10 14", Hear(0, 4, &[10, 14])),
    ("H 4, 10 13 11", Hear(0, 4, &[10, 13, 11])),
    ("H 4, 10 13 10", Hear(0, 4, &[10, 13, 10])),
    ("H 4, 10 13 9", Hear(0, 4, &[10, 13, 9])),
    ("65535 0", Hear(0, 4, &[65535, 0])),
    ("H 64, 0 65473", Hear(0, 64, &[0, 65473])),
    ("H 64, 0 65472", Hear(0, 64, &[0, 65472])),
    ("H 64, 0 32768", Hear(0, 64, &[0, 32768])),
    ("H 512, 0 65025", Hear(0, 512, &[0, 65025])),
    ("H 512, 0 65024", Hear(0, 512, &[0, 65024])),
    ("100 ms at 100", Ticks(100, 100)),
    ("1 ms at 100", Ticks(1, 100)),
    ("11 ms at 100", Ticks(11, 100)),
    ("match 5 6 5", Hear(1, 4, &[5, 6, 5])),
    ("match 5 5", Hear(1, 4, &[5, 5])),
    ("number 258", Six(RTag)),
    ("13 octets", Frame(b"", 13)),
    ("14 octets", Frame(b"", 14)),
    ("1522 octets", Frame(b"", 1522)),
    ("1523 octets", Frame(b"", 1523)),
    ("C-TAG in 17", Frame(b"\x81\x00", 17)),
    ("C-TAG in 18", Frame(b"\x81\x00", 18)),
    ("R-TAG in 19", Frame(b"\xf1\xc1", 19)),
    ("R-TAG in 20", Frame(b"\xf1\xc1", 20)),
    ("both in 23", Frame(b"\x81\x00\x00\x00\xf1\xc1", 23)),
    ("both in 24", Frame(b"\x81\x00\x00\x00\xf1\xc1", 24)),
    ("insertion into 1516", Insert(RTag, 0, 1516)),
    ("insertion into 1517", Insert(RTag, 0, 1517)),
    ("PRP insertion into 1516", Insert(Prp, 0, 1516)),
    ("PRP insertion into 1517", Insert(Prp, 0, 1517)),
    // document 02, CR 5: the same edges at an HSR tag
    ("HSR, number 258, path id 10", Six(Hsr)),
    ("PRP, number 258, LAN id 10", Six(Prp)),
    ("HSR tag in 19", Frame(b"\x89\x2f", 19)),
    ("HSR tag in 20", Frame(b"\x89\x2f", 20)),
    (
        "both with HSR in 23",
        Frame(b"\x81\x00\x00\x00\x89\x2f", 23),
    ),
    (
        "both with HSR in 24",
        Frame(b"\x81\x00\x00\x00\x89\x2f", 24),
    ),
    (
        "HSR tag behind R-TAG",
        Frame(b"\xf1\xc1\x00\x00\x00\x00\x89\x2f", 64),
    ),
    (
        "R-TAG behind HSR tag",
        Frame(b"\x89\x2f\x00\x00\x00\x00\xf1\xc1", 64),
    ),
    (
        "trailer in a payload of 5",
        Trailer(b"\x01\x02\xa0\x05\x88\xfb", 5),
    ),
    (
        "trailer in a payload of 6",
        Trailer(b"\x01\x02\xa0\x06\x88\xfb", 6),
    ),
    (
        "size 7 in a payload of 6",
        Trailer(b"\x01\x02\xa0\x07\x88\xfb", 6),
    ),
    ("suffix 88FA", Trailer(b"\x01\x02\xa0\x06\x88\xfa", 6)),
    ("path id 15", Insert(Hsr, 15, 64)),
    ("path id 16", Insert(Hsr, 16, 64)),
    ("LAN id 15", Insert(Prp, 15, 64)),
    ("LAN id 16", Insert(Prp, 16, 64)),
];
