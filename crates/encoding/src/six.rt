// The six octets of an encoding: where they stand, and what they are.
ghost use Rattle.std.specs.Prelude.{◌≡◌};
ghost use Rattle.encoding.specs.Encodings.{InFront, Stands, Makes, Marks, id_word, id_and_size};

use crate::Encoding;

// Whether they stand at the tag's place; else they are the last six of the frame.
#[tactic(auto, unfolding(crate::specs::Encodings::in_front))]
pub fn in_front(encoding: Encoding) -> bool
    ensures { InFront encoding result }
{
    match encoding {
        Encoding::RTag | Encoding::Hsr => true,
        Encoding::Prp => false,
    }
}

// Where they stand, of the tag's place and the place of the last six.
#[tactic(auto, unfolding(crate::specs::Encodings::place))]
pub fn place(encoding: Encoding, front: usize, back: usize) -> usize
    ensures { Stands encoding front back result }
{
    if in_front(encoding) { front } else { back }
}

// What they are: a tag's words, or those of the trailer the other way round.
#[tactic(auto, unfolding(crate::specs::Encodings::words, crate::specs::Encodings::as_octets, crate::specs::Encodings::six))]
pub fn octets_of(encoding: Encoding, number: u16, path: u8, size: u16) -> [u8; 6]
    ensures { Makes encoding number path size result }
{
    let [m0, m1] = mark(encoding).to_be_bytes();
    let [w0, w1] = id_word(encoding, path, size).to_be_bytes();
    let [n0, n1] = number.to_be_bytes();
    if in_front(encoding) {
        [m0, m1, w0, w1, n0, n1]
    } else {
        [n0, n1, w0, w1, m0, m1]
    }
}

// The word that tells the encoding: a tag's type, or the trailer's suffix.
#[tactic(auto, unfolding(crate::specs::Encodings::mark))]
pub fn mark(encoding: Encoding) -> u16
    ensures { Marks encoding result }
{
    match encoding {
        Encoding::RTag => 0xF1C1,
        Encoding::Hsr => 0x892F,
        Encoding::Prp => 0x88FB,
    }
}

// The word that the path or LAN id and the size stand in.
#[tactic(auto, unfolding(crate::specs::Encodings::id_word))]
fn id_word(encoding: Encoding, path: u8, size: u16) -> u16
    ensures { result ≡ id_word encoding path size }
{
    match encoding {
        Encoding::RTag => 0,
        Encoding::Hsr | Encoding::Prp => id_and_size(path, size),
    }
}

#[tactic(auto, unfolding(crate::specs::Encodings::id_and_size))]
fn id_and_size(path: u8, size: u16) -> u16
    ensures { result ≡ id_and_size path size }
{
    (path % 16) as u16 * 4096 + size % 4096
}
