// Big-endian numbers in lent octets (document 01: "All numbers in octets are big-endian").
//
// Where all octets of a number are there they are read in one go, without a test for each; an address where two more follow it.
ghost use Rattle.std.specs.Prelude.{◌≡◌, ◌+◌, ◌<◌, length};
ghost use Rattle.octets.specs.Number.{be16, be32, be64, Octet, Word16, Word32, Word48, Word64};

// The octet at a place.
pub fn octet(s: &[u8], at: usize) -> u8
    ensures { Octet s.now at result }
{
    if at < s.len() { s[at] } else { 0 }
}

// The two octets from a place on.
pub fn word16(s: &[u8], at: usize) -> u16
    ensures { Word16 s.now at result }
{
    if at < s.len() {
        if 1 < s.len() - at {
            return whole16(s, at);
        }
        return octet(s, at) as u16 * 256;
    }
    0
}

// The four octets from a place on.
pub fn word32(s: &[u8], at: usize) -> u32
    ensures { Word32 s.now at result }
{
    if at < s.len() {
        if 3 < s.len() - at {
            return whole32(s, at);
        }
        return word16(s, at) as u32 * 65536 + word16(s, at + 2) as u32;
    }
    0
}

// The six octets from a place on: an address.
pub fn word48(s: &[u8], at: usize) -> u64
    ensures { Word48 s.now at result }
{
    if at < s.len() {
        if 7 < s.len() - at {
            return whole64(s, at) / 65536;
        }
        return word16(s, at) as u64 * 4294967296 + word32(s, at + 2) as u64;
    }
    0
}

// The eight octets from a place on: the front of an entry.
pub fn word64(s: &[u8], at: usize) -> u64
    ensures { Word64 s.now at result }
{
    if at < s.len() {
        if 7 < s.len() - at {
            return whole64(s, at);
        }
        return word32(s, at) as u64 * 4294967296 + word32(s, at + 4) as u64;
    }
    0
}

// Two octets that are there.
fn whole16(s: &[u8], at: usize) -> u16
    requires { at + 1 < length s.now }
    ensures { result ≡ be16 s.now at }
{
    s[at] as u16 * 256 + s[at + 1] as u16
}

// Four octets that are there. As one sum of octets they are one load to the compiler; as a sum of two numbers they are four.
fn whole32(s: &[u8], at: usize) -> u32
    requires { at + 3 < length s.now }
    ensures { result ≡ be32 s.now at }
{
    s[at] as u32 * 16777216 + s[at + 1] as u32 * 65536 + s[at + 2] as u32 * 256 + s[at + 3] as u32
}

// Eight octets that are there.
fn whole64(s: &[u8], at: usize) -> u64
    requires { at + 7 < length s.now }
    ensures { result ≡ be64 s.now at }
{
    whole32(s, at) as u64 * 4294967296 + whole32(s, at + 4) as u64
}
