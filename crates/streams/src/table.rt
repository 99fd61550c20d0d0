// "Stream tables" (document 01): the whole table is checked first, in order; then the frame; then the first match gives the handle.
//
// It is one walk all the same: each entry is passed once, up to the first match checked and compared (`seek`), and behind it checked
// (`checked`).
ghost use Rattle.std.specs.Prelude.{◌≡◌, ◌+◌, ◌^◌, ◌<◌, ◌≤◌, length, drop};
ghost use Rattle.octets.specs.Checks.{answered};
ghost use Rattle.streams.specs.Table.{ChecksTable, LooksUp};
ghost use Rattle.streams.specs.Walk.{start, behind, entry_verdict, verdict_from, walked, matched_at, packet_at, There, Seeks, front_at};

use frame::Header;
use octets::Refusal;

// A place on a walk: that of an entry, and how many stand before it.
#[derive(Clone, Copy)]
struct Place {
    at: usize,
    passed: usize,
}

impl Place {
    // Behind the entry there, with a body of that length.
    fn behind(self, body: usize) -> Place
        requires { (self.at + (1 + body) < 2 ^ 64) × (self.passed < 256) }
        ensures { result ≡ behind self body }
    {
        Place {
            at: self.at + (1 + body),
            passed: self.passed + 1,
        }
    }
}

// Where a search for the frame's address, tag and VLAN stops.
#[derive(Clone, Copy)]
enum Sought {
    // At an entry of kind 1 or 2 that has them: it matches.
    Match(Place),
    // At one of kind 4 that has them: it asks for a packet too.
    Packet(Place),
    // At the end, or a fault.
    Rest(Place),
}

// "At most 256 entries".
const MOST: usize = 256;

// 2 to the 56: in a front the kind stands above seven octets.
const KIND: u64 = 72057594037927936;

// Where a walk begins.
const START: Place = Place { at: 0, passed: 0 };

// The table's verdict alone. An empty table is good.
#[tactic(auto, using(crate::proofs::Answered::from_the_start))]
pub fn check(table: &[u8]) -> Result<(), Refusal>
    ensures { ChecksTable table.now result }
{
    checked(table, START)
}

// The stream that a frame belongs to, by the handle of the first entry that matches, or that there is none.
#[tactic(auto, using(crate::proofs::Answered::walk_answers, crate::proofs::Answered::frame_refused, frame::proofs::Accepted::starts_within))]
pub fn lookup(table: &[u8], frame: &[u8]) -> Result<Option<u16>, Refusal>
    ensures { LooksUp table.now frame.now result }
{
    match frame::read(frame) {
        Ok(h) => walk(table, frame, h),
        Err(no) => check(table).and(Err(no)),
    }
}

// The stream of a frame with this header.
fn walk(table: &[u8], frame: &[u8], h: Header) -> Result<Option<u16>, Refusal>
    requires { h.payload ≤ length frame.now }
    ensures { result ≡ walked table.now h (drop h.payload frame.now) start }
{
    match seek(table, h, START) {
        Sought::Match(place) => matched(table, place, 11),
        Sought::Packet(place) => among_packets(table, frame, h, place),
        Sought::Rest(place) => settled(table, place, None),
    }
}

// The walk from an entry on that asks for a packet. It is a loop of its own: so a walk over kinds 1 and 2 makes no packet ready, and one
// over kind 4 reads it once.
fn among_packets(table: &[u8], frame: &[u8], h: Header, from: Place) -> Result<Option<u16>, Refusal>
    requires { (h.payload ≤ length frame.now) × There table.now from 25 }
    ensures { result ≡ packet_at table.now h (drop h.payload frame.now) from }
{
    let payload = &frame[h.payload..];
    let packet = entry::packet_of(h.kind, payload);
    let mut place = from;
    loop {
        if entry::ip_allows(&table[place.at..place.at + 26], packet, payload) {
            return matched(table, place, 25);
        }
        match seek(table, h, place.behind(25)) {
            Sought::Match(next) => return matched(table, next, 11),
            Sought::Packet(next) => place = next,
            Sought::Rest(next) => return settled(table, next, None),
        }
    }
}

// The answer at an entry that matches: the handle is the last of its body.
#[tactic(auto, unfolding(crate::specs::Walk::matched_at))]
fn matched(table: &[u8], place: Place, body: usize) -> Result<Option<u16>, Refusal>
    requires { There table.now place body }
    ensures { result ≡ matched_at table.now place body }
{
    let handle = octets::word16(table, place.at + (body - 1));
    settled(table, place.behind(body), Some(handle))
}

// The next entry with the frame's address, tag and VLAN, from a place on. At a fault it stops, and leaves the entry to `checked`, which
// knows the refusals.
//
// The front of an entry, its first eight octets as one number, is read at the end of the turn before: so it is one load to the compiler,
// which would else read each octet that is tested by a load of its own. For the same reason each length of a body ends the turn by itself.
fn seek(table: &[u8], h: Header, from: Place) -> Sought
    requires { from.at ≤ length table.now }
    ensures { Seeks table.now h from result }
{
    let n = table.len();
    // what every entry asks of the VLAN, ready before the loop
    let tagged = h.vlan.is_some();
    let id = h.vlan.unwrap_or(0);
    let mut front = front_at(table, from.at);
    let mut passed = from.passed;
    let mut at = from.at;
    while 12 <= n - at {
        if MOST <= passed {
            break;
        }
        let vlan = octets::word16(table, at + 8);
        let kind = (front / KIND) as u8;
        match entry::body_length(kind) {
            11 => {
                if entry::out_of_range((front % 256) as u8, vlan) {
                    break;
                }
                if entry::allows(front, entry::address_of(kind, h), vlan, tagged, id) {
                    return Sought::Match(Place { at, passed });
                }
                at += 12;
                passed += 1;
                front = front_at(table, at);
                continue;
            }
            25 => {
                if n - at < 26 {
                    break;
                }
                if entry::out_of_range((front % 256) as u8, vlan) {
                    break;
                }
                if entry::ip_out_of_range(table[at + 18], table[at + 19]) {
                    break;
                }
                // kind 4 asks for the destination
                if entry::allows(front, h.destination, vlan, tagged, id) {
                    return Sought::Packet(Place { at, passed });
                }
                at += 26;
                passed += 1;
                front = front_at(table, at);
                continue;
            }
            _ => break,
        }
    }
    Sought::Rest(Place { at, passed })
}

// The front of the entry at a place; 0 where there is room for none.
#[tactic(auto, unfolding(crate::specs::Walk::front_at))]
fn front_at(table: &[u8], at: usize) -> u64
    requires { at ≤ length table.now }
    ensures { result ≡ front_at table.now at }
{
    if table.len() - at < 12 {
        0
    } else {
        octets::word64(table, at)
    }
}

// What a lookup answers that has come to this, with the entries from a place on still to be checked.
#[tactic(auto, using(crate::proofs::Told::told_good, crate::proofs::Told::told_refused))]
fn settled(table: &[u8], from: Place, found: Option<u16>) -> Result<Option<u16>, Refusal>
    ensures { result ≡ answered (verdict_from table.now from) found }
{
    checked(table, from)?;
    Ok(found)
}

// The entries from a place on. As in `seek` each length of a body ends the turn by itself: with one way for both the compiler tests the
// length again at each octet, and a check takes half as long again.
fn checked(table: &[u8], from: Place) -> Result<(), Refusal>
    ensures { result ≡ answered (verdict_from table.now from) tt }
{
    let n = table.len();
    let mut passed = from.passed;
    let mut at = from.at;
    while at < n {
        if MOST <= passed {
            return Err(Refusal::TooManyEntries);
        }
        match entry::body_length(table[at]) {
            11 => {
                checked_entry(table, at, 12)?;
                at += 12;
                passed += 1;
                continue;
            }
            25 => {
                checked_entry(table, at, 26)?;
                at += 26;
                passed += 1;
                continue;
            }
            _ => return Err(Refusal::EntryKind),
        }
    }
    Ok(())
}

// The entry at a place, of so many octets: they are there, and no field is out of its range.
#[tactic(auto, unfolding(crate::specs::Walk::entry_verdict, octets::specs::Checks::verdict))]
fn checked_entry(table: &[u8], at: usize, size: usize) -> Result<(), Refusal>
    requires { at ≤ length table.now }
    ensures { result ≡ answered (entry_verdict table.now at size) tt }
{
    if table.len() - at < size {
        return Err(Refusal::EntryCut);
    }
    if entry::unfit(&table[at..at + size]) {
        return Err(Refusal::EntryRange);
    }
    Ok(())
}
