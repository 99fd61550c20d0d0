// What an entry of kind 4 asks of a frame's payload (document 02, CR 1).
ghost use Rattle.std.specs.Prelude.{◌≡◌, ◌||◌, eqb};
ghost use Rattle.entry.specs.Ip.{protocol_number, no_port, ports_fit, protocol_fits, ip_fits, ReadsPacket, AllowsIp};

use ipv4::{Header, Unread};

const IPV4: u16 = 0x0800;

const NONE: u8 = 1;

const ANY_DSCP: u32 = 255;

// The packet that a payload behind this type begins with. Behind another type it is as a bad one.
#[tactic(auto, unfolding(crate::specs::Ip::packet_of))]
pub fn packet_of(kind: u16, payload: &[u8]) -> Result<Header, Unread>
    ensures { ReadsPacket kind payload.now result }
{
    if kind != IPV4 {
        return Err(Unread::Bad);
    }
    ipv4::read(payload)
}

// Whether a payload that begins with this packet is one that the entry asks for.
pub fn ip_allows(entry: &[u8], packet: Result<Header, Unread>, payload: &[u8]) -> bool
    ensures { AllowsIp entry.now packet payload.now result }
{
    match packet {
        Ok(ip) => ip_fits(entry, ip, payload),
        Err(_) => false,
    }
}

#[tactic(auto, unfolding(crate::specs::Ip::ip_fits, crate::specs::Ip::zero_or, crate::specs::Ip::dscp_fits, crate::specs::Contents::source_ip, crate::specs::Contents::destination_ip, crate::specs::Contents::dscp))]
fn ip_fits(entry: &[u8], ip: Header, payload: &[u8]) -> bool
    ensures { result ≡ ip_fits entry.now ip payload.now }
{
    if !fits(0, octets::word32(entry, 10), ip.source) {
        return false;
    }
    if !fits(0, octets::word32(entry, 14), ip.destination) {
        return false;
    }
    if !fits(ANY_DSCP, octets::octet(entry, 18) as u32, ip.dscp as u32) {
        return false;
    }
    protocol_fits(entry, ip, payload)
}

#[tactic(auto, unfolding(crate::specs::Ip::protocol_fits, crate::specs::Contents::protocol, crate::specs::Contents::source_port, crate::specs::Contents::destination_port))]
fn protocol_fits(entry: &[u8], ip: Header, payload: &[u8]) -> bool
    ensures { result ≡ protocol_fits entry.now ip payload.now }
{
    let next = octets::octet(entry, 19);
    if next == NONE {
        return true;
    }
    if ip.protocol != protocol_number(next) {
        return false;
    }
    let source = octets::word16(entry, 20);
    let destination = octets::word16(entry, 22);
    if none_asked(source, destination) {
        return true;
    }
    ports_fit(source, destination, ip, payload)
}

#[tactic(auto, unfolding(crate::specs::Ip::no_port))]
fn none_asked(source: u16, destination: u16) -> bool
    ensures { result ≡ no_port source destination }
{
    source == 0 && destination == 0
}

#[tactic(auto, unfolding(crate::specs::Ip::protocol_number))]
fn protocol_number(next: u8) -> u8
    ensures { result ≡ protocol_number next }
{
    match next {
        2 => 17,
        3 => 6,
        _ => 132,
    }
}

#[tactic(auto, unfolding(crate::specs::Ip::ports_fit, crate::specs::Ip::zero_or))]
fn ports_fit(source: u16, destination: u16, ip: Header, payload: &[u8]) -> bool
    ensures { result ≡ ports_fit source destination ip payload.now }
{
    if ip.later {
        return false;
    }
    if payload.len() < ip.ports {
        return false;
    }
    if payload.len() - ip.ports < 4 {
        return false;
    }
    if !fits(0, source as u32, octets::word16(payload, ip.ports) as u32) {
        return false;
    }
    fits(
        0,
        destination as u32,
        octets::word16(payload, ip.ports + 2) as u32,
    )
}

// One value asks for nothing, and every other for itself.
fn fits(nothing: u32, asked: u32, is: u32) -> bool
    ensures { result ≡ (eqb asked nothing || eqb asked is) }
{
    asked == nothing || asked == is
}
