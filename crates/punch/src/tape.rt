// The tape that is punched: at most 65,536 octets, for which it has room from the start.
ghost use Rattle.std.specs.Prelude.{◌≡◌, ◌+◌, ◌<◌, ◌≤◌, ◌↔◌, List, ℕ, [], ◌∷◌, ◌++◌, length, replicate, OnOk, OnErr, IfOk, IfErr, IsErr, vec_len, vec_capacity};
ghost use Rattle.punch.specs.declared.tape.TheConstants.{ROOM};

use crate::mistakes::Mistake;
use std::alloc::{AllocError, Global};
use std::marker::Model;

// How many octets a tape has room for.
pub const ROOM: usize = 65536;

#[derive(Drop)]
pub struct Tape {
    octets: Vec<u8>,
}

impl Model for Tape {
    ghost Value = { List ℕ };

    ghost view = { λ t. t.octets.items };

    ghost invariant = { λ t. ROOM ≤ vec_capacity t.octets };
}

impl Tape {
    pub fn new(alloc: Global) -> Result<Tape, AllocError>
        ensures { IfOk result (λ t. t ≡ []) }
    {
        let octets = Vec::with_capacity(alloc, ROOM)?;
        Ok(Tape { octets })
    }

    pub fn octets(&self) -> &[u8]
        ensures { result.now ≡ self.now }
    {
        self.octets.as_slice()
    }

    // Octets more, where there is room.
    pub fn put(&mut self, octets: &[u8]) -> Result<(), Mistake>
        ensures ok { OnOk result (self.new ≡ self.old ++ octets.now) }
        ensures err { OnErr result (self.new ≡ self.old) }
        ensures full { IsErr result ↔ (ROOM < length self.old + length octets.now) }
        ensures no_room { IfErr result (λ e. e ≡ Mistake.NoRoom) }
    {
        if ROOM < self.octets.len() + octets.len() {
            return Err(Mistake::NoRoom);
        }
        self.octets.extend_from_slice(octets).unwrap();
        Ok(())
    }

    // One octet more.
    pub fn push(&mut self, octet: u8) -> Result<(), Mistake>
        ensures ok { OnOk result (self.new ≡ self.old ++ octet ∷ []) }
        ensures err { OnErr result (self.new ≡ self.old) }
        ensures full { IsErr result ↔ (ROOM < length self.old + 1) }
        ensures no_room { IfErr result (λ e. e ≡ Mistake.NoRoom) }
    {
        self.put(&[octet])
    }

    // So many octets more that are alike.
    pub fn fill(&mut self, octet: u8, times: u32) -> Result<(), Mistake>
        ensures ok { OnOk result (self.new ≡ self.old ++ replicate times octet) }
        ensures err { OnErr result (self.new ≡ self.old) }
        ensures full { IsErr result ↔ (ROOM < length self.old + times) }
        ensures no_room { IfErr result (λ e. e ≡ Mistake.NoRoom) }
    {
        let all = self.octets.len() + times as usize;
        if ROOM < all {
            return Err(Mistake::NoRoom);
        }
        self.octets.resize(all, octet).unwrap();
        Ok(())
    }
}
