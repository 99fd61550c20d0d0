// Numbering (document 01, "Numbering and recovery"): the generator of one stream. Generator and number are values: a step takes the
// generator and hands the next one back.
#![tactic(auto)]

mod steps;

#[derive(Drop)]
pub struct Generator {
    pub number: u16,
}

#[derive(Drop)]
pub struct Generated {
    pub number: u16,
    pub next: Generator,
}
