// The volts that a card gives under a calibration.
#![tactic(auto)]

mod reading;

pub use reading::read;

#[derive(Clone, Copy)]
pub struct Calibration {
    pub gain: f64,
    pub offset: f64,
}

// What the next card says of the bank.
#[derive(Clone, Copy)]
pub enum Volts {
    FromRawCode(f64),
    FromMillivolts(f64),
    // A flush order or the end.
    NotAReading,
}
