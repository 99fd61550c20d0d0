// "Charge cards" (document 01) for C: the volts of a card as a double.
ghost use Rattle.volts_c.specs.Readings.{VoltsTo};

use volts::{Calibration, Volts};

// The volts of the next card under a calibration.
#[unsafe(no_mangle)]
pub extern "C" fn ahz_volts(payload: &[u8], gain: f64, offset: f64, volts: &mut f64) -> u8
    ensures { VoltsTo payload.now gain offset volts.old result volts.new }
{
    match volts::read(payload, Calibration { gain, offset }) {
        Ok(Volts::FromRawCode(v)) => {
            *volts = v;
            104
        }
        Ok(Volts::FromMillivolts(v)) => {
            *volts = v;
            105
        }
        Ok(Volts::NotAReading) => 106,
        Err(refusal) => refusal.number(),
    }
}
