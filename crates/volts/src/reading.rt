// Volts: a card read under a calibration.
ghost use Rattle.std.specs.Prelude.{◌≡◌};
ghost use Rattle.volts.specs.Reading.{accepted, volts_of, ReadsVolts};

use crate::{Calibration, Volts};
use cards::Card;
use octets::Refusal;

#[tactic(auto, using(crate::proofs::Constants::doubles))]
fn accepts(calibration: Calibration) -> bool
    ensures { result ≡ accepted calibration }
{
    let gain = calibration.gain;
    let offset = calibration.offset;
    0.0 < gain && gain <= 1.0 && -100.0 <= offset && offset <= 100.0
}

#[tactic(auto, using(crate::proofs::Constants::doubles))]
fn of_card(card: Card, calibration: Calibration) -> Volts
    ensures { result ≡ volts_of card calibration }
{
    match card {
        Card::RawCode(code) => {
            Volts::FromRawCode(code as f64 * calibration.gain + calibration.offset)
        }
        Card::Millivolts(millivolts) => Volts::FromMillivolts(millivolts as f64 / 1000.0),
        Card::FlushOrder(_) | Card::End => Volts::NotAReading,
    }
}

// The volts of the next card. The calibration is judged first, and then the card.
#[tactic(auto, using(crate::proofs::Judged::read_refused, crate::proofs::Judged::read_card))]
pub fn read(payload: &[u8], calibration: Calibration) -> Result<Volts, Refusal>
    ensures { ReadsVolts payload.now calibration result }
{
    if !accepts(calibration) {
        return Err(Refusal::CalibrationRange);
    }
    let card = cards::next(payload)?;
    Ok(of_card(card, calibration))
}
