// "Charge cards" (document 01) for C: a card as its answer and its value, its part and the rest as lengths.
ghost use Rattle.cards_c.specs.Charge.{NextTo, CardOctets, RestOctets};

use cards::Card;

// What stands next, and its value where it has one.
#[unsafe(no_mangle)]
pub extern "C" fn ahz_card(payload: &[u8], value: &mut u32) -> u8
    ensures { NextTo payload.now value.old result value.new }
{
    match cards::next(payload) {
        Ok(Card::FlushOrder(blocks)) => {
            *value = blocks;
            100
        }
        Ok(Card::RawCode(code)) => {
            *value = code as u32;
            101
        }
        Ok(Card::Millivolts(count)) => {
            *value = count as u32;
            102
        }
        Ok(Card::End) => 103,
        Err(refusal) => refusal.number(),
    }
}

// How many octets the next card has: the first ones of the payload. 0 on a refusal or end.
#[unsafe(no_mangle)]
pub extern "C" fn ahz_card_octets(payload: &[u8]) -> usize
    ensures { CardOctets payload.now result }
{
    let part = cards::part(payload);
    part.len()
}

// How many octets come after the next card: the last ones of the payload. 0 on a refusal or end.
#[unsafe(no_mangle)]
pub extern "C" fn ahz_rest_octets(payload: &[u8]) -> usize
    ensures { RestOctets payload.now result }
{
    let rest = cards::rest(payload);
    rest.len()
}
