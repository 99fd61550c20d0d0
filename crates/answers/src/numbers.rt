// An answer as one number, as the doors for C give it.
ghost use Rattle.answers.specs.Numbers.{Numbers, Codes};

use crate::Answer;
use octets::Refusal;

// The number of an answer, or what is handed in for a refusal's: any number may be.
pub fn number_of(answer: Result<Answer, u8>) -> u8
    ensures { Numbers answer result }
{
    match answer {
        Ok(Answer::Pass) => 109,
        Ok(Answer::Discard) => 110,
        Ok(Answer::Tick) => 111,
        Ok(Answer::Timeout) => 112,
        Ok(Answer::Reset | Answer::LatentReset) => 0,
        Ok(Answer::Agrees) => 113,
        Ok(Answer::Error) => 114,
        Err(number) => number,
    }
}

// The same of an answer or a refusal.
pub fn code(answer: Result<Answer, Refusal>) -> u8
    ensures { Codes answer result }
{
    number_of(answer.map_err(Refusal::number))
}
