// An answer of a room as what a door gives.
ghost use Rattle.words.specs.Answers.{Codes, Tells};

use octets::Refusal;

// 0 for what is done, or the refusal's number.
pub fn code<A: Drop>(answer: Result<A, Refusal>) -> u8
    ensures { Codes answer result }
{
    match answer {
        Ok(_) => 0,
        Err(refusal) => refusal.number(),
    }
}

// The same of what was written, whose length is told beside it.
pub fn told(written: Result<usize, Refusal>, length: &mut usize) -> u8
    ensures { Tells written length.old result length.new }
{
    if let Ok(n) = written {
        *length = n;
    }
    code(written)
}
