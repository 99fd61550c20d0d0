// What a word says.
ghost use Rattle.std.specs.Prelude.{◌≡◌, ◌-◌, ◌^◌, ◌<◌, [], ◌∷◌, length, drop, IfOk, IfErr, OnErr, ◌==◌, IsErr};
ghost use Rattle.std.specs.List.{prefix_len};
ghost use Rattle.std.specs.Option.{SomeIff};
ghost use Rattle.std.specs.Str.Parse.{IsNumeral, digits_value};
ghost use Rattle.hex.specs.Hex.{decode_sized};

use crate::mistakes::Mistake;
use hex::FromHex;
use std::str;

// The letters that a word is known by: its last ones, `most` of them, without the zero octets that they begin with. The word as a whole
// would be plainer, and refuse texts that have always been punched.
pub fn name(word: &[u8], most: usize) -> &[u8]
    ensures { let last = drop (length word.now - most) word.now in
        result.now ≡ drop (prefix_len (λ letter. letter == 0) last) last }
{
    without_zeros(&word[word.len().saturating_sub(most)..])
}

fn without_zeros(letters: &[u8]) -> &[u8]
    ensures { result.now ≡ drop (prefix_len (λ letter. letter == 0) letters.now) letters.now }
{
    match letters {
        [0, rest @ ..] => without_zeros(rest),
        _ => letters,
    }
}

// The number that a word is: decimal digits and nothing else.
fn decimal(word: &[u8]) -> Option<u64>
    ensures { SomeIff result (IsNumeral 10 word.now × (digits_value 10 word.now < 2 ^ 64)) (digits_value 10 word.now) }
{
    match str::from_utf8(word) {
        // `parse` would take a plus in front.
        Ok(text) if text.starts_with('+') => None,
        Ok(text) => text.parse().ok(),
        Err(_) => None,
    }
}

// The number that a word is, where it fits.
pub fn number<T: TryFrom<u64>>(word: &[u8]) -> Result<T, Mistake>
where
    T::Error: Drop,
    ensures ok { IfOk result (λ x. IsNumeral 10 word.now × T.try_from_gives (digits_value 10 word.now) (Ok x)) }
    ensures err { IfErr result (λ e. e ≡ Mistake.NoNumber) }
    ensures unfit { OnErr result (IsNumeral 10 word.now → digits_value 10 word.now < 2 ^ 64
        → (e : _) × T.try_from_gives (digits_value 10 word.now) (Err e)) }
{
    decimal(word)
        .and_then(|n| T::try_from(n).ok())
        .ok_or(Mistake::NoNumber)
}

// The octet that a word is in hexadecimal: two digits and nothing else.
pub fn octet(word: &[u8]) -> Result<u8, Mistake>
    ensures ok { IfOk result (λ octet. decode_sized word.now 1 ≡ Ok (octet ∷ [])) }
    ensures err { IfErr result (λ e. (e ≡ Mistake.NoNumber) × IsErr (decode_sized word.now 1)) }
{
    match <[u8; 1]>::from_hex(word) {
        Ok(octets) => Ok(octets[0]),
        Err(_) => Err(Mistake::NoNumber),
    }
}
