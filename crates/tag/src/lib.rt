// What it means that the number of a lent frame is put in (`insertion`) and taken off (`removal`) in the encoding of its stream:
// definitions, and the round trips as laws.
//
// Whatever octets come in, each of the two answers the result's length or refuses, and a refusal leaves the lent output as it was.
#![tactic(auto)]
