// Document 01's number for each answer, and the values beside it.
#![tactic(auto)]

ghost use Rattle.std.specs.Prelude.{◌≡◌};
ghost use Rattle.rules.specs.Answers as answers;

use rules::{Answer, Cause, Refusal, Values};

// The number of a refusal.
fn refusal_number(r: Refusal) -> u8
    ensures { result ≡ answers.refusal_number r }
{
    match r {
        Refusal::NoSuchGuest => 1,
        Refusal::Unsound => 2,
        Refusal::UnknownType => 3,
        Refusal::WrongLength => 4,
        Refusal::BadConfiguration => 5,
        Refusal::UnknownEndpoint => 6,
    }
}

// The number of a blocked access.
fn cause_number(c: Cause) -> u8
    ensures { result ≡ answers.cause_number c }
{
    match c {
        Cause::Unattached => 7,
        Cause::Unmapped => 8,
    }
}

// The number and the values beside it.
fn with(number: u8, used: usize, address: u64, count: usize) -> Values
    ensures { result ≡ record { number = number; used = used; address = address; count = count } }
{
    Values {
        number,
        used,
        address,
        count,
    }
}

// What a call gives back for an answer.
pub fn values_of(a: Answer) -> Values
    ensures { result ≡ answers.values a }
{
    match a {
        Answer::Done => with(0, 0, 0, 0),
        Answer::Served(n) => with(0, n, 0, 0),
        Answer::Through(to) => with(0, 0, to, 0),
        Answer::Fetched(n) => with(0, 0, 0, n),
        Answer::Refused(r) => with(refusal_number(r), 0, 0, 0),
        Answer::Blocked(c) => with(cause_number(c), 0, 0, 0),
    }
}

// The number that a call gives back.
pub fn number_of(a: Answer) -> u8
    ensures { result ≡ answers.number a }
{
    values_of(a).number
}

// The bytes used of a request's writable part.
pub fn used_of(a: Answer) -> usize
    ensures { result ≡ answers.used_length a }
{
    values_of(a).used
}

// The address that an access goes through to.
pub fn address_of(a: Answer) -> u64
    ensures { result ≡ answers.address_of a }
{
    values_of(a).address
}

// The number of faults that a fetch gave.
pub fn count_of(a: Answer) -> usize
    ensures { result ≡ answers.fetched_count a }
{
    values_of(a).count
}
