// The types of requests and what they are answered with, by document 01's numbers, as specs/Requests.antt names them for the
// definitions.

pub const ATTACH: u8 = 1;

pub const DETACH: u8 = 2;

pub const MAP: u8 = 3;

pub const UNMAP: u8 = 4;

pub const PROBE: u8 = 5;

// The status of a request that succeeds.
pub const OK: u8 = 0;

// Why a request fails. Each has the status that it is answered with as its number.
#[derive(Clone, Copy, PartialEq, Eq)]
pub enum Failure {
    // The endpoint can't be as the request wants it.
    Unsupp = 2,
    // The device can't work the request.
    Deverr = 3,
    // A field has a value that it may not have.
    Inval = 4,
    // An address or a domain lies outside its range.
    Range = 5,
    // There is no such endpoint or domain.
    Noent = 6,
    // The physical address is not the guest's.
    Fault = 7,
    // The guest's share is used up.
    Nomem = 8,
}
