// The types that the definitions and the code share, and the numbers that the code names. There is no function here.
#![tactic(auto)]

pub mod requests;
pub mod sizes;

use sizes::{FAULT_PLACES, MAX_ENDPOINTS, MAX_GUESTS, REGION_PLACES};

// A guest's number, below the guest count.
#[repr(C)]
#[derive(Clone, Copy, PartialEq, Eq)]
pub struct Guest(pub u8);

// An endpoint's number: a device, as the bus names it.
#[repr(C)]
#[derive(Clone, Copy, PartialEq, Eq)]
pub struct Endpoint(pub u32);

// A domain's number. Each guest has domains of its own.
#[repr(C)]
#[derive(Clone, Copy, PartialEq, Eq)]
pub struct Domain(pub u32);

// The addresses, or the domain numbers, from start to end, both included.
#[repr(C)]
#[derive(Clone, Copy)]
pub struct InputRange {
    pub start: u64,
    pub end: u64,
}

#[repr(C)]
#[derive(Clone, Copy)]
pub struct DomainRange {
    pub start: u32,
    pub end: u32,
}

// What set-up takes besides the endpoint lists: for guest g its share, and its window from firsts[g] to lasts[g].
#[repr(C)]
#[derive(Clone, Copy)]
pub struct Settings {
    pub guests: usize,
    pub shares: [u32; MAX_GUESTS],
    pub firsts: [u64; MAX_GUESTS],
    pub lasts: [u64; MAX_GUESTS],
    pub mask: u64,
    pub input: InputRange,
    pub domains: DomainRange,
}

// A reserved region of an endpoint, which no mapping may meet: subtype 0 is reserved, 1 is MSI.
#[repr(C)]
#[derive(Clone, Copy, Default)]
pub struct Region {
    pub subtype: u64,
    pub start: u64,
    pub end: u64,
}

// The device's state. Endpoint i has its number, owner, attached flag (0 or 1) and domain at place i of four arrays;
// fault j of guest g stands at place MAX_FAULTS * g + j of four arrays, with the guest's number of faults in logged. The regions
// of endpoint i stand in regions from word ENDPOINT_REGION_WORDS * i on: their number, then subtype, start and end of each.
#[repr(C)]
#[derive(Clone, Copy)]
pub struct State {
    pub settings: Settings,
    pub listed: usize,
    pub endpoints: [u32; MAX_ENDPOINTS],
    pub owners: [u8; MAX_ENDPOINTS],
    pub attached: [u8; MAX_ENDPOINTS],
    pub domains: [u32; MAX_ENDPOINTS],
    pub regions: [u64; REGION_PLACES],
    pub live: usize,
    pub logged: [usize; MAX_GUESTS],
    pub lost: [u32; MAX_GUESTS],
    pub reasons: [u8; FAULT_PLACES],
    pub flags: [u32; FAULT_PLACES],
    pub sources: [u32; FAULT_PLACES],
    pub addresses: [u64; FAULT_PLACES],
}

// A mapping record, the five words of the table: key is guest times 2^32 plus domain, start and end are virt_start and
// virt_end, phys is phys_start.
#[repr(C)]
#[derive(Clone, Copy, Default)]
pub struct Mapping {
    pub key: u64,
    pub start: u64,
    pub end: u64,
    pub phys: u64,
    pub flags: u64,
}

// A logged fault.
#[repr(C)]
#[derive(Clone, Copy)]
pub struct Fault {
    pub reason: u8,
    pub flags: u32,
    pub endpoint: Endpoint,
    pub address: u64,
}

// An access: the endpoint that makes it, the address, and its kind, 0 a read and any other a write.
#[repr(C)]
#[derive(Clone, Copy)]
pub struct Access {
    pub endpoint: Endpoint,
    pub address: u64,
    pub kind: u8,
}

// Why a call is refused; a refused call changes nothing.
#[derive(Clone, Copy)]
pub enum Refusal {
    // The guest number is not below the guest count.
    NoSuchGuest,
    // The table's length, or the state and table, are not sound.
    Unsound,
    // The request's type is not 1 to 5.
    UnknownType,
    // A part of the request is too short or has not the type's length.
    WrongLength,
    // The configuration is not good.
    BadConfiguration,
    // The endpoint of an access is not listed.
    UnknownEndpoint,
}

// Why an access is blocked; a blocked access is logged as a fault.
#[derive(Clone, Copy)]
pub enum Cause {
    // The endpoint is not attached.
    Unattached,
    // No mapping permits the access.
    Unmapped,
}

// What a call is answered.
#[derive(Clone, Copy)]
pub enum Answer {
    // Set-up or reset, done.
    Done,
    // A request, worked: so many bytes of the writable part are used, and the status is among them.
    Served(usize),
    // An access that goes through to this address.
    Through(u64),
    // A fetch that gave so many faults.
    Fetched(usize),
    Refused(Refusal),
    Blocked(Cause),
}

// What a call gives back for an answer: its number, and the values beside it.
#[derive(Clone, Copy)]
pub struct Values {
    pub number: u8,
    pub used: usize,
    pub address: u64,
    pub count: usize,
}
