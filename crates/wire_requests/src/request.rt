// A request taken apart.
ghost use Rattle.std.specs.Prelude.{◌≡◌, ◌+◌, ◌≤◌, length};
ghost use Rattle.laws.specs.Bytes.{le_field};
ghost use Rattle.rules.specs.Requests.{domain_field, endpoint_field, attach_reserved, probe_endpoint};
ghost use Rattle.wire_requests.specs.Parsed.{parsed, asked, map_fields, unmap_fields, Whole};

use rules::requests::{ATTACH, DETACH, MAP, PROBE, UNMAP};
use rules::{Domain, Endpoint, Refusal};
use wire_numbers::fields::field_at;

// What a MAP asks for besides its domain.
#[derive(Clone, Copy)]
pub struct MapFields {
    pub start: u64,
    pub end: u64,
    pub phys: u64,
    pub flags: u64,
}

// What an UNMAP asks for besides its domain.
#[derive(Clone, Copy)]
pub struct UnmapFields {
    pub start: u64,
    pub end: u64,
    pub reserved: u64,
}

// A request that is not refused: its fields.
#[derive(Clone, Copy)]
pub enum Request {
    // The third field is the reserved one.
    Attach(Domain, Endpoint, u64),
    Detach(Domain, Endpoint, u64),
    Map(Domain, MapFields),
    Unmap(Domain, UnmapFields),
    Probe(Endpoint),
}

// The 32-bit number in the four bytes that start at byte k.
fn u32_at(bytes: &[u8], k: usize) -> u32
    requires { k + 4 ≤ length bytes.now }
    ensures { result ≡ le_field k 4 bytes.now }
{
    field_at(bytes, k, 4) as u32
}

// The domain of a request other than PROBE.
fn domain_field(readable: &[u8]) -> Domain
    requires { 20 ≤ length readable.now }
    ensures { result ≡ domain_field readable.now }
{
    Domain(u32_at(readable, 4))
}

// The endpoint of an ATTACH or a DETACH.
fn endpoint_field(readable: &[u8]) -> Endpoint
    requires { 20 ≤ length readable.now }
    ensures { result ≡ endpoint_field readable.now }
{
    Endpoint(u32_at(readable, 8))
}

// The reserved field of an ATTACH or a DETACH.
fn reserved_field(readable: &[u8]) -> u64
    requires { length readable.now ≡ 20 }
    ensures { result ≡ attach_reserved readable.now }
{
    field_at(readable, 12, 8)
}

// The fields of a MAP after its domain.
fn map_fields(readable: &[u8]) -> MapFields
    requires { length readable.now ≡ 36 }
    ensures { result ≡ map_fields readable.now }
{
    let start = field_at(readable, 8, 8);
    let end = field_at(readable, 16, 8);
    let phys = field_at(readable, 24, 8);
    let flags = field_at(readable, 32, 4);
    MapFields {
        start,
        end,
        phys,
        flags,
    }
}

// The fields of an UNMAP after its domain.
fn unmap_fields(readable: &[u8]) -> UnmapFields
    requires { length readable.now ≡ 28 }
    ensures { result ≡ unmap_fields readable.now }
{
    let start = field_at(readable, 8, 8);
    let end = field_at(readable, 16, 8);
    let reserved = field_at(readable, 24, 4);
    UnmapFields {
        start,
        end,
        reserved,
    }
}

// The endpoint of a PROBE, which stands where other requests have their domain.
fn probed_field(readable: &[u8]) -> Endpoint
    requires { 20 ≤ length readable.now }
    ensures { result ≡ probe_endpoint readable.now }
{
    Endpoint(u32_at(readable, 4))
}

// The fields of a request of a known type, whose readable part has that type's length.
#[tactic(auto, unfolding(crate::specs::Parsed::asked))]
fn taken_apart(readable: &[u8], requested: u8) -> Result<Request, Refusal>
    requires { Whole requested readable.now }
    ensures { result ≡ asked readable.now }
{
    let domain = domain_field(readable);
    match requested {
        ATTACH => Ok(Request::Attach(domain, endpoint_field(readable), reserved_field(readable))),
        DETACH => Ok(Request::Detach(domain, endpoint_field(readable), reserved_field(readable))),
        MAP => Ok(Request::Map(domain, map_fields(readable))),
        UNMAP => Ok(Request::Unmap(domain, unmap_fields(readable))),
        PROBE => Ok(Request::Probe(probed_field(readable))),
        0 | 6..=255 => Err(Refusal::UnknownType),
    }
}

// The request in a readable part, with a writable part of so many bytes: its fields, or the first refusal.
#[tactic(auto, unfolding(crate::specs::Parsed::parsed, crate::specs::Parsed::unless))]
pub fn parse(readable: &[u8], writable: usize) -> Result<Request, Refusal>
    ensures { result ≡ parsed readable.now writable }
{
    if readable.len() < 4 {
        return Err(Refusal::WrongLength);
    }
    let requested = readable[0];
    match requested {
        ATTACH..=PROBE => {
            let readable_length = crate::lengths::readable_length(requested);
            let writable_length = crate::lengths::writable_length(requested);
            if (readable.len() == readable_length) & (writable == writable_length) {
                taken_apart(readable, requested)
            } else {
                Err(Refusal::WrongLength)
            }
        }
        0 | 6..=255 => Err(Refusal::UnknownType),
    }
}
