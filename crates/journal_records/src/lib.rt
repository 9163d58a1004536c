// The records of a journal, by their bytes.
#![tactic(auto)]

ghost use Rattle.std.specs.Prelude.{◌≡◌, ◌<◌, ◌≤◌, length};
ghost use Rattle.journal_records.specs.Items.{longest_body, body_length, kind_of, size_of, guest_fields, start_fields, endpoint_at, region_fields, item_of};
ghost use Rattle.journal_records.specs.Items as items;

use rules::sizes::MAX_FAULTS;
use rules::{Access, DomainRange, Endpoint, Guest, InputRange, Region};
use wire_numbers::fields::field_at;

// A guest: its share, and its window's first and last address.
#[derive(Clone, Copy)]
pub struct GuestFields {
    pub share: u32,
    pub first: u64,
    pub last: u64,
}

// A start: the mask, the input range and the domain range.
#[derive(Clone, Copy)]
pub struct StartFields {
    pub mask: u64,
    pub input: InputRange,
    pub domains: DomainRange,
}

// A record; a request's bytes stay in the journal.
#[derive(Clone, Copy)]
pub enum Item {
    // The record is not all there.
    Cut,
    // An unknown kind, or a last byte that is out of range.
    Wrong,
    NamedGuest(GuestFields),
    NamedEndpoint(Endpoint, Guest),
    Start(StartFields),
    // One region more of an endpoint.
    NamedRegion(Endpoint, Region),
    Request(Guest),
    // A request in a writable part with room for properties, which are printed.
    Probe(Guest),
    AccessBy(Access),
    Reset(Guest),
    Fetch(Guest, usize),
}

// The bytes of the longest body: a guest, and the bytes of the longest request.
const LONGEST_BODY: usize = 73;

// The bytes of a record's body by its kind, 0 for an unknown kind.
fn body_length(kind: u8) -> usize
    ensures { (result ≡ body_length kind) × (result ≤ longest_body) }
{
    match kind {
        0x01 => 18,
        0x02 => 5,
        0x03 => 32,
        0x04 => 21,
        0x11 => 21,
        0x12 => 29,
        0x13 => 37,
        0x14 => LONGEST_BODY,
        0x21 => 13,
        0x22 => 1,
        0x23 => 2,
        _ => 0,
    }
}

// The bytes of the record at the front, with its kind byte; of an unknown kind, the kind byte alone.
pub fn size_of(s: &[u8]) -> usize
    ensures { result ≡ size_of s.now }
{
    if s.len() == 0 {
        return 1;
    }
    body_length(s[0]) + 1
}

// The fields of a guest's record.
fn guest_fields(s: &[u8]) -> GuestFields
    requires { 19 ≤ length s.now }
    ensures { result ≡ guest_fields s.now }
{
    GuestFields {
        share: field_at(s, 1, 2) as u32,
        first: field_at(s, 3, 8),
        last: field_at(s, 11, 8),
    }
}

// The fields of a start.
fn start_fields(s: &[u8]) -> StartFields
    requires { 33 ≤ length s.now }
    ensures { result ≡ start_fields s.now }
{
    StartFields {
        mask: field_at(s, 1, 8),
        input: InputRange {
            start: field_at(s, 9, 8),
            end: field_at(s, 17, 8),
        },
        domains: DomainRange {
            start: field_at(s, 25, 4) as u32,
            end: field_at(s, 29, 4) as u32,
        },
    }
}

// The endpoint whose number starts at byte 1.
fn endpoint_field(s: &[u8]) -> Endpoint
    requires { 5 ≤ length s.now }
    ensures { result ≡ endpoint_at 1 s.now }
{
    Endpoint(field_at(s, 1, 4) as u32)
}

// The region whose subtype stands at byte 5.
fn region_fields(s: &[u8]) -> Region
    requires { 22 ≤ length s.now }
    ensures { result ≡ region_fields s.now }
{
    Region {
        subtype: s[5] as u64,
        start: field_at(s, 6, 8),
        end: field_at(s, 14, 8),
    }
}

// An access, if its last byte says read or write.
fn access_item(s: &[u8]) -> Item
    requires { (14 ≤ length s.now) × (kind_of s.now ≡ 33) }
    ensures { result ≡ item_of s.now }
{
    if 1 < s[13] {
        return Item::Wrong;
    }
    let endpoint = endpoint_field(s);
    let address = field_at(s, 5, 8);
    let kind = s[13];
    Item::AccessBy(Access {
        endpoint,
        address,
        kind,
    })
}

// The most faults that a fetch may ask for.
const MAX_ASKED: u8 = MAX_FAULTS as u8;

// A fetch, if it asks for no more faults than a log has room for.
fn fetch_item(s: &[u8]) -> Item
    requires { (3 ≤ length s.now) × (kind_of s.now ≡ 35) }
    ensures { result ≡ item_of s.now }
{
    if MAX_ASKED < s[2] {
        return Item::Wrong;
    }
    Item::Fetch(Guest(s[1]), s[2] as usize)
}

// The fields of a whole record.
fn take_item(s: &[u8]) -> Item
    requires { (0 < body_length (kind_of s.now)) × (size_of s.now ≤ length s.now) }
    ensures { result ≡ item_of s.now }
{
    let kind = s[0];
    match kind {
        0x01 => Item::NamedGuest(guest_fields(s)),
        0x02 => Item::NamedEndpoint(endpoint_field(s), Guest(s[5])),
        0x03 => Item::Start(start_fields(s)),
        0x04 => Item::NamedRegion(endpoint_field(s), region_fields(s)),
        0x14 => Item::Probe(Guest(s[1])),
        0x21 => access_item(s),
        0x22 => Item::Reset(Guest(s[1])),
        0x23 => fetch_item(s),
        _ => Item::Request(Guest(s[1])),
    }
}

// What stands at the front of the rest of a journal.
pub fn front(s: &[u8]) -> Item
    ensures { result ≡ items.front s.now }
{
    if s.len() == 0 {
        return Item::Cut;
    }
    let n = body_length(s[0]);
    if n == 0 {
        return Item::Wrong;
    }
    if s.len() - 1 < n {
        return Item::Cut;
    }
    take_item(s)
}
