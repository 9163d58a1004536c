// The sizes of document 01, each named once for the code, as specs/Sizes.antt names them for the definitions.

// The guests that there may be.
pub const MAX_GUESTS: usize = 4;

// The endpoints that there may be.
pub const MAX_ENDPOINTS: usize = 32;

// The reserved regions that an endpoint may have.
pub const MAX_REGIONS: usize = 4;

// The words of a region: subtype, start, end.
pub const REGION_WORDS: usize = 3;

// The words for an endpoint's regions: their number, then those of each region.
pub const ENDPOINT_REGION_WORDS: usize = 1 + REGION_WORDS * MAX_REGIONS;

// The words for the regions of all endpoints.
pub const REGION_PLACES: usize = ENDPOINT_REGION_WORDS * MAX_ENDPOINTS;

// The records that the mapping table has room for.
pub const MAX_RECORDS: usize = 256;

// The words of a record.
pub const RECORD_WORDS: usize = 5;

// The words of the mapping table.
pub const TABLE_WORDS: usize = RECORD_WORDS * MAX_RECORDS;

// The faults that a guest's log has room for.
pub const MAX_FAULTS: usize = 16;

// The places for the faults of all guests.
pub const FAULT_PLACES: usize = MAX_FAULTS * MAX_GUESTS;

// Where a lost count stops.
pub const MAX_LOST: u32 = 65535;

// The bytes of a fault record.
pub const FAULT_SIZE: usize = 24;

// The bytes of a request's status: the status and three zeros.
pub const STATUS_SIZE: usize = 4;

// The bytes of a property: type, length, subtype, three zeros, start, end.
pub const PROPERTY_SIZE: usize = 24;

// The bytes of properties that PROBE writes.
pub const PROPERTIES_SIZE: usize = 128;

// The bytes of PROBE's writable part: the properties, then the status.
pub const PROBE_SIZE: usize = PROPERTIES_SIZE + STATUS_SIZE;

// What the guest's number is multiplied by in a record's first word.
pub const DOMAIN_SPAN: u64 = 4294967296;

// The last address there is.
pub const TOP_ADDRESS: u64 = 18446744073709551615;
