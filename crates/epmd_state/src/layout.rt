// A registry: its own port, the next creation, and then the records.
pub(crate) const PORT: usize = 0;

pub(crate) const NEXT: usize = PORT + 2;

pub(crate) const RECORDS: usize = NEXT + 4;

// A record: the name and the extra bytes, each behind its length, and then the numbers.
pub(crate) const NAME_LEN: usize = 0;

pub(crate) const NAME: usize = NAME_LEN + 1;

pub(crate) const NAME_ROOM: usize = 255;

pub(crate) const EXTRA_LEN: usize = NAME + NAME_ROOM;

pub(crate) const EXTRA: usize = EXTRA_LEN + 1;

pub(crate) const EXTRA_ROOM: usize = 128;

pub(crate) const KIND: usize = EXTRA + EXTRA_ROOM;

pub(crate) const PROTOCOL: usize = KIND + 1;

pub(crate) const NODE_PORT: usize = PROTOCOL + 1;

pub(crate) const HIGHEST: usize = NODE_PORT + 2;

pub(crate) const LOWEST: usize = HIGHEST + 2;

pub(crate) const CONNECTION: usize = LOWEST + 2;

pub(crate) const CREATION: usize = CONNECTION + 4;

pub(crate) const RECORD: usize = CREATION + 4;

// A record where it lies.
pub type Record = [u8; RECORD];

pub const PLACES: usize = 64;

pub const SIZE: usize = RECORDS + PLACES * RECORD;
