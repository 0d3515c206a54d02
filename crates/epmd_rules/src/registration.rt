use names::Name;

// The extra bytes of a registration, zero behind the length. A length above 128 counts all of them,
// so every value of the type is in range. Bytes beside a length, since C sees both; and not one type
// with Name over a size, since no length that a Name can hold is above its room.
#[repr(C)]
#[derive(Clone, Copy)]
pub struct Extra {
    pub bytes: [u8; 128],
    pub len: u8,
}

// One registration (01's "place"): what a node told the mapper of itself, or nothing, which is all zero
// and no None, since C sees it. `kind` is the node type, any byte that a node tells; the end of
// `connection` is the end of the registration.
#[repr(C)]
#[derive(Clone, Copy)]
pub struct Registration {
    pub name: Name,
    pub extra: Extra,
    pub kind: u8,
    pub protocol: u8,
    pub port: u16,
    pub highest: u16,
    pub lowest: u16,
    pub connection: u32,
    pub creation: u32,
}

// What a node tells of itself beside its name and extra bytes, as it travels in ALIVE2_REQ and
// PORT2_RESP. A Registration has these fields flat: C sees its layout.
#[derive(Clone, Copy, Debug, PartialEq, Eq)]
pub struct Node {
    pub port: u16,
    pub kind: u8,
    pub protocol: u8,
    pub highest: u16,
    pub lowest: u16,
}
