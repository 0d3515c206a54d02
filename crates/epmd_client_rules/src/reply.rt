// What the mapper's replies say.

// What a reply says is an enum of its own inside its reader's Result: a Result above 0 is no refusal, it
// is told as it stands (02, P1).

// ALIVE2_X_RESP (118) or ALIVE2_RESP (121): the creation, from 121 the short one; or a Result above 0.
#[derive(Clone, Copy)]
pub enum Alive2Reply {
    Failed { tag: u8, result: u8 },
    Registered { tag: u8, creation: u32 },
}

// PORT2_RESP: what is registered, or a Result above 0.
#[derive(Clone, Copy)]
pub enum Port2Reply {
    Failed { result: u8 },
    Found(Port2),
}

// A part of a reply: where in it the part begins, and how many bytes it has. Two numbers and no slice,
// since C sees it.
#[repr(C)]
#[derive(Clone, Copy, Default)]
pub struct Part {
    pub at: u32,
    pub len: u32,
}

// The fields of PORT2_RESP. Name and extra are parts of the reply.
#[derive(Clone, Copy)]
pub struct Port2 {
    pub port: u16,
    pub kind: u8,
    pub protocol: u8,
    pub highest: u16,
    pub lowest: u16,
    pub name: Part,
    pub extra: Part,
}

// A line of NAMES: where in the reply its name begins, how many bytes it has, and the port.
#[repr(C)]
#[derive(Clone, Copy, Default)]
pub struct LineAt {
    pub at: u32,
    pub len: u32,
    pub port: u16,
}

// NAMES: the mapper's own port and the lines, zero behind the count. An array with its count beside
// it, as C sees them in NamesNumbers and `Tells` says: there is no heap for a list.
#[derive(Clone, Copy)]
pub struct NamesReply {
    pub port: u16,
    pub count: u32,
    pub lines: [LineAt; 64],
}
