// 01's and 02's numbers for what is told, for a host that cannot hold the enums: 0 is no refusal.
ghost use Rattle.std.specs.Prelude.{◌≡◌};
ghost use Rattle.epmd_client_rules.specs.Answers as spec;

use crate::reply::{Alive2Reply, LineAt, NamesReply, Part, Port2, Port2Reply};
use crate::unreadable::Unreadable;

// Result is 0 where the node is registered, and creation is 0 where it is not.
#[repr(C)]
#[derive(Clone, Copy, Default)]
pub struct Alive2Numbers {
    pub refusal: u32,
    pub tag: u32,
    pub result: u32,
    pub creation: u32,
}

// Beside a refusal, or a Result above 0, the fields are 0.
#[repr(C)]
#[derive(Clone, Copy, Default)]
pub struct Port2Numbers {
    pub refusal: u32,
    pub result: u32,
    pub port: u16,
    pub highest: u16,
    pub lowest: u16,
    pub kind: u8,
    pub protocol: u8,
    pub name: Part,
    pub extra: Part,
}

// Beside a refusal all the others are 0.
#[repr(C)]
#[derive(Clone, Copy)]
pub struct NamesNumbers {
    pub refusal: u32,
    pub port: u16,
    pub count: u32,
    pub line: [LineAt; 64],
}

impl From<Result<Alive2Reply, Unreadable>> for Alive2Numbers {
    ghost from_gives = { λ said numbers. numbers ≡ spec.alive2_numbers said };

    fn from(said: Result<Alive2Reply, Unreadable>) -> Alive2Numbers {
        match said {
            Err(why) => Alive2Numbers {
                refusal: why.number(),
                ..Alive2Numbers::default()
            },
            Ok(Alive2Reply::Failed { tag, result }) => Alive2Numbers {
                tag: tag as u32,
                result: result as u32,
                ..Alive2Numbers::default()
            },
            Ok(Alive2Reply::Registered { tag, creation }) => Alive2Numbers {
                tag: tag as u32,
                creation,
                ..Alive2Numbers::default()
            },
        }
    }
}

impl From<Port2> for Port2Numbers {
    ghost from_gives = { λ found numbers. numbers ≡ spec.field_numbers found };

    fn from(found: Port2) -> Port2Numbers {
        Port2Numbers {
            port: found.port,
            highest: found.highest,
            lowest: found.lowest,
            kind: found.kind,
            protocol: found.protocol,
            name: found.name,
            extra: found.extra,
            ..Port2Numbers::default()
        }
    }
}

impl From<Result<Port2Reply, Unreadable>> for Port2Numbers {
    ghost from_gives = { λ said numbers. numbers ≡ spec.port2_numbers said };

    fn from(said: Result<Port2Reply, Unreadable>) -> Port2Numbers {
        match said {
            Err(why) => Port2Numbers {
                refusal: why.number(),
                ..Port2Numbers::default()
            },
            Ok(Port2Reply::Failed { result: failed }) => Port2Numbers {
                result: failed as u32,
                ..Port2Numbers::default()
            },
            Ok(Port2Reply::Found(found)) => Port2Numbers::from(found),
        }
    }
}

impl From<Result<NamesReply, Unreadable>> for NamesNumbers {
    ghost from_gives = { λ said numbers. numbers ≡ spec.names_numbers said };

    fn from(said: Result<NamesReply, Unreadable>) -> NamesNumbers {
        match said {
            Err(why) => NamesNumbers {
                refusal: why.number(),
                port: 0,
                count: 0,
                line: [LineAt::default(); 64],
            },
            Ok(names) => {
                let line = names.lines;
                NamesNumbers {
                    refusal: 0,
                    port: names.port,
                    count: names.count,
                    line,
                }
            }
        }
    }
}
