// What a frame asks for.
#[derive(Clone, Copy, Debug, PartialEq, Eq)]
pub enum Request {
    Alive2,
    PortPlease2,
    Names,
}
