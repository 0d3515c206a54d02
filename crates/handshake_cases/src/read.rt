// Fields of a case, read at an offset; what is not there is 0 or empty.
use wire::BigEndian;

pub(crate) fn byte(s: &[u8], at: usize) -> u8 {
    s.get(at).copied().unwrap_or(0)
}

pub(crate) fn rest(s: &[u8], at: usize) -> &[u8] {
    s.get(at..).unwrap_or(b"")
}

// At most n bytes.
pub(crate) fn part(s: &[u8], at: usize, n: usize) -> &[u8] {
    let rest = rest(s, at);
    &rest[..n.min(rest.len())]
}

pub(crate) fn number<T: BigEndian + Default>(s: &[u8], at: usize) -> T {
    let rest = rest(s, at);
    if rest.len() < T::WIDTH {
        return T::default();
    }
    wire::get(rest, 0)
}
