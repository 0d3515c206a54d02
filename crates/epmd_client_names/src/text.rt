// What stands at a place of a text: a word, a port, the end of a line.
ghost use Rattle.std.specs.Prelude.{◌≡◌, ◌+◌, ◌≤◌, ◌<◌, length, get_or, eqb};
ghost use Rattle.epmd_client_names.specs.Text.{longest, has_at, space_at, digit_at, closed_at, port_at, tail_at};

// How many bytes stand before a name, `name `, and between it and the port, ` at port `.
pub(crate) const NAME_WORD: usize = 5;

const PORT_WORD: usize = 9;

// What follows a name: ` at port `, the port and a newline, with the place behind them.
#[derive(Clone, Copy)]
pub struct Tail {
    pub port: u16,
    pub next: usize,
}

// Whether the bytes w stand at a place.
#[tactic(auto, using(crate::proofs::TextLaws::word_laws), unfolding(crate::specs::Text::has_at, wire::specs::Run::part))]
pub(crate) fn has(s: &[u8], at: usize, w: &[u8]) -> bool
    requires { at ≤ length s.now }
    ensures { result ≡ has_at s.now at w.now }
{
    s[at..].starts_with(w)
}

// Whether a space stands at a place: a name may end before it.
#[tactic(auto, unfolding(crate::specs::Text::space_at))]
pub(crate) fn space_at(s: &[u8], i: usize) -> bool
    requires { i < length s.now }
    ensures { result ≡ space_at s.now i }
{
    s[i] == b' '
}

// Where the lengths end that a name from a place may have: at 256, or sooner where the text does.
pub(crate) fn lengths_end(s: &[u8], from: usize) -> usize
    requires { from ≤ length s.now }
    ensures within { (result ≤ 256) × (from + result ≤ length s.now) }
    ensures whole { result < 256 → length s.now ≤ from + result }
{
    (s.len() - from).min(256)
}

// The digit at a place.
#[tactic(auto, unfolding(crate::specs::Text::digit_at))]
fn digit_at(s: &[u8], i: usize) -> Option<u32>
    ensures { result ≡ digit_at s.now i }
{
    match s.get(i) {
        Some(b @ b'0'..=b'9') => Some((*b - b'0') as u32),
        _ => None,
    }
}

// A newline behind a port.
#[tactic(auto, unfolding(crate::specs::Text::closed_at))]
fn closed(s: &[u8], i: usize, v: u32) -> Option<Tail>
    ensures { result ≡ closed_at s.now i v }
{
    match s.get(i) {
        Some(b'\n') => Some(Tail {
            port: u16::try_from(v).ok()?,
            next: i + 1,
        }),
        _ => None,
    }
}

// A port of up to five digits without a leading zero, and a newline.
#[tactic(auto, using(crate::proofs::PortLaws::port_laws))]
fn port_at(s: &[u8], i: usize) -> Option<Tail>
    requires { (i ≤ length s.now) × (length s.now ≤ longest) }
    ensures { result ≡ port_at s.now i }
{
    let mut v = digit_at(s, i)?;
    for j in i + 1..i + 5 {
        let Some(d) = digit_at(s, j) else {
            return closed(s, j, v);
        };
        if v == 0 {
            return None;
        }
        if 6553 < v {
            return None;
        }
        v = v * 10 + d;
    }
    closed(s, i + 5, v)
}

// Whether the byte behind a space lets ` at port ` stand there: behind most spaces there is another.
pub(crate) fn a_behind(s: &[u8], i: usize) -> bool
    requires { i < length s.now }
    ensures { result ≡ eqb (get_or s.now (i + 1) 0) 97 }
{
    matches!(s.get(i + 1), Some(b'a'))
}

// What follows a name, at a place.
#[tactic(auto, using(crate::proofs::TextLaws::has_inside), unfolding(crate::specs::Text::tail_at))]
pub(crate) fn tail_at(s: &[u8], q: usize) -> Option<Tail>
    requires { (q ≤ length s.now) × (length s.now ≤ longest) }
    ensures { result ≡ tail_at s.now q }
{
    if has(s, q, b" at port ") {
        port_at(s, q + PORT_WORD)
    } else {
        None
    }
}
