// Plain bytes: ASCII, and neither zero nor "@". Most names have no others, so they are passed many at a
// time (02, P5: "let the UTF-8 check pass eight bytes in a row that are all below 128 in one step").
ghost use Rattle.std.specs.Prelude.{◌≡◌, ◌≤◌, length};
ghost use Rattle.names.specs.Node.{plain_byte, plain, ascii, PassedBy};

fn is_plain_byte(b: u8) -> bool
    ensures { result ≡ plain_byte b }
{
    (b != 0) & (b <= 127) & (b != 64)
}

// Whether all bytes are plain. There is no way out before the end, so that the compiler can take many bytes at once.
pub(crate) fn is_plain(s: &[u8]) -> bool
    ensures { result ≡ plain s.now }
{
    s.iter().fold(true, |ok, b| ok & is_plain_byte(*b))
}

// Whether eight bytes are below 128: as one number they have none of these bits.
fn is_ascii(bytes: [u8; 8]) -> bool
    ensures { result ≡ ascii bytes }
{
    u64::from_le_bytes(bytes) & 0x8080808080808080 == 0
}

// Where blocks of w plain bytes end that begin at i. Fewer than w bytes at the end of the run are plain if its last w are.
// The place is counted by hand: a position among chunks would have to be made a place again by a product with w.
fn pass(s: &[u8], i: usize, w: usize) -> usize
    requires { (1 ≤ w) × (i ≤ length s.now) }
    ensures { PassedBy w s.now i result }
{
    let n = s.len();
    if n < w {
        return i;
    }
    let last = n - w;
    let mut j = i;
    while j <= last {
        if !is_plain(&s[j..j + w]) {
            return j;
        }
        j += w;
    }
    if j < n && is_plain(&s[last..]) {
        return n;
    }
    j
}

// Where the plain bytes end that are passed from i on, eight at a time, and sixteen as long as they
// last. The look at eight bytes before the blocks costs least where the next character that is not
// plain is near.
pub(crate) fn pass_plain(s: &[u8], i: usize) -> usize
    requires { i ≤ length s.now }
    ensures { PassedBy 8 s.now i result }
{
    match s[i..].split_first_chunk() {
        Some((first, _)) if is_ascii(*first) => pass(s, pass(s, i, 16), 8),
        _ => i,
    }
}

// Where the plain bytes end that a run begins with, by blocks of 32, or of fewer where the run is
// shorter. A run that is plain is told by this alone.
pub(crate) fn pass_start(s: &[u8]) -> usize
    ensures { PassedBy 32 s.now 0 result }
{
    match s.len() {
        0..=7 => if is_plain(s) { s.len() } else { 0 },
        8..=15 => pass(s, 0, 8),
        16..=31 => pass(s, 0, 16),
        _ => pass(s, 0, 32),
    }
}
