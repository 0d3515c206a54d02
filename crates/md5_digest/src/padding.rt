// The padding of a text (RFC 1321, 3.1 and 3.2) as blocks, and the output (3.5).
ghost use Rattle.std.specs.Prelude.{◌≡◌, ◌+◌, ◌*◌, ◌<◌, ◌≤◌, length};
ghost use Rattle.md5_digest.specs.Md5 as spec;
ghost use Rattle.md5_digest.specs.Step.{Shows};

use crate::step::State;

// The text's bytes from at on, the one bit behind them, and zeros.
fn tail(text: &[u8], at: usize) -> [u8; 64]
    requires { length text.now < at + 64 }
    ensures { Shows (spec.with_bits text.now) result at }
{
    let mut b = [0u8; 64];
    let n = text.len();
    if at <= n {
        let end = n - at;
        b[..end].copy_from_slice(&text[at..]);
        b[end] = 128;
    }
    b
}

// Block i of the padded text, where that is no block of the text itself: most digests are of one such block.
pub(crate) fn last(text: &[u8], i: usize) -> [u8; 64]
    requires i_in_bounds { 64 * i + 64 ≤ length (spec.pad text.now) }
    requires text_len_bound { length text.now < 64 * i + 64 }
    ensures { result ≡ spec.block (spec.pad text.now) i }
{
    let at = 64 * i;
    let n = text.len();
    let mut b = tail(text, at);
    if n < at + 56 {
        b[56..].copy_from_slice(&n.wrapping_mul(8).to_le_bytes());
    }
    b
}

// The four words as bytes, the low-order byte of A first.
pub(crate) fn bytes(s: State) -> [u8; 16]
    ensures { result ≡ spec.output s }
{
    let mut out = [0u8; 16];
    out[..4].copy_from_slice(&s.a.to_le_bytes());
    out[4..8].copy_from_slice(&s.b.to_le_bytes());
    out[8..12].copy_from_slice(&s.c.to_le_bytes());
    out[12..].copy_from_slice(&s.d.to_le_bytes());
    out
}
