// Two runs of bytes, each behind its length in 2 bytes, that end a message: the name and the extra
// bytes of ALIVE2_REQ and of PORT2_RESP.
ghost use Rattle.std.specs.Prelude.{◌≡◌, ◌+◌, ◌≤◌, [], ◌∷◌, length, eqb};
ghost use Rattle.wire.specs.Output.{overwrite};
ghost use Rattle.wire.specs.Layout.{counted, run, encode_field, end_from};

// Whether the bytes end where two runs do of which the first length is at this offset.
pub fn runs_end(s: &[u8], at: usize) -> bool
    requires { at ≤ 255 }
    ensures { result ≡ eqb (length s.now) (end_from (counted 2 ∷ counted 2 ∷ []) at s.now) }
{
    let n = s.len();
    let first = at + 2;
    if n < first + 2 {
        return false;
    }
    let next = first + wire::get::<u16>(s, at) as usize;
    if n - 2 < next {
        return false;
    }
    n == next + 2 + wire::get::<u16>(s, next) as usize
}

// Writes a run behind its length at an offset, and tells the offset behind it.
pub fn put_run(out: &mut [u8], at: usize, bytes: &[u8]) -> usize
    requires { (at + 2 + length bytes.now ≤ length out.old) × (length bytes.now ≤ 65535) }
    ensures value { result ≡ at + 2 + length bytes.now }
    ensures out_after { out.new ≡ overwrite out.old at (encode_field (counted 2) (run bytes.now)) }
{
    let n = bytes.len();
    let next = at + 2;
    wire::put::<u16>(out, at, n as u16);
    wire::put_bytes(out, next, bytes);
    next + n
}
