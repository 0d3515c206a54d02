// Words and one operation of a block (RFC 1321, 2 and 3.4).
ghost use Rattle.std.specs.Prelude.{◌≡◌, ◌<◌};
ghost use Rattle.md5_digest.specs.Md5 as spec;
ghost use Rattle.md5_digest.specs.Step.{Computes, IsOperation, does};

// The buffer: the four words A, B, C and D.
#[derive(Clone, Copy)]
pub(crate) struct State {
    pub(crate) a: u32,
    pub(crate) b: u32,
    pub(crate) c: u32,
    pub(crate) d: u32,
}

// An operation [abcd k s i] of the RFC, with T[i] behind it. That T is no table of its own: looked up at i, it cost a third more time.
pub(crate) type Operation = (usize, u32, usize, u32);

// X[k], a word of the block x.
fn word(x: &[u8; 64], k: usize) -> u32
    requires { k < 16 }
    ensures { result ≡ spec.word x.now k }
{
    let at = 4 * k;
    u32::from_le_bytes([x[at], x[at + 1], x[at + 2], x[at + 3]])
}

// An operation with its round's auxiliary function on the block x.
pub(crate) fn step<A: Fn(u32, u32, u32) -> u32>(
    auxiliary: &A,
    w: State,
    x: &[u8; 64],
    operation: Operation,
) -> State
    requires callable { A.IsAlwaysCallable auxiliary.now }
    requires sound { IsOperation operation }
    ensures { (m : _) → Computes (A.post auxiliary.now) m → result ≡ does m operation x.now w }
{
    let (k, s, _, t) = operation;
    let mixed = auxiliary(w.b, w.c, w.d);
    let sum = w
        .a
        .wrapping_add(mixed)
        .wrapping_add(word(x, k))
        .wrapping_add(t);
    State {
        a: w.d,
        b: w.b.wrapping_add(sum.rotate_left(s)),
        c: w.b,
        d: w.c,
    }
}
