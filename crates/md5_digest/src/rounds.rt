// The four rounds of a block (RFC 1321, 3.4).
ghost use Rattle.std.specs.Prelude.{◌≡◌, true};
ghost use Rattle.md5_digest.specs.Md5 as spec;
ghost use Rattle.md5_digest.specs.Step.{Computes, are_operations, listed};

use crate::step::{Operation, State, step};

const ROUND1: [Operation; 16] = [
    (0, 7, 1, 0xd76aa478),
    (1, 12, 2, 0xe8c7b756),
    (2, 17, 3, 0x242070db),
    (3, 22, 4, 0xc1bdceee),
    (4, 7, 5, 0xf57c0faf),
    (5, 12, 6, 0x4787c62a),
    (6, 17, 7, 0xa8304613),
    (7, 22, 8, 0xfd469501),
    (8, 7, 9, 0x698098d8),
    (9, 12, 10, 0x8b44f7af),
    (10, 17, 11, 0xffff5bb1),
    (11, 22, 12, 0x895cd7be),
    (12, 7, 13, 0x6b901122),
    (13, 12, 14, 0xfd987193),
    (14, 17, 15, 0xa679438e),
    (15, 22, 16, 0x49b40821),
];

const ROUND2: [Operation; 16] = [
    (1, 5, 17, 0xf61e2562),
    (6, 9, 18, 0xc040b340),
    (11, 14, 19, 0x265e5a51),
    (0, 20, 20, 0xe9b6c7aa),
    (5, 5, 21, 0xd62f105d),
    (10, 9, 22, 0x02441453),
    (15, 14, 23, 0xd8a1e681),
    (4, 20, 24, 0xe7d3fbc8),
    (9, 5, 25, 0x21e1cde6),
    (14, 9, 26, 0xc33707d6),
    (3, 14, 27, 0xf4d50d87),
    (8, 20, 28, 0x455a14ed),
    (13, 5, 29, 0xa9e3e905),
    (2, 9, 30, 0xfcefa3f8),
    (7, 14, 31, 0x676f02d9),
    (12, 20, 32, 0x8d2a4c8a),
];

const ROUND3: [Operation; 16] = [
    (5, 4, 33, 0xfffa3942),
    (8, 11, 34, 0x8771f681),
    (11, 16, 35, 0x6d9d6122),
    (14, 23, 36, 0xfde5380c),
    (1, 4, 37, 0xa4beea44),
    (4, 11, 38, 0x4bdecfa9),
    (7, 16, 39, 0xf6bb4b60),
    (10, 23, 40, 0xbebfbc70),
    (13, 4, 41, 0x289b7ec6),
    (0, 11, 42, 0xeaa127fa),
    (3, 16, 43, 0xd4ef3085),
    (6, 23, 44, 0x04881d05),
    (9, 4, 45, 0xd9d4d039),
    (12, 11, 46, 0xe6db99e5),
    (15, 16, 47, 0x1fa27cf8),
    (2, 23, 48, 0xc4ac5665),
];

const ROUND4: [Operation; 16] = [
    (0, 6, 49, 0xf4292244),
    (7, 10, 50, 0x432aff97),
    (14, 15, 51, 0xab9423a7),
    (5, 21, 52, 0xfc93a039),
    (12, 6, 53, 0x655b59c3),
    (3, 10, 54, 0x8f0ccc92),
    (10, 15, 55, 0xffeff47d),
    (1, 21, 56, 0x85845dd1),
    (8, 6, 57, 0x6fa87e4f),
    (15, 10, 58, 0xfe2ce6e0),
    (6, 15, 59, 0xa3014314),
    (13, 21, 60, 0x4e0811a1),
    (4, 6, 61, 0xf7537e82),
    (11, 10, 62, 0xbd3af235),
    (2, 15, 63, 0x2ad7d2bb),
    (9, 21, 64, 0xeb86d391),
];

// The auxiliary functions F, G, H and I.
fn f(x: u32, y: u32, z: u32) -> u32
    ensures { result ≡ spec.F x y z }
{
    (x & y) | (!x & z)
}

fn g(x: u32, y: u32, z: u32) -> u32
    ensures { result ≡ spec.G x y z }
{
    (x & z) | (y & !z)
}

fn h(x: u32, y: u32, z: u32) -> u32
    ensures { result ≡ spec.H x y z }
{
    x ^ y ^ z
}

fn i(x: u32, y: u32, z: u32) -> u32
    ensures { result ≡ spec.I x y z }
{
    y ^ (x | !z)
}

// A round with its auxiliary function, by its table.
fn round<A: Fn(u32, u32, u32) -> u32>(
    auxiliary: A,
    table: &[Operation; 16],
    w: State,
    x: &[u8; 64],
) -> State
    requires callable { A.IsAlwaysCallable auxiliary }
    requires sound { are_operations table.now ≡ true }
    ensures { (m : _) → Computes (A.post auxiliary) m → result ≡ spec.run x.now (listed m table.now) w }
{
    let mut w = w;
    for operation in table {
        w = step(&auxiliary, w, x, *operation);
    }
    w
}

// The buffer after the block x.
pub(crate) fn compress(s: State, x: &[u8; 64]) -> State
    ensures { result ≡ spec.compress s x.now }
{
    let r = round(f, &ROUND1, s, x);
    let r = round(g, &ROUND2, r, x);
    let r = round(h, &ROUND3, r, x);
    let r = round(i, &ROUND4, r, x);
    State {
        a: s.a.wrapping_add(r.a),
        b: s.b.wrapping_add(r.b),
        c: s.c.wrapping_add(r.c),
        d: s.d.wrapping_add(r.d),
    }
}
