// The MD5 message digest of RFC 1321, of a text of any length. What a digest is stands in specs/Md5.antt, in the RFC's order.
#![tactic(auto)]

ghost use Rattle.std.specs.Prelude.{◌≡◌};
ghost use Rattle.md5_digest.specs.Md5 as spec;

use padding::{bytes, last};
use rounds::compress;
use step::State;

mod padding;
mod rounds;
mod step;

// The MD5 digest of a text.
pub fn digest(text: &[u8]) -> [u8; 16]
    ensures { result ≡ spec.md5 text.now }
{
    let (blocks, _) = text.as_chunks::<64>();
    // how many blocks the padded text has
    let n = blocks.len() + (text.len() % 64 + 72) / 64;
    let mut s = State {
        a: 0x67452301,
        b: 0xefcdab89,
        c: 0x98badcfe,
        d: 0x10325476,
    };
    for x in blocks {
        s = compress(s, x);
    }
    for i in blocks.len()..n {
        s = compress(s, &last(text, i));
    }
    bytes(s)
}
