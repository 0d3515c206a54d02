ghost use Rattle.std.specs.Prelude.{◌≡◌, ◌≤◌, length};
ghost use Rattle.wire.specs.Run.{same_bytes};
ghost use Rattle.handshake_rules.specs.Cookie.{chosen, allowed, fit, digest_of};

use handshake_rules::endpoint::Stage;

// Cookies and the digest (01, The gate).

// A cookie short enough for a digest.
#[derive(Clone, Copy)]
pub struct Cookie<'a> {
    pub bytes: &'a [u8],
    pub ghost short: { length bytes.now ≤ 255 },
}

// The peer's own cookie if it has any bytes, otherwise the default.
pub fn choose<'a>(own: &'a [u8], standard: &'a [u8]) -> &'a [u8]
    ensures { result.now ≡ chosen own.now standard.now }
{
    if own.is_empty() {
        return standard;
    }
    own
}

// 1 to 255 bytes.
#[tactic(auto, unfolding(handshake_rules::specs::Cookie::allowed))]
fn is_allowed(cookie: &[u8]) -> bool
    ensures { result ≡ allowed cookie.now }
{
    !cookie.is_empty() && cookie.len() <= 255
}

// Whether the cookie is allowed, or the stage needs none.
#[tactic(auto, unfolding(handshake_rules::specs::Cookie::fit))]
pub fn is_fit(stage: Stage, cookie: &[u8]) -> bool
    ensures { result ≡ fit stage cookie.now cookie.now }
{
    match stage {
        Stage::AwaitsReply | Stage::AwaitsChallenge | Stage::AwaitsAck => is_allowed(cookie),
        Stage::Free
        | Stage::AwaitsName
        | Stage::AwaitsAlive
        | Stage::AwaitsStatus
        | Stage::Connected => true,
    }
}

// The digest of a challenge with a cookie: of the cookie's bytes, and the challenge in decimal behind
// them. Both stand in an array, since nothing is allocated.
pub fn digest(challenge: u32, cookie: &[u8]) -> [u8; 16]
    requires { length cookie.now ≤ 255 }
    ensures { result ≡ digest_of challenge cookie.now }
{
    let mut text = [0u8; 265];
    wire::put_bytes(&mut text, 0, cookie);
    let n = cookie.len();
    let m = n + wire::put_decimal(&mut text, n, challenge);
    md5_digest::digest(&text[..m])
}

// Whether these sixteen bytes are the digest of a challenge.
pub fn is_digest(got: &[u8], challenge: u32, cookie: &[u8]) -> bool
    requires { (length got.now ≡ 16) × (length cookie.now ≤ 255) }
    ensures { result ≡ same_bytes got.now (digest_of challenge cookie.now) }
{
    let right = digest(challenge, cookie);
    wire::same16(got, &right)
}
