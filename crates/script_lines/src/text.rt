// Hexadecimal text both ways, and digits of decimal text (01, The script program).
ghost use Rattle.std.specs.Prelude.{◌≡◌, ◌+◌, ◌*◌, ◌≤◌, ◌<◌, true, ltb, length};
ghost use Rattle.wire.specs.Output.{overwrite, written};
ghost use Rattle.script_lines.specs.Text.{digit_value, digit_char, all_digits, is_hex, unhex, hex_of, leads_zero};

// Whether a character is a digit of lower-case hexadecimal, below the radix. Not `to_digit` of std, which takes
// capitals too; and by no Option of its value, by which a line of hexadecimal took 1.4 to 2 times as long.
fn is_digit(c: u8, radix: u8) -> bool
    requires { radix ≤ 16 }
    ensures { result ≡ ltb (digit_value c) radix }
{
    match c {
        b'0'..=b'9' => c - 48 < radix,
        b'a'..=b'f' => c - 87 < radix,
        _ => false,
    }
}

// A digit's value.
fn digit_value(c: u8) -> u8
    requires { digit_value c < 16 }
    ensures { result ≡ digit_value c }
{
    if c <= b'9' { c - 48 } else { c - 87 }
}

// Whether every character is a digit below the radix.
pub(crate) fn all_digits(text: &[u8], radix: u8) -> bool
    requires { radix ≤ 16 }
    ensures { result ≡ all_digits radix text.now }
{
    text.iter().all(|c| is_digit(*c, radix))
}

pub(crate) fn is_hex(text: &[u8]) -> bool
    ensures { result ≡ is_hex text.now }
{
    text.len() % 2 == 0 && all_digits(text, 16)
}

// Whether a zero leads and is not the only digit.
pub(crate) fn leads_zero(text: &[u8]) -> bool
    ensures { result ≡ leads_zero text.now }
{
    1 < text.len() && text[0] == b'0'
}

// The byte that two digits say.
fn byte_of(a: u8, b: u8) -> u8
    requires { (digit_value a < 16) × (digit_value b < 16) }
    ensures { result ≡ digit_value a * 16 + digit_value b }
{
    digit_value(a) * 16 + digit_value(b)
}

// Writes the bytes that hexadecimal text says, and tells how many they are.
pub(crate) fn get_hex(text: &[u8], out: &mut [u8]) -> usize
    requires text_value { is_hex text.now ≡ true }
    requires text_len_bound { length text.now ≤ 2 * length out.old }
    ensures value { result ≡ length (unhex text.now) }
    ensures out_after { out.new ≡ written (unhex text.now) out.old }
{
    let pairs = text.as_chunks::<2>().0;
    for (k, pair) in pairs.iter().enumerate() {
        out[k] = byte_of(pair[0], pair[1]);
    }
    pairs.len()
}

fn digit_char(v: u8) -> u8
    requires { v < 16 }
    ensures { result ≡ digit_char v }
{
    if v < 10 { b'0' + v } else { 87 + v }
}

// Writes bytes as hexadecimal text at an offset.
pub(crate) fn put_hex(out: &mut [u8], at: usize, src: &[u8])
    requires { at + 2 * length src.now ≤ length out.old }
    ensures { out.new ≡ overwrite out.old at (hex_of src.now) }
{
    for (i, &b) in src.iter().enumerate() {
        let pair = [digit_char(b / 16), digit_char(b % 16)];
        wire::put_bytes(out, at + 2 * i, &pair);
    }
}
