// What a line is (01, The script program), without its newline.
ghost use Rattle.std.specs.Prelude.{◌≡◌, true, cond, leb, Some, None};
ghost use Rattle.wire.specs.Decimal.{value};
ghost use Rattle.script_lines.specs.Text.{all_digits};
ghost use Rattle.script_lines.specs.Line.{conn_item, hex_item, item_of};

use crate::text::{all_digits, is_hex, leads_zero};

#[derive(Clone, Copy)]
pub enum Item {
    Op,
    Conn(u32),
    Hex,
}

// The number that some digits say, if it is below 2 to the 32.
fn small_number(text: &[u8]) -> Option<u32>
    requires { all_digits 10 text.now ≡ true }
    ensures { result ≡ cond (leb (value text.now) 4294967295) (Some (value text.now)) None }
{
    let mut v: u32 = 0;
    for &c in text {
        v = v.checked_mul(10)?.checked_add((c - 48) as u32)?;
    }
    Some(v)
}

fn conn_item(text: &[u8]) -> Option<Item>
    ensures { result ≡ conn_item text.now }
{
    if text.is_empty() {
        return None;
    }
    if !all_digits(text, 10) {
        return None;
    }
    if leads_zero(text) {
        return None;
    }
    Some(Item::Conn(small_number(text)?))
}

fn hex_item(text: &[u8]) -> Option<Item>
    ensures { result ≡ hex_item text.now }
{
    if is_hex(text) { Some(Item::Hex) } else { None }
}

// Nothing: the line is malformed.
pub fn item_of(line: &[u8]) -> Option<Item>
    ensures { result ≡ item_of line.now }
{
    if 800 < line.len() {
        return None;
    }
    if line == b"op=req".as_slice() {
        return Some(Item::Op);
    }
    if let Some(number) = line.strip_prefix(b"conn=") {
        return conn_item(number);
    }
    hex_item(line.strip_prefix(b"hex=")?)
}
