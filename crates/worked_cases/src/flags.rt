// P3: what making tells of flags.
use handshake::SIZE;
use std::io;
use std::io::Write;

const CASES: [(&str, u64); 13] = [
    ("the required bits alone", 0x403000104),
    ("without bit 2", 0x403000100),
    ("without bit 8", 0x403000004),
    ("without bit 24", 0x402000104),
    ("without bit 25", 0x401000104),
    ("without bit 34", 0x003000104),
    ("without all five", 0),
    ("without 25 and 34", 0x1000104),
    ("with bit 33", 0x603000104),
    ("with bit 33 and without bit 34", 0x203000104),
    ("with every bit above 34", 0xfffffffc03000104),
    ("with every bit but 33", 0xfffffffdffffffff),
    ("with every bit", 0xffffffffffffffff),
];

// What is printed of a refusal is this program's own: no Display of Why says it plainer for all.
fn show(to: &mut impl Write, flags: u64) -> io::Result<()> {
    let mut state = [0u8; SIZE];
    match handshake::calls::make(&mut state, b"a@b", flags, 7) {
        Ok(()) => writeln!(to, "made"),
        Err(refusal) => {
            let why = refusal.why();
            writeln!(to, "refused {} {} {}", why.number, why.missing, why.lowest)
        }
    }
}

pub(crate) fn show_flags(to: &mut impl Write) -> io::Result<()> {
    for (text, flags) in CASES {
        write!(to, "P3 {text}: ")?;
        show(to, flags)?;
    }
    Ok(())
}
