// A node as it tells of itself, in a name message and a challenge message: its name, flags and creation.
ghost use Rattle.std.specs.Prelude.{◌≤◌, length};

#[derive(Clone, Copy)]
pub struct Node<'a> {
    pub name: &'a [u8],
    pub flags: u64,
    pub creation: u32,
    pub ghost short: { length name.now ≤ 255 },
}
