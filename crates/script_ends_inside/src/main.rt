// The script program on an input that ends inside a group, in a line without its newline.
#![tactic(auto)]

use std::io;

fn main(rt: HostRuntime) -> io::Result<()> {
    script_lines::run_script(&mut rt.stdin(), &mut rt.stdout())
}
