// The script program on an input whose last line, the end of a group, lacks its newline.
#![tactic(auto)]

use std::io;

fn main(rt: HostRuntime) -> io::Result<()> {
    script_lines::run_script(&mut rt.stdin(), &mut rt.stdout())
}
