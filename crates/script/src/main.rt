// The script program (01): it reads groups of three lines from standard input, feeds each to a
// mapper of port 4369 and first creation 1, and prints the answer before it reads on. What it does is
// said and proved in script_lines.
#![tactic(auto)]

use std::io;

fn main(rt: HostRuntime) -> io::Result<()> {
    script_lines::run_script(&mut rt.stdin(), &mut rt.stdout())
}
