// The tree's next bits for 2, 4 and 8 ways, to lay beside the board manual.
#![tactic(auto)]

use std::io;

fn main(rt: HostRuntime) -> io::Result<()> {
    let mut out = [0u8; patterns::TREE_LENGTH];
    patterns::tree_patterns(&mut out);
    rt.write_all(&out)
}
