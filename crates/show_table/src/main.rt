// The next-bits table for eight ways, to lay beside the board manual.
#![tactic(auto)]

use std::io;

fn main(rt: HostRuntime) -> io::Result<()> {
    let mut out = [0u8; patterns::LENGTH];
    patterns::patterns(&mut out);
    rt.write_all(&out)
}
