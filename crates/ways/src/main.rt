// Reads a number of sets and a trace from standard input and prints what LRU misses with one way to eight, or the refusal. Where it cannot read or write, it says so on standard error.
#![tactic(auto)]

use std::io;

fn main(rt: HostRuntime) -> io::Result<()> {
    let mut bytes = [0u8; 2097155];
    listing::program::answer(&rt, "ways", &mut bytes, |input| {
        let mut out = [0u8; waylines::LONGEST];
        let n = waylines::ways(input, &mut out);
        print::send(&rt, &out, n)
    })
}
