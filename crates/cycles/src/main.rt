// Prints the time of the case file on standard input, which the penalty, the number of interruptions and the costs stand before, or the refusal.
// Where it cannot read or write, it says so on standard error.
#![tactic(auto)]

use std::io;

fn main(rt: HostRuntime) -> io::Result<()> {
    let mut bytes = [0u8; 65537];
    listing::program::answer(&rt, "cycles", &mut bytes, |input| {
        let mut out = [0u8; cyclelines::LONGEST];
        let n = cyclelines::cycles(input, &mut out);
        print::send(&rt, &out, n)
    })
}
