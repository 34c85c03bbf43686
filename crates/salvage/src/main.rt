// Reads a case file from standard input, writes what is left of it without the facts that are not sound to standard output, and says on standard error
// which facts were dropped, or why the file is refused. Where it cannot read or write, it says so there too.
#![tactic(auto)]

use std::io;
use std::io::Write;

// One byte more than is allowed shows that the input is longer. It writes to two places, and so is no `listing::program::answer`.
fn main(rt: HostRuntime) -> io::Result<()> {
    let mut bytes = [0u8; 65537];
    let mut out = [0u8; 65536];
    let mut text = [0u8; salvaging::LONGEST];
    let Ok(n) = input::fill(&mut rt.stdin(), &mut bytes) else {
        return eprintln!(rt; "salvage: the input cannot be read to its end");
    };
    let saved = salvaging::salvage(&bytes[..n], &mut out, &mut text);
    let said = saved.said;
    let rest = saved.rest;
    let told = rt.stderr().write_all(&text[0..said]);
    match rt.write_all(&out[0..rest]) {
        Ok(()) => told,
        Err(_) => eprintln!(rt; "salvage: the output cannot be written"),
    }
}
