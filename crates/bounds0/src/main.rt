// Prints the bounds of the case file on standard input where nothing interrupts the task, or the refusal: the listing of document 01, for "the nightly comparison".
#![tactic(auto)]

use std::io;

fn main(rt: HostRuntime) -> io::Result<()> {
    listing::program::run(&rt, "bounds0", 0)
}
