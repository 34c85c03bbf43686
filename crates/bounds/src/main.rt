// Prints the bounds of the case file on standard input where the task is interrupted once at most, or the refusal: "Every slot has a timer tick in it."
#![tactic(auto)]

use std::io;

fn main(rt: HostRuntime) -> io::Result<()> {
    listing::program::run(&rt, "bounds", 1)
}
