// The programs that read an input and print what is said of it: `bounds`, `bounds0`, `ways` and `cycles`. Where one cannot read or write, it says so on standard error
// and ends as it would otherwise; its script gives a status for it.
use std::io;

// `bytes` is the room for the input: one byte more than is allowed shows that the input is longer. `tell` prints what is said of what was read.
pub fn answer<const ROOM: usize, F: FnOnce(&[u8]) -> io::Result<()>>(
    rt: &(impl Input + Eprint),
    name: &str,
    bytes: &mut [u8; ROOM],
    tell: F,
) -> io::Result<()>
    requires { F.IsAlwaysCallable tell }
{
    let Ok(n) = input::fill(&mut rt.reader(), bytes) else {
        return eprintln!(rt; "{name}: the input cannot be read to its end");
    };
    match tell(&bytes[..n]) {
        Ok(()) => Ok(()),
        Err(_) => eprintln!(rt; "{name}: the output cannot be written"),
    }
}

// `bounds` and `bounds0` hand their name and their number of interruptions.
pub fn run(rt: &(impl Input + Print + Eprint), name: &str, interruptions: u16) -> io::Result<()> {
    let mut bytes = [0u8; 65537];
    answer(rt, name, &mut bytes, |input| {
        let mut out = [0u8; crate::LONGEST];
        let n = crate::listing(input, interruptions, &mut out);
        print::send(rt, &out, n)
    })
}
