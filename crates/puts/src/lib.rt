// What it means to put a text into a lent list, in specs/ and proofs/, and the one function that puts bytes there, below everything that prints, answers or writes a file.
#![tactic(auto)]

ghost use Rattle.puts.specs.Put.{Fits, Put};

// Puts a word, which is bytes, at a place, and answers the place after it.
pub fn word(out: &mut [u8], at: usize, word: &[u8]) -> usize
    requires { Fits out.old at word.now }
    ensures { Put out.old at word.now result out.new }
{
    let end = at + word.len();
    // Not by the library's copy of a slice: that is a `memmove`, a name which a C library would have to bring.
    for (i, byte) in word.iter().enumerate() {
        out[at + i] = *byte;
    }
    end
}
