// "writes the rest": the graph, the facts that are kept, and the trailer with their number; and the list of those that are dropped.
ghost use Rattle.std.specs.Prelude.{◌≡◌, [], ◌∷◌, ◌+◌, ◌*◌, ◌≤◌, length};
ghost use Rattle.paper.specs.Files.{trailer_of, facts_at};
ghost use Rattle.paper.specs.Known.{Laid};
ghost use Rattle.paper.specs.Lists.{part};
ghost use Rattle.paper.specs.OneFact.{words, trailer_with};
ghost use Rattle.paper.specs.Records.{trailer_size};
ghost use Rattle.paper.specs.Salvaging.{kept, fact_parts, salvaged};
ghost use Rattle.puts.specs.Put.{Put};
ghost use Rattle.salvager.specs.Sieve.{Sieved};

use crate::Sifted;
use layout::places::FACTS_FIELD;
use paper::Trailer;
use puts::word;

// The first n numbers of the table. Number by number, for the reason that `puts::word` gives.
pub fn copy_numbers(list: &mut [u64], whys: &[u64], n: usize)
    requires n_in_bounds { n ≤ length list.old }
    requires n_in_bounds_2 { n ≤ length whys.now }
    ensures { Put list.old 0 (part whys.now 0 n) n list.new }
{
    for i in 0..n {
        list[i] = whys[i];
    }
}

// "every kept fact unchanged", one after another. (The reasons are handed on for the contract.)
fn put_facts(
    out: &mut [u8],
    at: usize,
    file: &[u8],
    s: Sifted,
    spans: &[usize],
    whys: &[u64],
) -> usize
    requires sieved { Sieved file.now (trailer_of file.now) s spans.now whys.now }
    requires size_in_bounds { at + s.size ≤ length out.old }
    ensures put { Put out.old at (fact_parts file.now (trailer_of file.now) (kept file.now)) result out.new }
    ensures value { result ≡ at + s.size }
{
    let mut to = at;
    for j in 0..s.kept as usize {
        to = word(out, to, &file[spans[2 * j]..spans[2 * j + 1]]);
    }
    to
}

// The file's trailer, with n for the number of facts.
fn put_trailer(out: &mut [u8], at: usize, file: &[u8], n: u16) -> usize
    requires trailer_size_in_bounds { trailer_size ≤ length file.now }
    requires trailer_size_in_bounds_2 { at + trailer_size ≤ length out.old }
    ensures { Put out.old at (trailer_with file.now n) result out.new }
{
    let end = layout::end_of(file);
    let count = end + FACTS_FIELD;
    let facts = word(out, at, &file[end..count]);
    // "16-bit numbers", "little-endian"
    let marks = word(out, facts, &n.to_le_bytes());
    word(out, marks, &file[count + 2..])
}

// The graph, the facts, the trailer.
pub fn put_file(
    out: &mut [u8],
    file: &[u8],
    trailer: Trailer,
    s: Sifted,
    spans: &[usize],
    whys: &[u64],
) -> usize
    requires laid { Laid file.now trailer }
    requires trailer_value { trailer ≡ trailer_of file.now }
    requires sieved { Sieved file.now (trailer_of file.now) s spans.now whys.now }
    requires trailer_size_in_bounds { facts_at trailer + s.size + trailer_size ≤ length out.old }
    ensures { Put out.old 0 (salvaged file.now) result out.new }
{
    let graph = word(out, 0, &file[..layout::facts_at(trailer)]);
    let facts = put_facts(out, graph, file, s, spans, whys);
    put_trailer(out, facts, file, s.kept)
}
