// "Find the facts ourselves": the smallest age limit of a block in a scope, and the rows. crates/search has the definitions that the code follows, and why they find what is gathered.
#![tactic(auto)]

ghost use Rattle.std.specs.Prelude.{◌≡◌, length, Ok};
ghost use Rattle.paper.specs.Answers.{told_find};
ghost use Rattle.paper.specs.Files.{case_of};
ghost use Rattle.paper.specs.Finding.{FindOutcome, sought, sought_rules};
ghost use Rattle.paper.specs.Known.{Laid};
ghost use Rattle.paper.specs.Verdicts.{graph_rules};
ghost use Rattle.finder.specs.Scopes.{Scoped, TrailerRead, NotRefused};

mod asking;
mod limits;
mod passes;
mod table;

use asking::{sought_of, sought_rules};
use gather::Sought;
use limits::{NO_LIMIT, lend_rows, most_asked};
use paper::{MOST_NODES, Refusal, Trailer};
use passes::settle;
use table::{TABLE, start};

// "Refusals: 1 to 10 and 26 for the graph", of which those of the layout are passed, "then 12 …, 14, and 20".
fn rules_on(
    file: &[u8],
    trailer: Trailer,
    scope: u16,
    block: u16,
    room: usize,
) -> Result<(), Refusal>
    requires { Laid file.now trailer }
    ensures { result ≡ graph_rules (case_of file.now trailer) (sought_rules (case_of file.now trailer) (sought (case_of file.now trailer) scope block) room (Ok tt)) }
{
    let mut counts: [u32; MOST_NODES] = [0; MOST_NODES];
    graph::graph_rules(file, trailer, &mut counts)?;
    sought_rules(file, trailer, scope, block, room)
}

// What is found, by a table of its own: "With 'none', as with a refusal, the lent rows stay as they were".
fn search(
    file: &[u8],
    trailer: Trailer,
    q: Sought,
    table: &mut [u16; TABLE],
    rows: &mut [u16],
) -> Result<Option<u16>, Refusal>
    requires trailer_read { TrailerRead file.now trailer }
    requires scoped { Scoped file.now trailer q }
    requires not_refused { NotRefused file.now q.scope q.block (length rows.old) }
    ensures { FindOutcome file.now q.scope q.block rows.old (told_find result) rows.new }
{
    start(table, q.nodes() as usize);
    settle(file, trailer, q, table);
    let l = most_asked(file, trailer, q, table);
    if l == NO_LIMIT {
        return Ok(None);
    }
    lend_rows(file, trailer, q, table, l, rows);
    Ok(Some(l))
}

// For a file that passes rules 1 to 5.
fn find_in(
    file: &[u8],
    trailer: Trailer,
    scope: u16,
    block: u16,
    rows: &mut [u16],
) -> Result<Option<u16>, Refusal>
    requires { TrailerRead file.now trailer }
    ensures { FindOutcome file.now scope block rows.old (told_find result) rows.new }
{
    rules_on(file, trailer, scope, block, rows.len())?;
    let mut table: [u16; TABLE] = [0; TABLE];
    search(
        file,
        trailer,
        sought_of(file, trailer, scope, block),
        &mut table,
        rows,
    )
}

// "Given a sound graph, the tool shall find, for each block and a scope handed to it, the smallest age limit up to k for which evidence exists, with the rows".
pub fn find(file: &[u8], scope: u16, block: u16, rows: &mut [u16]) -> Result<Option<u16>, Refusal>
    ensures { FindOutcome file.now scope block rows.old (told_find result) rows.new }
{
    let trailer = layout::layout_of(file)?;
    find_in(file, trailer, scope, block, rows)
}
