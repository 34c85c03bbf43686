// What the head of each operation's answer says: nothing refused and a value, or the refusal.
ghost use Rattle.std.specs.Prelude.{◌≡◌};
ghost use Rattle.frames.specs.Frames as Frames;

use crate::{Head, SalvageHead};
use paper::{Block, Outcome, Refusal, Salvage, SetNumber};

pub fn found(value: u64) -> Head
    ensures { result ≡ Frames.found value }
{
    Head {
        refusal: paper::refuse(0, 0),
        value: value,
    }
}

pub fn refused(refusal: Refusal, value: u64) -> Head
    ensures { result ≡ Frames.refused_with refusal value }
{
    Head {
        refusal: refusal,
        value: value,
    }
}

pub fn step(outcome: Result<Outcome, Refusal>) -> Head
    ensures { result ≡ Frames.step_head outcome }
{
    match outcome {
        Ok(Outcome::Hit) => found(0),
        Ok(Outcome::Miss) => found(1),
        Err(r) => refused(r, 2),
    }
}

pub fn block(answer: Result<Block, Refusal>) -> Head
    ensures { result ≡ Frames.block_head answer }
{
    match answer {
        Ok(b) => found(b.0 as u64),
        Err(r) => refused(r, 0),
    }
}

pub fn set(answer: Result<SetNumber, Refusal>) -> Head
    ensures { result ≡ Frames.set_head answer }
{
    match answer {
        Ok(q) => found(q.0 as u64),
        Err(r) => refused(r, 0),
    }
}

pub fn trace(answer: Result<usize, Refusal>) -> Head
    ensures { result ≡ Frames.trace_head answer }
{
    match answer {
        Ok(misses) => found(misses as u64),
        Err(r) => refused(r, 0),
    }
}

pub fn check(verdict: Result<(), Refusal>) -> Head
    ensures { result ≡ Frames.check_head verdict }
{
    match verdict {
        Ok(()) => found(0),
        Err(r) => refused(r, 0),
    }
}

pub fn write(answer: Result<usize, Refusal>) -> Head
    ensures { result ≡ Frames.write_head answer }
{
    match answer {
        Ok(length) => found(length as u64),
        Err(unfit) => refused(unfit, 0),
    }
}

pub fn find(answer: Result<Option<u16>, Refusal>) -> Head
    ensures { result ≡ Frames.find_head answer }
{
    match answer {
        Ok(Some(limit)) => found(limit as u64),
        Ok(None) => found(0),
        Err(unsound) => refused(unsound, 0),
    }
}

pub fn salvage(answer: Result<Salvage, Refusal>) -> SalvageHead
    ensures { result ≡ Frames.salvage_head answer }
{
    match answer {
        Ok(rest) => SalvageHead {
            head: found(rest.length as u64),
            count: rest.dropped as u64,
        },
        Err(r) => SalvageHead {
            head: refused(r, 0),
            count: 0,
        },
    }
}

pub fn time(answer: Result<u64, Refusal>) -> Head
    ensures { result ≡ Frames.time_head answer }
{
    match answer {
        Ok(cycles) => found(cycles),
        Err(bad) => refused(bad, 0),
    }
}
