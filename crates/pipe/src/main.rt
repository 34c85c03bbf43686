// Every public operation over standard input and output: docs/PIPE.md has the framing. What is answered is made by `answers`; here is what is read, what is written, and in which order.
#![tactic(auto)]

mod channel;
mod counts;
mod limits;
mod requests;
mod room;
mod salvages;
mod writes;

use answers::{ACCESSES, NUMBERS, ROOM};
use channel::{Channel, End, Why};
use frames::operations::Operation;
use frames::places::{ARGUMENTS_ROOM, LAST_SIZE};
use room::Room;
use std::io::{Read, Write};

fn asked<R: Read, W: Write>(
    channel: &mut Channel<R, W>,
    operation: Operation,
    request: &[u8; ARGUMENTS_ROOM],
    room: &mut Room,
) -> Result<(), End> {
    match operation {
        Operation::Step | Operation::Block | Operation::Set => {
            requests::short(channel, operation, request, room)
        }
        Operation::Trace => requests::trace(channel, request, room),
        Operation::Check => requests::check(channel, request, room),
        Operation::Write => writes::write(channel, request, room),
        Operation::Find => requests::find(channel, request, room),
        Operation::Salvage => salvages::salvage(channel, request, room),
        Operation::AllWays => counts::all_ways(channel, request, room),
        Operation::Time => counts::time(channel, request, room),
    }
}

// Reads one request and answers it.
fn next<R: Read, W: Write>(channel: &mut Channel<R, W>, room: &mut Room) -> Result<(), End> {
    let mut first = [0u8; 1];
    if channel.read(&mut first).is_err() {
        return Err(End::Over);
    }
    let Some(operation) = Operation::of(first[0]) else {
        return Err(End::Stopped(Why::NoOperation));
    };
    let mut request = [0u8; ARGUMENTS_ROOM];
    let n = operation.argument_bytes();
    channel.read(&mut request[0..n])?;
    asked(channel, operation, &request, room)
}

// The last answer of all.
fn stop<R: Read, W: Write>(channel: &mut Channel<R, W>, why: Why, answered: u64) {
    let mut out = [0u8; LAST_SIZE];
    frames::last(&mut out, why as u8, answered);
    let _ = channel.write(&out);
}

// Answers one request after another, until there is none or one that cannot be answered.
fn converse<R: Read, W: Write>(channel: &mut Channel<R, W>, room: &mut Room) {
    for answered in 0..u64::MAX {
        match next(channel, room) {
            Ok(()) => {}
            Err(End::Stopped(why)) => {
                stop(channel, why, answered);
                return;
            }
            Err(End::Over) => {
                return;
            }
        }
    }
}

fn main(rt: HostRuntime) {
    let mut bytes = [0u8; ROOM];
    let mut blocks = [0u16; ACCESSES];
    let mut numbers = [0u64; NUMBERS];
    let mut channel = Channel {
        from: rt.stdin(),
        to: rt.stdout(),
    };
    let mut room = Room {
        bytes: &mut bytes,
        blocks: &mut blocks,
        numbers: &mut numbers,
    };
    converse(&mut channel, &mut room);
}
