// Operation 1, the single step.
ghost use Rattle.std.specs.Prelude.{◌≡◌, length};
ghost use Rattle.frames.specs.Frames as Frames;
ghost use Rattle.frames.specs.Places as Places;

use frames::operations::Operation;
use frames::{heads, places};
use paper::{Block, Outcome, Refusal, SetState, StepAnswer};

// The arguments: policy, ways, eight lines, bits, block.
fn stepped(request: &[u8; places::ARGUMENTS_ROOM]) -> StepAnswer
    ensures { result ≡ Frames.step_asked request.now }
{
    let mut lines = [0u16; 8];
    let bytes = &request[..];
    frames::numbers::read_list(&bytes[places::STEP_LINES..], &mut lines);
    let state = SetState {
        lines: lines,
        bits: request[places::STEP_BITS],
    };
    let block = Block(layout::u16_at(request, places::STEP_BLOCK));
    bolgverk::step(request[0], request[places::STEP_WAYS], state, block)
}

// The answer: the head with hit, miss or refusal, eight lines, bits.
fn put_answer(out: &mut [u8], outcome: Result<Outcome, Refusal>, lines: [u16; 8], bits: u8) -> usize
    requires { length out.old ≡ Places.lent_at }
    ensures { Frames.Answered (Frames.step_frame (Frames.step_of outcome lines bits)) result out.new }
{
    let after_head = frames::front(
        out,
        0,
        Operation::Step as u8,
        places::OUTCOME_WIDTH,
        heads::step(outcome),
    );
    let after_lines = frames::numbers::put_list(out, after_head, &lines);
    frames::numbers::put(out, after_lines, 1, bits as u64);
    0
}

pub fn answer(request: &[u8; places::ARGUMENTS_ROOM], out: &mut [u8]) -> usize
    requires { length out.old ≡ Places.lent_at }
    ensures { Frames.Answered (Frames.step_frame (Frames.step_asked request.now)) result out.new }
{
    let a = stepped(request);
    let state = a.state;
    let lines = state.lines;
    let outcome = a.outcome;
    put_answer(out, outcome, lines, state.bits)
}
