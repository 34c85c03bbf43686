// The operations, by the numbers that docs/PIPE.md gives them.
ghost use Rattle.std.specs.Prelude.{◌≡◌, ◌≤◌, IfSome};
ghost use Rattle.frames.specs.Frames.{argument_bytes};
ghost use Rattle.frames.specs.Operations.{number_of};
ghost use Rattle.frames.specs.Places.{arguments_room};

use crate::places;

#[derive(Clone, Copy)]
pub enum Operation {
    Step = 1,
    Block = 2,
    Set = 3,
    Trace = 4,
    Check = 5,
    Write = 6,
    Find = 7,
    Salvage = 8,
    AllWays = 9,
    Time = 10,
}

impl Operation {
    pub fn of(number: u8) -> Option<Operation>
        ensures known { IfSome result (λ o. number_of o ≡ number) }
        ensures unknown { result ≡ None → argument_bytes number ≡ 0 }
    {
        match number {
            1 => Some(Operation::Step),
            2 => Some(Operation::Block),
            3 => Some(Operation::Set),
            4 => Some(Operation::Trace),
            5 => Some(Operation::Check),
            6 => Some(Operation::Write),
            7 => Some(Operation::Find),
            8 => Some(Operation::Salvage),
            9 => Some(Operation::AllWays),
            10 => Some(Operation::Time),
            _ => None,
        }
    }

    pub fn number(self) -> u8
        ensures { result ≡ number_of self }
    {
        self as u8
    }

    // How many bytes its arguments take, the lent memory left out. A writer's take most.
    #[tactic(auto, unfolding(crate::specs::Frames::argument_bytes))]
    pub fn argument_bytes(self) -> usize
        ensures value { result ≡ argument_bytes (number_of self) }
        ensures upper_bound { result ≤ arguments_room }
    {
        match self {
            Operation::Step => places::STEP_SIZE,
            Operation::Block => places::BLOCK_SIZE,
            Operation::Set => places::SET_SIZE,
            Operation::Trace => places::TRACE_SIZE,
            Operation::Check => places::CHECK_SIZE,
            Operation::Write => places::WRITE_SIZE,
            Operation::Find => places::FIND_SIZE,
            Operation::Salvage => places::SALVAGE_SIZE,
            Operation::AllWays => places::WAYS_SIZE,
            Operation::Time => places::TIME_SIZE,
        }
    }
}
