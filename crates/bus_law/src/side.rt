ghost use Rattle.std.specs.Prelude.{◌≡◌, ◌<◌, length};
ghost use Rattle.bus_law.specs.Sides.{is_ready, response_of, side_after};

/// What is owed to an accepted command: whether it is an error, and the data.
#[derive(Clone, Copy, Debug, PartialEq, Eq)]
pub struct Answer {
    pub error: bool,
    pub payload: u32,
}

/// Where a bus stands.
#[derive(Clone, Copy, Debug, PartialEq, Eq)]
pub enum Turn {
    /// Cycle 0, in which no command is taken.
    Reset,
    /// No response is owed, and the next command has to wait for `left` cycles.
    Idle { left: u32 },
    /// A response is owed, and comes after `left` cycles more.
    Owed { left: u32, answer: Answer },
}

/// One bus: where it stands, and the place in the list of delays of the command that is given or answered.
#[derive(Clone, Copy, Debug, PartialEq, Eq)]
pub struct Side {
    pub turn: Turn,
    pub place: usize,
}

impl Side {
    /// Whether a command that is given in this cycle is accepted.
    pub fn is_ready(&self) -> bool
        ensures { result ≡ is_ready self.now.turn }
    {
        match self.turn {
            Turn::Idle { left } => left == 0,
            Turn::Reset | Turn::Owed { .. } => false,
        }
    }

    /// The response that comes in this cycle.
    pub fn response(&self) -> Option<Answer>
        ensures { result ≡ response_of self.now.turn }
    {
        match self.turn {
            Turn::Owed { left: 0, answer } => Some(answer),
            _ => None,
        }
    }

    /// Ends a cycle, in which a command was given or not. An accepted one is owed `answer`.
    pub fn end_cycle(&mut self, delays: &[u32], given: bool, answer: Answer)
        requires { self.old.place < length delays.now }
        ensures after { self.new ≡ side_after delays.now self.old given answer }
        ensures place { self.new.place < length delays.now }
    {
        let delay = delays[self.place];
        match self.turn {
            Turn::Reset => self.turn = Turn::Idle { left: delay },
            Turn::Idle { left } => {
                if given {
                    self.turn = if left == 0 {
                        Turn::Owed {
                            left: delay,
                            answer,
                        }
                    } else {
                        Turn::Idle { left: left - 1 }
                    };
                }
            }
            Turn::Owed { left, answer } => {
                if left == 0 {
                    self.place = (self.place + 1) % delays.len();
                    self.turn = Turn::Idle {
                        left: delays[self.place],
                    };
                } else {
                    self.turn = Turn::Owed {
                        left: left - 1,
                        answer,
                    };
                }
            }
        }
    }
}
