use em_frames::BeginFault;
use em_space::EmFault;

/// Why there is nothing to print.
#[derive(Clone, Copy, Debug, PartialEq, Eq, Drop)]
pub enum Stop {
    /// The words aren't a number of 1 to 10 digits, and a file or none.
    Usage,
    /// The line couldn't be printed.
    Output,
    /// There was no memory for the words, the frames or the device.
    NoMemory,
    /// The device wasn't begun.
    Begin(BeginFault),
    /// A call on the rig gave up.
    Em(EmFault),
}

impl Stop {
    /// The exit code: that of `emtool` for the like.
    pub fn code(&self) -> u8 {
        match self {
            Stop::Usage => 1,
            Stop::Output => 4,
            Stop::Begin(BeginFault::Failed) | Stop::Em(EmFault::DeviceFault) => 5,
            Stop::Em(EmFault::Full { used: _ }) => 6,
            Stop::NoMemory | Stop::Begin(BeginFault::NoMemory) => 7,
            Stop::Em(EmFault::Damaged { block: _ }) => 8,
        }
    }

    /// The line for the error stream.
    pub fn message(&self) -> &'static str {
        match self {
            Stop::Usage => "the words are N [FILE], N a number of 1 to 10 digits",
            Stop::Output => "the line couldn't be printed",
            Stop::Begin(BeginFault::Failed) | Stop::Em(EmFault::DeviceFault) => {
                "the device failed"
            }
            Stop::Em(EmFault::Full { used: _ }) => "the device is full",
            Stop::NoMemory | Stop::Begin(BeginFault::NoMemory) => "no memory",
            Stop::Em(EmFault::Damaged { block: _ }) => "a block is damaged",
        }
    }
}
