//! The types that the rules (specs/) and the tag's code share, each declared once. specs/Answers.antt gives the numbers that
//! document 01 has for the cases of the answers.
#![tactic(auto)]

/// "The session is kept by value beside the memory": three validated indexes, and the name, ID and PA arrays. The arrays
/// stand first, so that a copy of 16 bytes at a time meets each as it was stored: a processor waits where one load spans
/// two stores that were just made.
#[derive(Clone, Copy)]
pub struct Session {
    pub name: [u8; 16],
    pub id: [u8; 16],
    pub pa: [u8; 16],
    pub read: usize,
    pub write: usize,
    pub edit: usize,
}

/// The stages of model 3.
#[derive(Clone, Copy)]
pub enum Stage {
    Zero,
    One,
    Two,
}

/// The stages of model 4: before and after the insertion of the host that owns the segment.
#[derive(Clone, Copy)]
pub enum KeyStage {
    Filling,
    Inserted,
}

/// A segment's model, 0 to 4: "a record whose model carries its own stage".
#[derive(Clone, Copy)]
pub enum Model {
    Default,
    WriteOnce,
    Counter,
    Receiver(Stage),
    SharedKey(KeyStage),
}

/// A unit, without its name: control bits, model, and the read, write and edit PIN index.
#[derive(Clone, Copy)]
pub struct Unit {
    pub rd: bool,
    pub rdpin: bool,
    pub wr: bool,
    pub wrpin: bool,
    pub pn: bool,
    pub ne: bool,
    pub model: Model,
    pub read: usize,
    pub write: usize,
    pub edit: usize,
}

/// The seven registers, in the order of their addresses.
#[derive(Clone, Copy)]
pub enum Register {
    Read,
    Write,
    Edit,
    Name,
    Id,
    Commit,
    Pa,
}

/// The places of the memory map. `Public(0)` is the first public segment.
#[derive(Clone, Copy)]
pub enum Place {
    Header,
    Hidden,
    RegisterOf(Register),
    Pins,
    Readers,
    UnitOf(usize),
    Spare,
    Segment(usize),
    Public(usize),
}

/// The refusals 1 to 15, 18 and 19 by their numbers; 16 is a run's stop and 17 the cipher's.
#[derive(Clone, Copy)]
pub enum Refusal {
    Unsound = 1,
    Count,
    Outside,
    NeverTaken,
    Malformed,
    Forbidden,
    OtherPin,
    OtherName,
    BadRegister,
    FlagUsed,
    WrongResponse,
    NotNext,
    BadEdit,
    OtherModel,
    Unreadable,
    Repeated = 18,
    BadInsertion,
}

/// What a command answers: nothing, or why it is refused. The bytes of a granted read stand in its output.
pub type Answer = Result<(), Refusal>;

/// A command's answer, and the session after it, which stands first for the same reason.
#[derive(Clone, Copy)]
pub struct Outcome {
    pub session: Session,
    pub answer: Answer,
}

/// What ends a run over a log: its end, a 15 or a 16.
#[derive(Clone, Copy)]
pub enum Stop {
    End = 0,
    BadCommand = 15,
    OutputFull = 16,
}

/// What a run over a log returns: "bytes read .., bytes written, the stop (end, 15, 16) and the session".
#[derive(Clone, Copy)]
pub struct Run {
    pub read: usize,
    pub written: usize,
    pub stop: Stop,
    pub session: Session,
}
