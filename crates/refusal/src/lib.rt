// Refusals: why the unit refuses, each with the number that a panel is told.
#![tactic(auto)]

ghost use Rattle.std.specs.Prelude.{◌≡◌, cond, Ok, Err};
ghost use Rattle.refusal.specs.Answer.{number_of};

/// Why a command, a question or a tape is refused.
#[derive(Clone, Copy, Debug, PartialEq, Eq)]
pub enum Refusal {
    /// Empty command, or code outside 01 to 0C.
    NoCommand = 1,
    /// Length not the code's.
    WrongLength = 2,
    /// Console above 15.
    ConsoleTooHigh = 3,
    /// Strip above 31.
    StripTooHigh = 4,
    /// Operand of an entry too high; of a question, its cell or its choice of a store.
    OperandTooHigh = 5,
    /// The same console twice in a fork, a merge or a fast-forward.
    SameConsole = 6,
    /// The tape is no sequence of whole records with at least one head.
    BrokenTape = 7,
    /// Capacity outside 1 to 1,024.
    BadCapacity = 8,
    /// A number on the tape is out of range.
    TapeOutOfRange = 9,
    /// The tape's versions and heads give no sound store.
    TapeNotSound = 10,
    /// The bytes hold no sound store.
    NoStore = 11,
    /// A named console is absent; of a fork, the old one.
    ConsoleAbsent = 12,
    /// Fork's new console is present.
    ConsolePresent = 13,
    /// The giver's head is an ancestor of the receiver's.
    GiverBehind = 14,
    /// Merge: the receiver's head is an ancestor of the giver's.
    ReceiverBehind = 15,
    /// Fast-forward: the receiver's head is no ancestor of the giver's.
    NotBehind = 16,
    /// Merge: a third console's common versions with the two are apart.
    ThirdConsole = 17,
    /// No version left.
    Full = 18,
    /// The buffer for a store, a board or a tape is too short.
    BufferTooShort = 19,
    /// Leave: console 0 stays for good.
    Console0Leaves = 20,
    /// Leave: the console's head is an ancestor of no other console's head.
    BehindNoOther = 21,
    /// In a room with a hub: fork off another console than 0, merge or fast-forward of two others.
    NotThroughHub = 22,
    /// Hub: the common version of two consoles is no ancestor of console 0's head.
    HubLacksCommon = 23,
}

impl From<Refusal> for u32 {
    ghost from_gives = { λ refusal number. number ≡ number_of refusal };

    fn from(refusal: Refusal) -> u32 {
        refusal as u32
    }
}

/// Refused where the case is there.
pub fn refuse_if(refusal: Refusal, applies: bool) -> Result<(), Refusal>
    ensures { result ≡ cond applies (Err refusal) (Ok tt) }
{
    if applies { Err(refusal) } else { Ok(()) }
}
