// What is answered to which two consoles can merge or fast-forward, and its number.
ghost use Rattle.std.specs.Prelude.{◌<◌};
ghost use Rattle.command.specs.Code.{console_count};

use graph::Console;

/// How a console can take over what another one has.
#[derive(Clone, Copy, Debug, PartialEq, Eq)]
pub enum Way {
    Merge,
    FastForward,
}

/// Two consoles of which the one can merge or fast-forward the other.
#[derive(Clone, Copy, Debug, PartialEq, Eq)]
pub struct Pair {
    pub receiver: Console,
    pub giver: Console,
    pub way: Way,
    pub ghost in_range: { (receiver.0 < console_count) × (giver.0 < console_count) },
}

/// Which two consoles can merge or fast-forward.
#[derive(Clone, Copy, Debug, PartialEq, Eq)]
pub enum Verdict {
    /// None, and every head is one version.
    AllAgree,
    /// None, and there are two heads that differ.
    Stuck,
    /// The first pair, receivers rising and then givers.
    First(Pair),
}

impl Pair {
    ghost use Rattle.std.specs.Prelude.{◌≡◌};
    ghost use Rattle.room.specs.Mergeable.{number_of};
    ghost use Rattle.step.specs.Verdict.{pair_verdict};

    // The number of a pair: 256 for each kind before its own, 16 for each receiver before its own, and the giver.
    fn number(self) -> usize
        ensures { result ≡ number_of (pair_verdict self) }
    {
        let kind = match self.way {
            Way::Merge => 2,
            Way::FastForward => 3,
        };
        256 * kind + 16 * self.receiver.0 + self.giver.0
    }
}

impl From<Verdict> for usize {
    ghost use Rattle.std.specs.Prelude.{◌≡◌};
    ghost use Rattle.step.specs.Verdict.{number_of_verdict};

    ghost from_gives = { λ verdict number. number ≡ number_of_verdict verdict };

    fn from(verdict: Verdict) -> usize {
        match verdict {
            Verdict::AllAgree => 0,
            Verdict::Stuck => 256,
            Verdict::First(pair) => pair.number(),
        }
    }
}
