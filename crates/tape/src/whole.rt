// A tape that was found to be whole: its bytes, with what the room is set to and how many versions and heads they say.
ghost use Rattle.std.specs.Prelude.{◌≡◌, length};
ghost use Rattle.std.proofs.Math.Option.{some};
ghost use Rattle.tape.specs.Tape.{content_of, content_in};

use room::Settings;
use std::marker::Model;

/// A whole tape; its value is what it says.
#[derive(Clone, Drop)]
pub struct WholeTape<'a> {
    pub(crate) bytes: &'a [u8],
    pub(crate) settings: Settings,
    pub(crate) versions: usize,
    pub(crate) heads: usize,
}

impl<'a> Model for WholeTape<'a> {
    ghost use Rattle.std.specs.Prelude.{◌≡◌, length};
    ghost use Rattle.std.proofs.Math.Option.{some};
    ghost use Rattle.tape.specs.Tape.{Content, content_of, content_in};

    ghost Value = { Content };

    ghost view = { λ t. content_in t.bytes.now };

    ghost invariant = { λ t. (content_of t.bytes.now ≡ some (content_in t.bytes.now)) × (t.settings ≡ (content_in t.bytes.now).settings) × (t.versions ≡ length (content_in t.bytes.now).versions) × (t.heads ≡ length (content_in t.bytes.now).heads) };
}

impl<'a> WholeTape<'a> {
    /// The bytes of the tape.
    pub fn bytes(&self) -> &'a [u8]
        ensures { content_of result.now ≡ some self.now }
    {
        self.bytes
    }

    /// What the room is set to.
    pub fn settings(&self) -> Settings
        ensures { result ≡ self.now.settings }
    {
        self.settings
    }

    /// How many version records the tape has.
    pub fn versions(&self) -> usize
        ensures { result ≡ length self.now.versions }
    {
        self.versions
    }

    /// How many head records the tape has.
    pub fn heads(&self) -> usize
        ensures { result ≡ length self.now.heads }
    {
        self.heads
    }
}
