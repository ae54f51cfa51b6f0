// Questions to a sound store: what its room is set to, how many versions it holds, who is present, heads and common versions, ancestors and boards.
// Each of these answers is read where it stands; `origin` walks from version to version.
#![tactic(auto, using(crate::proofs::Answers::answers))]

pub mod origin;

ghost use Rattle.std.specs.Prelude.{◌≡◌, true, false, cond, ◌<◌, ◌≤◌, length, IfOk, IfErr, IfSome, Some, None};
ghost use Rattle.board.specs.Board.{board_size};
ghost use Rattle.graph.specs.Graph.{version_count, ancestor};
ghost use Rattle.command.specs.Code.{console_count};
ghost use Rattle.refusal.specs.declared.Refusal.TheVariants.{NoStore};
ghost use Rattle.room.specs.Sound.{max_capacity};
ghost use Rattle.room.specs.Room.{Room, present, head, common, heard_count};
ghost use Rattle.room.specs.Boards.{board_of};
ghost use Rattle.store.specs.Layout.{room_in, holds_store};

use buffer::{common_members, has_member, word_at};
use graph::{Console, Version};
use refusal::Refusal;
use room::Settings;
use std::marker::Model;
use store::judge::holds;
use store::places::{COUNT, board_part, common_in, entries_part, row_part};
use store::settings::read_settings;

/// Bytes that hold a sound store. Contracts see the room that they hold.
#[derive(Drop)]
pub struct Store<'a> {
    bytes: &'a [u8],
}

impl<'a> Model for Store<'a> {
    ghost Value = { Room };

    ghost view = { λ s. room_in s.bytes.now };

    ghost invariant = { λ s. holds_store s.bytes.now ≡ true };
}

impl<'a> Store<'a> {
    /// The store in bytes that are known to hold one.
    pub fn new(bytes: &'a [u8]) -> Self
        requires { holds_store bytes.now ≡ true }
        ensures { result ≡ room_in bytes.now }
    {
        Store { bytes }
    }

    /// The store in bytes, where they hold one.
    pub fn read(bytes: &'a [u8]) -> Result<Self, Refusal>
        ensures ok { IfOk result (λ store. (holds_store bytes.now ≡ true) × (store ≡ room_in bytes.now)) }
        ensures err { IfErr result (λ refusal. (holds_store bytes.now ≡ false) × (refusal ≡ NoStore)) }
    {
        if !holds(bytes) {
            return Err(Refusal::NoStore);
        }
        Ok(Store::new(bytes))
    }

    /// The bytes that hold it.
    pub fn bytes(&self) -> &'a [u8]
        ensures { (holds_store result.now ≡ true) × (self.now ≡ room_in result.now) }
    {
        self.bytes
    }

    /// What the room is set to.
    pub fn settings(&self) -> Settings
        ensures { (result ≡ self.now.settings) × (result.capacity ≤ max_capacity) }
    {
        read_settings(self.bytes)
    }

    /// How many versions it holds, version 0 included.
    pub fn version_count(&self) -> usize
        ensures { (result ≡ version_count self.now.versions) × (result ≤ max_capacity) }
    {
        word_at(self.bytes, COUNT)
    }

    /// Whether a console is present.
    pub fn is_present(&self, c: Console) -> bool
        requires { c.0 < console_count }
        ensures { result ≡ present self.now c.0 }
    {
        common_in(self.bytes, c, c).is_some()
    }

    /// The head of a console; version 0 for one that is absent.
    pub fn head_of(&self, c: Console) -> Version
        requires { c.0 < console_count }
        ensures { (result.0 ≡ head self.now c.0) × (result.0 < version_count self.now.versions) }
    {
        common_in(self.bytes, c, c).unwrap_or(Version(0))
    }

    /// The head of a console, if it is present.
    pub fn head(&self, c: Console) -> Option<Version>
        requires { c.0 < console_count }
        ensures head { result ≡ cond (present self.now c.0) (Some (record { 0 = head self.now c.0 })) None }
        ensures below { IfSome result (λ v. v.0 < version_count self.now.versions) }
    {
        if self.is_present(c) {
            return Some(self.head_of(c));
        }
        None
    }

    /// The common version of two present consoles.
    pub fn common_of(&self, c: Console, d: Console) -> Version
        requires in_range { (c.0 < console_count) × (d.0 < console_count) }
        requires are_present { (present self.now c.0 ≡ true) × (present self.now d.0 ≡ true) }
        ensures { (result.0 ≡ common self.now c.0 d.0) × (result.0 < version_count self.now.versions) }
    {
        common_in(self.bytes, c, d).unwrap_or(Version(0))
    }

    /// Whether the first of two versions is an ancestor of the second, itself included.
    pub fn is_ancestor(&self, u: Version, v: Version) -> bool
        requires { (u.0 < version_count self.now.versions) × (v.0 < version_count self.now.versions) }
        ensures { result ≡ ancestor self.now.versions u.0 v.0 }
    {
        has_member(row_part(self.bytes, v), u.0)
    }

    /// How many entries a console has heard: the entries among the ancestors of its head.
    #[tactic(auto, using(crate::proofs::Answers::answers, crate::proofs::Heard::heard_answer))]
    pub fn heard_count(&self, c: Console) -> usize
        requires { c.0 < console_count }
        ensures { (result ≡ heard_count self.now c.0) × (result ≤ max_capacity) }
    {
        let v = self.head_of(c);
        common_members(entries_part(self.bytes), row_part(self.bytes, v))
    }

    /// The board of a version.
    pub fn board_of(&self, v: Version) -> &'a [u8]
        requires { v.0 < version_count self.now.versions }
        ensures { (result.now ≡ board_of self.now.versions v.0) × (length result.now ≡ board_size) }
    {
        board_part(self.bytes, v)
    }
}
