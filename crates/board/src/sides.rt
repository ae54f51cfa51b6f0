// What a merge is made of: the bytes of the base, of the receiver and of the giver, which always go together.
ghost use Rattle.std.specs.Prelude.{◌≡◌, ◌*◌, ◌<◌, length};
ghost use Rattle.buffer.specs.Field.{part};
ghost use Rattle.board.specs.Board.{strip_size, strip_count};

use crate::{BOARD_SIZE, STRIP_SIZE, strip_of};

// Three boards or three strips, N bytes each. They are slices with their length beside them, since an array that a field lends is not lent again
// as a slice, which the fields' readers take.
#[derive(Clone, Copy)]
pub(crate) struct Sides<'a, const N: usize> {
    pub(crate) base: &'a [u8],
    pub(crate) mine: &'a [u8],
    pub(crate) given: &'a [u8],
    ghost base_whole: { length base.now ≡ N },
    ghost mine_whole: { length mine.now ≡ N },
    ghost given_whole: { length given.now ≡ N },
}

impl<'a> Sides<'a, BOARD_SIZE> {
    // Strip k of each board.
    pub(crate) fn strips(&self, k: usize) -> Sides<'a, STRIP_SIZE>
        requires { k < strip_count }
        ensures base { result.base.now ≡ part self.now.base.now (strip_size * k) strip_size }
        ensures mine { result.mine.now ≡ part self.now.mine.now (strip_size * k) strip_size }
        ensures given { result.given.now ≡ part self.now.given.now (strip_size * k) strip_size }
    {
        Sides {
            base: strip_of(self.base, k),
            mine: strip_of(self.mine, k),
            given: strip_of(self.given, k),
        }
    }
}
