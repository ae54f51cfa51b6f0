// The ancestry rows of versions where they stand: in the blocks of a store, one behind the other in an array of their own, or at any place and
// distance.
ghost use Rattle.std.specs.Prelude.{◌≡◌, ◌+◌, ◌*◌, ◌≤◌, length};
ghost use Rattle.buffer.specs.Field.{part};
ghost use Rattle.store.specs.Layout.{row_size, row_at};
ghost use Rattle.store.specs.Rows.{row_of, HasRow};

use crate::places::{ROW, row_in_blocks};
use buffer::part_of;
use graph::Version;

/// The row of a version among rows one behind the other.
pub fn row_in_sequence(rows: &[u8], v: Version) -> &[u8]
    requires { row_size * v.0 + row_size ≤ length rows.now }
    ensures { (result.now ≡ part rows.now (row_size * v.0) row_size) × (length result.now ≡ row_size) }
{
    part_of(rows, ROW * v.0, ROW)
}

// The row of a version among rows at a distance from one another.
fn row_at_distance(bytes: &[u8], first: usize, stride: usize, v: Version) -> &[u8]
    requires { first + stride * v.0 + row_size ≤ length bytes.now }
    ensures { (result.now ≡ part bytes.now (first + stride * v.0) row_size) × (length result.now ≡ row_size) }
{
    part_of(bytes, first + stride * v.0, ROW)
}

/// The bytes that hold the rows of the versions from 0 on. The first two are the cases that there are, by whose names no proof needs an equation
/// of places; what is promised of rows is promised of any.
#[derive(Clone, Copy)]
pub enum Rows<'a> {
    InBlocks(&'a [u8]),
    InSequence(&'a [u8]),
    Apart {
        bytes: &'a [u8],
        first: usize,
        stride: usize,
    },
}

impl<'a> Rows<'a> {
    /// The row of a version.
    pub fn of(&self, v: Version) -> &'a [u8]
        requires { HasRow self.now v.0 }
        ensures { (result.now ≡ row_of self.now v.0) × (length result.now ≡ row_size) }
    {
        match *self {
            Rows::InBlocks(store) => row_in_blocks(store, v),
            Rows::InSequence(rows) => row_in_sequence(rows, v),
            Rows::Apart {
                bytes,
                first,
                stride,
            } => row_at_distance(bytes, first, stride, v),
        }
    }
}
