// Bytes of a lent buffer: 16-bit fields, bit rows and parts. Nothing here knows the room unit. A place is a number and no slice of its own
// where what is written must be said of the whole buffer.
#![tactic(auto)]

ghost use Rattle.std.specs.Prelude.{◌≡◌, ◌+◌, ◌*◌, ◌/◌, ◌%◌, ◌^◌, ◌<◌, ◌≤◌, length};
ghost use Rattle.buffer.specs.Field.{word_at, put_word, part, address_of, with_part, same, all_zero, zeros};
ghost use Rattle.buffer.specs.Blocks.{block_at, block_in, with_block};
ghost use Rattle.buffer.specs.Row.{row_width, member, union, intersection, with_member, none_from, member_count};

// The bytes of a row of 1,024 members.
const ROW_WIDTH: usize = 128;

/// The 16-bit field at a place.
pub fn word_at(s: &[u8], at: usize) -> usize
    requires { at + 1 < length s.now }
    ensures { (result ≡ word_at s.now at) × (result < 65536) }
{
    usize::from(u16::from_be_bytes([s[at], s[at + 1]]))
}

/// The n bytes at a place, where they lie.
#[tactic(auto, using(crate::proofs::Fields::part_length))]
pub fn part_of(s: &[u8], at: usize, n: usize) -> &[u8]
    requires { at + n ≤ length s.now }
    ensures { (result.now ≡ part s.now at n) × (length result.now ≡ n) × (result.ref_ptr ≡ address_of s.entry.ref_ptr at) }
{
    &s[at..at + n]
}

/// Where block v of blocks of a size begins.
#[tactic(auto, unfolding(crate::specs::Blocks::block_at))]
pub fn block_at(size: usize, v: usize) -> usize
    requires { block_at size v < 2 ^ 64 }
    ensures { result ≡ block_at size v }
{
    size * v
}

/// Block v of blocks of a size, where it lies.
pub fn block_of(s: &[u8], size: usize, v: usize) -> &[u8]
    requires { block_at size v + size ≤ length s.now }
    ensures { (result.now ≡ block_in size s.now v) × (length result.now ≡ size) }
{
    part_of(s, block_at(size, v), size)
}

/// Writes a number's 16 bits at a place.
pub fn put_word(s: &mut [u8], at: usize, x: usize)
    requires { at + 1 < length s.old }
    ensures { s.new ≡ put_word s.old at x }
{
    let [high, low] = ((x % 65536) as u16).to_be_bytes();
    s[at] = high;
    s[at + 1] = low;
}

/// Whether two slices of one length hold the same bytes. No early exit, so that it runs on many bytes at a time: `s == t`, which ends a
/// comparison where bytes differ, took 7 to 28 percent longer over equal parts of 384 to 96 bytes.
pub fn is_same(s: &[u8], t: &[u8]) -> bool
    requires { length s.now ≡ length t.now }
    ensures { result ≡ same s.now t.now }
{
    s.iter().zip(t).fold(0, |seen, (x, y)| seen | (x ^ y)) == 0
}

/// Whether two slices hold the same n bytes at a place.
pub fn is_same_at(s: &[u8], t: &[u8], at: usize, n: usize) -> bool
    requires { (at + n ≤ length s.now) × (at + n ≤ length t.now) }
    ensures { result ≡ same (part s.now at n) (part t.now at n) }
{
    is_same(part_of(s, at, n), part_of(t, at, n))
}

/// Whether every byte is 0.
pub fn is_zero(s: &[u8]) -> bool
    ensures { result ≡ all_zero s.now }
{
    s.iter().fold(0, |seen, x| seen | x) == 0
}

/// Whether s is the intersection of the rows p and q.
pub fn is_intersection(s: &[u8], p: &[u8], q: &[u8]) -> bool
    requires s_len { length s.now ≡ length p.now }
    requires s_len_2 { length s.now ≡ length q.now }
    ensures { result ≡ same s.now (intersection p.now q.now) }
{
    s.iter()
        .zip(p)
        .zip(q)
        .fold(0, |seen, ((x, y), z)| seen | (x ^ (y & z)))
        == 0
}

/// Whether the row s is p with v as a member besides. The row that it should be is made and compared whole, as loops of a length
/// that is known run on many bytes at a time.
pub fn is_extended(s: &[u8], p: &[u8], v: usize) -> bool
    requires s_len { length s.now ≡ row_width }
    requires p_len { length p.now ≡ row_width }
    requires v_bound { v < 8 * row_width }
    ensures { result ≡ same s.now (with_member p.now v) }
{
    let mut extended = [0u8; ROW_WIDTH];
    extended.copy_from_slice(p);
    add_member(&mut extended, v);
    is_same(s, &extended)
}

/// Whether the row s is the union of p and q with v as a member besides.
pub fn is_extended_union(s: &[u8], p: &[u8], q: &[u8], v: usize) -> bool
    requires s_len { length s.now ≡ row_width }
    requires p_len { length p.now ≡ row_width }
    requires q_len { length q.now ≡ row_width }
    requires v_bound { v < 8 * row_width }
    ensures { result ≡ same s.now (with_member (union p.now q.now) v) }
{
    let mut extended = [0u8; ROW_WIDTH];
    extended.copy_from_slice(p);
    add_extended(&mut extended, q, v);
    is_same(s, &extended)
}

/// Whether v is a member of the row s.
pub fn has_member(s: &[u8], v: usize) -> bool
    requires { v / 8 < length s.now }
    ensures { result ≡ member s.now v }
{
    (s[v / 8] >> (v % 8)) % 2 == 1
}

/// Whether the row s has no member from n on.
#[tactic(auto, using(crate::proofs::RowParts::none_parts, crate::proofs::RowParts::none_past))]
pub fn none_from(s: &[u8], n: usize) -> bool
    ensures { result ≡ none_from s.now n }
{
    let at = n / 8;
    let Some(byte) = s.get(at) else {
        return true;
    };
    (byte >> (n % 8) == 0) & is_zero(&s[at + 1..])
}

/// Writes src over dst. A loop, as std's `copy_from_slice` of lent buffers that may overlap for all that the compiler knows becomes a call of
/// `memmove`, which a program that links the archive would have to bring along.
pub fn copy(dst: &mut [u8], src: &[u8])
    requires { length dst.old ≡ length src.now }
    ensures { dst.new ≡ src.now }
{
    for i in 0..src.len() {
        dst[i] = src[i];
    }
}

/// Copies n bytes of s to a place behind them.
#[tactic(auto, using(crate::proofs::Patches::pasted))]
pub fn copy_within(s: &mut [u8], from: usize, to: usize, n: usize)
    requires { (from + n ≤ to) × (to + n ≤ length s.old) }
    ensures { s.new ≡ with_part s.old to (part s.old from n) }
{
    s.copy_within(from..from + n, to);
}

/// Copies block p of blocks of a size over a later one.
#[tactic(auto, using(crate::proofs::Blocks::block_apart))]
pub fn copy_block(s: &mut [u8], size: usize, p: usize, n: usize)
    requires { (p < n) × (block_at size n + size ≤ length s.old) }
    ensures { s.new ≡ with_block size s.old n (block_in size s.old p) }
{
    copy_within(s, block_at(size, p), block_at(size, n), size);
}

/// Writes zeros over dst.
pub fn clear(dst: &mut [u8])
    ensures { dst.new ≡ zeros (length dst.old) }
{
    dst.fill(0);
}

/// Puts the members of the row src into dst.
pub fn add_union(dst: &mut [u8], src: &[u8])
    requires { length dst.old ≡ length src.now }
    ensures { dst.new ≡ union dst.old src.now }
{
    for i in 0..src.len() {
        dst[i] |= src[i];
    }
}

/// Puts v into the row dst.
#[tactic(auto, using(crate::proofs::Rows::one_shifted))]
pub fn add_member(dst: &mut [u8], v: usize)
    requires { v / 8 < length dst.old }
    ensures { dst.new ≡ with_member dst.old v }
{
    let at = v / 8;
    dst[at] |= 1 << (v % 8);
}

/// Writes at a place the row that stands before it, with v as a member besides.
pub fn put_extended(s: &mut [u8], from: usize, to: usize, v: usize)
    requires { (from + row_width ≤ to) × (to + row_width ≤ length s.old) × (v < 8 * row_width) }
    ensures { s.new ≡ with_part s.old to (with_member (part s.old from row_width) v) }
{
    copy_within(s, from, to, ROW_WIDTH);
    add_member(&mut s[to..to + ROW_WIDTH], v);
}

/// Puts the members of another row and v into dst.
pub fn add_extended(dst: &mut [u8], src: &[u8], v: usize)
    requires { (length dst.old ≡ length src.now) × (v / 8 < length dst.old) }
    ensures { dst.new ≡ with_member (union dst.old src.now) v }
{
    add_union(dst, src);
    add_member(dst, v);
}

/// Writes at a place the union of two rows that stand before it, with v as a member besides. The slice is split at that place, so that
/// neither row is copied first.
pub fn put_extended_union(s: &mut [u8], p: usize, q: usize, to: usize, v: usize)
    requires { (p + row_width ≤ to) × (q + row_width ≤ to) × (to + row_width ≤ length s.old) × (v < 8 * row_width) }
    ensures { s.new ≡ with_part s.old to (with_member (union (part s.old p row_width) (part s.old q row_width)) v) }
{
    let (before, after) = s.split_at_mut(to);
    let row = &mut after[..ROW_WIDTH];
    row.copy_from_slice(part_of(before, p, ROW_WIDTH));
    add_extended(row, part_of(before, q, ROW_WIDTH), v);
}

// How many members two rows of eight bytes have in common.
#[tactic(auto, using(crate::proofs::Ones::word_members))]
fn common_in_word(s: &[u8; 8], t: &[u8; 8]) -> usize
    ensures { (result ≡ member_count (intersection s.now t.now)) × (result ≤ 64) }
{
    (u64::from_le_bytes(*s) & u64::from_le_bytes(*t)).count_ones() as usize
}

/// How many members two rows have in common, counted a word of 64 at a time.
pub fn common_members(s: &[u8], t: &[u8]) -> usize
    requires s_len { length s.now ≡ length t.now }
    requires s_len_2 { length s.now % 8 ≡ 0 }
    requires s_len_bound { length s.now ≤ row_width }
    ensures { (result ≡ member_count (intersection s.now t.now)) × (result ≤ 8 * row_width) }
{
    let (words, _) = s.as_chunks::<8>();
    let (others, _) = t.as_chunks::<8>();
    words
        .iter()
        .zip(others)
        .map(|(word, other)| common_in_word(word, other))
        .sum()
}
