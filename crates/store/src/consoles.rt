// Whether the table of common versions is right: each console's head, each pair's meet, and that every version stands behind a head.
ghost use Rattle.std.specs.Prelude.{◌≡◌, cond, ℕ, suc, pred, ◌*◌, ◌<◌, ◌≤◌, eqb, leb, ltb, length};
ghost use Rattle.buffer.specs.Field.{same};
ghost use Rattle.buffer.specs.Row.{row_byte, row, union, intersection};
ghost use Rattle.command.specs.Code.{console_count};
ghost use Rattle.store.specs.Layout.{header_size, row_size, block_at};
ghost use Rattle.store.specs.Check.{row_part, field_number, common_in, meet_right, pair_right, console_right, consoles_right, behind_heads};
ghost use Rattle.store.specs.Rows.{row_of, HasRow};

use crate::places::{ROW, common_in, row_part};
use crate::rows::Rows;
use buffer::{add_union, is_intersection};
use command::numbers::CONSOLES;
use graph::{Console, Version};

// Whether the row of version m is the intersection of the rows of u and v.
fn rows_meet(s: &[u8], m: Version, u: Version, v: Version) -> bool
    requires m_in_bounds { block_at (suc m.0) ≤ length s.now }
    requires u_in_bounds { block_at (suc u.0) ≤ length s.now }
    requires v_in_bounds { block_at (suc v.0) ≤ length s.now }
    ensures { result ≡ same (row_part s.now m.0) (intersection (row_part s.now u.0) (row_part s.now v.0)) }
{
    is_intersection(row_part(s, m), row_part(s, u), row_part(s, v))
}

// Whether m is the common version of two consoles whose heads are u and v, where both are present, and none where one is absent.
fn meet_right(
    s: &[u8],
    n: usize,
    m: Option<Version>,
    u: Option<Version>,
    v: Option<Version>,
) -> bool
    requires n_in_bounds { block_at n ≤ length s.now }
    requires u_le_n { (field_number u ≤ n) × (field_number v ≤ n) }
    ensures { result ≡ meet_right s.now n (field_number m) (field_number u) (field_number v) }
{
    let (Some(u), Some(v)) = (u, v) else {
        return m.is_none();
    };
    let Some(m) = m else {
        return false;
    };
    m.0 < n && rows_meet(s, m, u, v)
}

// Whether the table is right at two consoles, whose heads are versions.
#[tactic(auto, unfolding(crate::specs::Check::pair_right), using(crate::proofs::Numbers::number_told))]
fn pair_right(s: &[u8], n: usize, c: Console, d: Console) -> bool
    requires n_in_bounds { block_at n ≤ length s.now }
    requires c_lt_console_count { (c.0 < console_count) × (d.0 < console_count) }
    requires c_bound { (common_in s.now c.0 c.0 ≤ n) × (common_in s.now d.0 d.0 ≤ n) }
    ensures { result ≡ pair_right s.now n c.0 d.0 }
{
    let m = common_in(s, c, d);
    if common_in(s, d, c) != m {
        return false;
    }
    meet_right(s, n, m, common_in(s, c, c), common_in(s, d, d))
}

// Whether console c's head, where it has one, is one of n versions.
fn head_right(s: &[u8], n: usize, c: Console) -> bool
    requires header_size_in_bounds { header_size ≤ length s.now }
    requires c_lt_console_count { c.0 < console_count }
    ensures { result ≡ leb (common_in s.now c.0 c.0) n }
{
    common_in(s, c, c).is_none_or(|head| head.0 < n)
}

// Whether console c's head is a version and the table is right at c and each console below it, whose heads are versions.
#[tactic(auto, unfolding(crate::specs::Check::console_right))]
fn console_right(s: &[u8], n: usize, c: Console) -> bool
    requires n_in_bounds { block_at n ≤ length s.now }
    requires c_lt_console_count { c.0 < console_count }
    requires by_index { (k : ℕ) → k < c.0 → common_in s.now k k ≤ n }
    ensures { result ≡ console_right s.now n c.0 }
{
    if !head_right(s, n, c) {
        return false;
    }
    for d in 0..c.0 {
        if !pair_right(s, n, c, Console(d)) {
            return false;
        }
    }
    true
}

// Whether the whole table of commons is right. No `Blocks` here: it would ask of callers that n is a capacity, too.
pub fn consoles_right(s: &[u8], n: usize) -> bool
    requires { block_at n ≤ length s.now }
    ensures { result ≡ consoles_right s.now n }
{
    for c in 0..CONSOLES {
        if !console_right(s, n, Console(c)) {
            return false;
        }
    }
    true
}

// Adds the row of a head, where there is one.
fn add_head(acc: &mut [u8], rows: &Rows, head: Option<Version>)
    requires acc_len { length acc.old ≡ row_size }
    requires row_size_in_bounds { 0 < field_number head → HasRow rows.now (pred (field_number head)) }
    ensures { acc.new ≡ cond (eqb (field_number head) 0) acc.old (union acc.old (row_of rows.now (pred (field_number head)))) }
{
    if let Some(v) = head {
        add_union(acc, rows.of(v));
    }
}

// Byte k of the row of all versions below n.
fn full_byte(n: usize, k: usize) -> u8
    requires { k < row_size }
    ensures { result ≡ row_byte (λ v. ltb v n) (8 * k) }
{
    let members = n.saturating_sub(8 * k);
    if members < 8 {
        (1u8 << members) - 1
    } else {
        u8::MAX
    }
}

// Whether acc is the row of all versions below n.
fn has_all_below(acc: &[u8], n: usize) -> bool
    requires { length acc.now ≡ row_size }
    ensures { result ≡ same acc.now (row (λ v. ltb v n) row_size) }
{
    let mut wrong = 0u8;
    for (k, byte) in acc.iter().enumerate() {
        wrong |= byte ^ full_byte(n, k);
    }
    wrong == 0
}

/// Whether each of the n versions is an ancestor of a head. The heads stand on the diagonal of a header's table of commons.
pub fn heads_reach_all(header: &[u8], rows: &Rows, n: usize) -> bool
    requires header_size_in_bounds { header_size ≤ length header.now }
    requires by_index { (c : ℕ) → c < console_count → 0 < common_in header.now c c → HasRow rows.now (pred (common_in header.now c c)) }
    ensures { result ≡ same (behind_heads header.now (row_of rows.now) console_count) (row (λ v. ltb v n) row_size) }
{
    let mut acc = [0u8; ROW];
    for c in 0..CONSOLES {
        add_head(&mut acc, rows, common_in(header, Console(c), Console(c)));
    }
    has_all_below(&acc, n)
}
