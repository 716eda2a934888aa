// The two sums of a block, by columns: a block is two halves of 16 rows of 16 bytes, and what is kept of a column fits 16 bits, so that the
// loops become vector code. Byte i counts 510 - i times in the second sum. In row r and column j of the first half that is 16 (15 - r) + 15 - j
// times, and 255 times more, which is no part of the remainder; in the second half it is once less.
//
// Columns are read two at a time: a byte in an even column and the one after it are one number of 16 bits, the first and 256 times the second.
// What is kept of both is in one lane. `mixed` is the sum of these numbers mod 65,536, that is the even column's sum and 256 times the odd
// one's, and `odd` is the odd column's sum. The even column's sum is below 65,536, so it is `mixed` less 256 times the odd one's, mod
// 65,536. It is so too where a byte counts as often as rows follow, and for the sums over both halves.
ghost use Rattle.std.specs.Prelude.{◌≡◌, ◌+◌, ◌/◌, ◌%◌, ◌<◌, ◌≤◌, length, slice_index};
ghost use Rattle.fields.specs.Bytes.{byte_at};
ghost use Rattle.blocks.specs.Columns.{Columned, sum, even_of, fold_of, term_of, Small, Low, TermsOf, JoinedOf};

// Two bytes as one number, the first as its lower half.
fn pair(s: &[u8], k: usize) -> u16
    requires { k + 1 < length s.now }
    ensures { (result % 256 ≡ byte_at s.now k) × (result / 256 ≡ byte_at s.now (k + 1)) }
{
    u16::from_le_bytes([s[k], s[k + 1]])
}

// By lanes, the sums of the columns' bytes; in `mixed_above` and `odd_above` with the byte of row r counted as often as rows follow.
#[derive(Clone, Copy)]
pub struct Columns {
    pub mixed: [u16; 8],
    pub odd: [u16; 8],
    pub mixed_above: [u16; 8],
    pub odd_above: [u16; 8],
}

// One row more. Before it there are r.
fn add_row(s: Columns, half: &[u8], r: usize) -> Columns
    requires { (length half.now ≡ 256) × ((r < 16) × Columned half.now r s) }
    ensures { Columned half.now (r + 1) result }
{
    let at = 16 * r;
    let Columns {
        mut mixed,
        mut odd,
        mut mixed_above,
        mut odd_above,
    } = s;
    for j in 0..8 {
        mixed_above[j] = mixed_above[j].wrapping_add(mixed[j]);
        odd_above[j] += odd[j];
        let x = pair(half, at + 2 * j);
        mixed[j] = mixed[j].wrapping_add(x);
        odd[j] += x / 256;
    }
    Columns {
        mixed,
        odd,
        mixed_above,
        odd_above,
    }
}

// All rows of half a block.
pub fn half_columns(half: &[u8]) -> Columns
    requires { length half.now ≡ 256 }
    ensures { Columned half.now 16 result }
{
    let mut s = Columns {
        mixed: [0u16; 8],
        odd: [0u16; 8],
        mixed_above: [0u16; 8],
        odd_above: [0u16; 8],
    };
    for r in 0..16 {
        s = add_row(s, half, r);
    }
    s
}

// The same number mod 255, below 511.
fn fold(x: u16) -> u16
    ensures { (result ≡ fold_of x) × (result < 511) }
{
    x % 256 + x / 256
}

// The even column's number of a lane.
fn even(mixed: u16, odd: u16) -> u16
    ensures { result ≡ even_of mixed odd }
{
    mixed.wrapping_sub(256 * (odd % 256))
}

// What a column of both halves adds to the second sum: 16 times what counts by rows, w times what counts by the column, less what stands in the
// second half.
fn column_term(once: u16, often: u16, w: u16, second: u16) -> u16
    requires { (once ≤ 8160) × ((often ≤ 61200) × ((w ≤ 15) × (second ≤ 4080))) }
    ensures { (result ≡ term_of once often w second) × (result ≤ 19890) }
{
    16 * fold(often) + w * fold(once) + (4080 - second)
}

// What the two columns of each lane together add to the two sums.
#[derive(Clone, Copy)]
struct LaneTerms {
    once: [u16; 8],
    often: [u16; 8],
}

// The halves are added before the even column's numbers are taken out of the lanes, but for what stands in the second half. An even column
// counts as often as its weight says, the odd one after it once less.
fn terms(one: Columns, two: Columns) -> LaneTerms
    requires { Small one × Small two }
    ensures { TermsOf one two result }
{
    let weights = [15u16, 13u16, 11u16, 9u16, 7u16, 5u16, 3u16, 1u16];
    let mut once = [0u16; 8];
    let mut often = [0u16; 8];
    for j in 0..8 {
        let odd = one.odd[j] + two.odd[j];
        let even_once = even(one.mixed[j].wrapping_add(two.mixed[j]), odd);
        let odd_often = one.odd_above[j] + two.odd_above[j];
        let even_often = even(
            one.mixed_above[j].wrapping_add(two.mixed_above[j]),
            odd_often,
        );
        let w = weights[j];
        once[j] = even_once + odd;
        often[j] = column_term(even_once, even_often, w, even(two.mixed[j], two.odd[j]))
            + column_term(odd, odd_often, w - 1, two.odd[j]);
    }
    LaneTerms { once, often }
}

// The sum over all lanes.
fn total(a: [u16; 8]) -> u32
    requires { Low a }
    ensures { (result ≡ sum (λ i. slice_index a i) 8) × (result ≤ 318240) }
{
    let mut s: u32 = 0;
    for x in &a {
        s += u32::from(*x);
    }
    s
}

// The sums over the columns of both halves.
#[derive(Clone, Copy)]
pub struct Joined {
    pub once: u32,
    pub often: u32,
}

// What the lanes add is below 65,536 in each of them, but not in all together.
pub fn join(one: Columns, two: Columns) -> Joined
    requires { Small one × Small two }
    ensures { JoinedOf one two result.once result.often × (result.often ≤ 318240) }
{
    let all = terms(one, two);
    Joined {
        once: total(all.once),
        often: total(all.often),
    }
}
