// A square of 64 words of 64 bits is transposed in six steps. Each exchanges one digit of a bit's place with the highest digit of its row's
// number, and moves that digit of the row's number to its lowest end, so that every step reads and writes rows in the same order. Two steps
// are taken at once, which saves half of the reads and writes.
ghost use Rattle.std.specs.Prelude.{◌≡◌, ◌<◌, length};
ghost use Rattle.sets.specs.Transposed as transposed;
ghost use Rattle.sets.specs.Transposed.{low_row, high_row, Staged, Transposed};

// Where the bits of a that stand s places higher differ from those of b, at the places of the mask.
fn mixed(a: u64, b: u64, s: usize, mask: u64) -> u64
    requires { s < 64 }
    ensures { result ≡ transposed.mixed s mask a b }
{
    ((a >> s) ^ b) & mask
}

// a with the bits of b for those that stand s places higher.
fn low_row(a: u64, b: u64, s: usize, mask: u64) -> u64
    requires { s < 64 }
    ensures { result ≡ low_row s mask a b }
{
    a ^ (mixed(a, b, s, mask) << s)
}

// b with these bits of a.
fn high_row(a: u64, b: u64, s: usize, mask: u64) -> u64
    requires { s < 64 }
    ensures { result ≡ high_row s mask a b }
{
    b ^ mixed(a, b, s, mask)
}

// A step by s and one by t.
fn stage(from: &[u64], to: &mut [u64], s: usize, mask: u64, t: usize, next: u64)
    requires { (length from.now ≡ 64) × ((length to.old ≡ 64) × ((s < 64) × (t < 64))) }
    ensures { Staged s mask t next 16 from.now to.new }
{
    for i in 0..16 {
        let a = from[i];
        let b = from[i + 16];
        let c = from[i + 32];
        let d = from[i + 48];
        let e = low_row(a, c, s, mask);
        let f = low_row(b, d, s, mask);
        let g = high_row(a, c, s, mask);
        let h = high_row(b, d, s, mask);
        to[4 * i] = low_row(e, f, t, next);
        to[4 * i + 1] = high_row(e, f, t, next);
        to[4 * i + 2] = low_row(g, h, t, next);
        to[4 * i + 3] = high_row(g, h, t, next);
    }
}

// Bit j of row i becomes bit i of row j.
pub fn transpose(rows: &mut [u64])
    requires { length rows.old ≡ 64 }
    ensures { Transposed rows.old rows.new }
{
    let mut one = [0u64; 64];
    let mut two = [0u64; 64];
    stage(
        rows,
        &mut one,
        32,
        0x0000_0000_ffff_ffff,
        16,
        0x0000_ffff_0000_ffff,
    );
    stage(
        &one,
        &mut two,
        8,
        0x00ff_00ff_00ff_00ff,
        4,
        0x0f0f_0f0f_0f0f_0f0f,
    );
    stage(
        &two,
        rows,
        2,
        0x3333_3333_3333_3333,
        1,
        0x5555_5555_5555_5555,
    );
}
