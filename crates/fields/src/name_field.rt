// The rule of a name's field: a length n, then 30 bytes, of which the first n are of the alphabet and the others zero. No byte of the alphabet is
// zero. So the rule is that each of the 30 bytes is zero exactly if it stands after the first n, and is of the alphabet if it is not zero. Which
// bytes stand after the first n is read from a constant, at a place that n decides. A loop over 32 bytes of each that has one way out becomes vector
// code: hence the bytes behind the 30 are lent too.
ghost use Rattle.std.specs.Prelude.{◌≡◌, ◌∷◌, length, take};
ghost use Rattle.fields.specs.Names.{letter_at, name_rule};
ghost use Rattle.fields.specs.Scan.{everywhere};

fn letters_ok(bytes: &[u8], inside: &[u8]) -> bool
    requires { (length bytes.now ≡ 32) × (length inside.now ≡ 32) }
    ensures { result ≡ everywhere (letter_at bytes.now inside.now) 32 0 }
{
    let mut bad = false;
    for j in 0..32 {
        let x = bytes[j];
        // As name_byte tells it, without an early return.
        let good = x.is_ascii_uppercase() | x.is_ascii_digit() | (x == b'_');
        bad |= (j < 30) & (((x == 0) != (inside[j] == 0)) | ((x != 0) & !good));
    }
    !bad
}

// The field begins with n, and its other 30 bytes are the first of those lent.
pub fn name_ok(n: u8, window: &[u8]) -> bool
    requires { length window.now ≡ 33 }
    ensures { result ≡ name_rule (n ∷ take 30 window.now) }
{
    if n < 1 {
        return false;
    }
    if 30 < n {
        return false;
    }
    let at = 30 - (n as usize);
    // 30 that are not zero, then 32 zeros: from place 30 - n on, n that are not zero stand before the zeros
    let inside =
        *b"111111111111111111111111111111\0\0\0\0\0\0\0\0\0\0\0\0\0\0\0\0\0\0\0\0\0\0\0\0\0\0\0\0\0\0\0\0";
    letters_ok(&window[0..32], &inside[at..at + 32])
}
