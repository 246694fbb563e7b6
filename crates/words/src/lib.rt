// Words that wrap: sums, differences, products and shifts of signed integers, worked out at 64 bits and cut to the word.
#![tactic(auto)]

ghost use Rattle.std.specs.Prelude.{◌≡◌, ◌≤◌, ◌<◌, ◌^◌, pos, ◌+ℤ◌};
ghost use Rattle.rules.specs.Words.{mod_z, signed, wrap, add32, sub32, mul32, shift_right, shift_left, sign, unfolded, folded};

// The low 32 bits of `s`, as a number. Not generic with `low_i16`, and no `wrapping_add` of std: word_of_31_bits and three more edits slip in the widths here.
fn low_i32(s: i64) -> i32
    ensures { result ≡ wrap 32 s }
{
    ((s << 32) >> 32) as i32
}

// The low 16 bits of `s`, as a number.
pub fn low_i16(s: i64) -> i16
    ensures { result ≡ wrap 16 s }
{
    ((s << 48) >> 48) as i16
}

pub fn sign_extend(val: i32, bits: u32) -> i32
    requires le_bits { 1 ≤ bits }
    requires bits_bound { bits ≤ 32 }
    ensures { result ≡ wrap bits val }
{
    let shift = 32 - bits;
    (val << shift) >> shift
}

pub fn wrapping_add_i32(x: i32, y: i32) -> i32
    ensures { result ≡ add32 x y }
{
    low_i32(x as i64 + y as i64)
}

pub fn wrapping_sub_i32(x: i32, y: i32) -> i32
    ensures { result ≡ sub32 x y }
{
    low_i32(x as i64 - y as i64)
}

pub fn wrapping_mul_i32(x: i32, y: i32) -> i32
    ensures { result ≡ mul32 x y }
{
    low_i32(x as i64 * y as i64)
}

// The product by a coefficient.
pub fn wrapping_mul_i16(x: i32, c: i16) -> i32
    ensures { result ≡ mul32 x c }
{
    low_i32(x as i64 * c as i64)
}

// What a coefficient gains.
pub fn add_to_i16(c: i16, t: i32) -> i16
    ensures { result ≡ wrap 16 (c +ℤ t) }
{
    low_i16(c as i64 + t as i64)
}

// `signum`, `one_at`, `number_of`, `bits_of`, `coef_of` and `bits16_of` are one call each. They stay, one for each width: the rules' word for the
// call is promised here, once, and one over both widths would need a trait of its own.
pub fn signum(x: i32) -> i32
    ensures { result ≡ sign x }
{
    x.signum()
}

// The number that a symbol's value means.
pub fn unfold(v: u32) -> i32
    ensures { result ≡ unfolded v }
{
    let half = (v / 2) as i32;
    if v % 2 == 0 { half } else { -1 - half }
}

// The value that means a number: `unfold` the other way.
pub fn fold(x: i32) -> u32
    ensures { result ≡ folded x }
{
    if x >= 0 {
        (x as u32) * 2
    } else {
        ((-1 - x) as u32) * 2 + 1
    }
}

pub fn shift_down(x: i32, q: u32) -> i32
    requires { q < 32 }
    ensures { result ≡ shift_right x q }
{
    x >> q
}

pub fn shift_up(x: i32, s: u32) -> i32
    requires { s < 32 }
    ensures { result ≡ shift_left x s }
{
    low_i32(x as i64 * (1i64 << s))
}

// A power of two.
pub fn one_at(q: u32) -> i32
    requires { q < 31 }
    ensures { result ≡ pos (2 ^ q) }
{
    1i32 << q
}

// The number whose 32 bits are those of `u`.
pub fn number_of(u: u32) -> i32
    ensures { result ≡ wrap 32 (pos u) }
{
    u.cast_signed()
}

// The 32 bits of a number.
pub fn bits_of(x: i32) -> u32
    ensures { result ≡ mod_z (2 ^ 32) x }
{
    x.cast_unsigned()
}

// The coefficient whose 16 bits are those of `v`.
pub fn coef_of(v: u32) -> i16
    requires { v < 65536 }
    ensures { result ≡ signed 16 v }
{
    (v as u16).cast_signed()
}

// The 16 bits of a coefficient.
pub fn bits16_of(c: i16) -> u32
    ensures { result ≡ mod_z (2 ^ 16) c }
{
    u32::from(c.cast_unsigned())
}
