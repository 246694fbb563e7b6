// Mixing, both ways: the reader's unmixing and extra bits, and the writer's mix.
#![tactic(auto)]

ghost use Rattle.std.specs.Prelude.{◌≡◌, ◌*◌, ◌<◌, drop, length, get_or, []};
ghost use Rattle.rules.specs.Buffers.{lanes, pairs, lane};
ghost use Rattle.rules.specs.Mix.{right_of, left_of, on_pair, unmixed, mid_of, mixed};
ghost use Rattle.rules.specs.Element.{numbers, extended, with_extra};
ghost use Rattle.rules.specs.Words.{signed, sub32};
ghost use Rattle.buffers.specs.Halves.{parts, with_parts};
ghost use Rattle.mix.specs.Finish.{Unmixable, UnmixAsked, Takes, Took, Extendable, Finishable};
ghost use Rattle.mix.specs.Mixable.{Mixable, mixed_sample};

use bitcursor::BitCursor;
use words::{
    number_of, shift_down, shift_up, sign_extend, wrapping_add_i32, wrapping_mul_i32,
    wrapping_sub_i32,
};

// ---- Unmixing and extra bits, in place: a channel's samples lie in scratch from place 0 on, a second channel's from `half` on.
// Scratch, `half`, `n` and the channels go together, but not as a struct: `finish` hands them on unchanged, and its one caller has them apart.

fn right_of(u: i32, v: i32, mix_bits: u32, mix_res: i32) -> i32
    requires { mix_bits < 32 }
    ensures { result ≡ right_of mix_bits mix_res u v }
{
    let product = wrapping_mul_i32(v, mix_res);
    let share = shift_down(product, mix_bits);
    wrapping_sub_i32(u, share)
}

// u and v become left and right.
fn unmix_stereo(scratch: &mut [i32], half: usize, n: usize, mix_bits: u32, mix_res: i32)
    requires { Unmixable half n mix_bits scratch.old }
    ensures { scratch.new ≡ with_parts half (on_pair (left_of mix_bits mix_res) (right_of mix_bits mix_res) (parts half n 2 scratch.old)) scratch.old }
{
    for i in 0..n {
        let j = half + i;
        let u = scratch[i];
        let v = scratch[j];
        let r = right_of(u, v, mix_bits, mix_res);
        let l = wrapping_add_i32(r, v);
        scratch[i] = l;
        scratch[j] = r;
    }
}

fn extend(x: i32, shift: u32, extra: u32) -> i32
    requires { shift < 32 }
    ensures { result ≡ extended shift x extra }
{
    let high = shift_up(x, shift);
    let low = number_of(extra);
    wrapping_add_i32(high, low)
}

// The sample at `k` takes in its extra bits. They are there, so the read is never short.
fn append_at(extra: &mut BitCursor<'_>, scratch: &mut [i32], k: usize, shift: u32)
    requires { Takes extra.old shift k scratch.old }
    ensures { Took extra.old extra.new shift k scratch.old scratch.new }
{
    let low = extra.read(shift).unwrap();
    scratch[k] = extend(scratch[k], shift, low);
}

// Extra bits lie sample by sample, a pair's first channel before its second.
fn append_extra_bits(
    mut extra: BitCursor<'_>,
    scratch: &mut [i32],
    half: usize,
    n: usize,
    channels: u32,
    shift: u32,
)
    requires { Extendable extra half n channels shift scratch.old }
    ensures { scratch.new ≡ with_parts half (pairs (pairs (extended shift)) (parts half n channels scratch.old) (lanes channels (numbers (n * channels) shift (drop extra.entry.at extra.entry.bits)))) scratch.old }
{
    for i in 0..n {
        append_at(&mut extra, scratch, i, shift);
        if channels == 2 {
            append_at(&mut extra, scratch, half + i, shift);
        }
    }
}

// ---- The last step of a compressed element, once its samples are predicted: unmixing, then extra bits.

// A pair whose mix_res is not 0 is unmixed; anything else is as it is.
fn unmix(scratch: &mut [i32], half: usize, n: usize, channels: u32, mix_bits: u32, mix_res: u32)
    requires { UnmixAsked half n channels mix_bits mix_res scratch.old }
    ensures { scratch.new ≡ with_parts half (unmixed mix_bits (signed 8 mix_res) (parts half n channels scratch.old)) scratch.old }
{
    if channels == 2 && mix_res != 0 {
        unmix_stereo(scratch, half, n, mix_bits, sign_extend(mix_res as i32, 8));
    }
}

// Each sample is shifted left and takes its extra bits, where there are any.
fn extend_all(
    extra: BitCursor<'_>,
    scratch: &mut [i32],
    half: usize,
    n: usize,
    channels: u32,
    shift: u32,
)
    requires { Extendable extra half n channels shift scratch.old }
    ensures { scratch.new ≡ with_parts half (with_extra channels shift (numbers (n * channels) shift (drop extra.entry.at extra.entry.bits)) (parts half n channels scratch.old)) scratch.old }
{
    if shift != 0 {
        append_extra_bits(extra, scratch, half, n, channels, shift);
    }
}

// Both, one after the other. The extra bits lie at a place of their own.
pub fn finish(
    extra: BitCursor<'_>,
    scratch: &mut [i32],
    half: usize,
    n: usize,
    channels: u32,
    shift: u32,
    mix_bits: u32,
    mix_res: u32,
)
    requires { Finishable extra.bits extra.at half n channels shift mix_bits mix_res scratch.old }
    ensures { scratch.new ≡ with_parts half (with_extra channels shift (numbers (n * channels) shift (drop extra.entry.at extra.entry.bits)) (unmixed mix_bits (signed 8 mix_res) (parts half n channels scratch.old))) scratch.old }
{
    unmix(scratch, half, n, channels, mix_bits, mix_res);
    extend_all(extra, scratch, half, n, channels, shift);
}

// ---- The writer's mix: one channel of a passage at a time.

fn mid_of(l: i32, r: i32, mix_bits: u32, mix_res: i32) -> i32
    requires { mix_bits < 32 }
    ensures { result ≡ mid_of mix_bits mix_res l r }
{
    let side = wrapping_sub_i32(l, r);
    let product = wrapping_mul_i32(side, mix_res);
    let share = shift_down(product, mix_bits);
    wrapping_add_i32(r, share)
}

// u for channel 0, v for channel 1. A channel stays a number here, since `copy_lane` uses it as an index.
fn mix_pair(l: i32, r: i32, which: usize, mix_bits: u32, mix_res: i32) -> i32
    requires { mix_bits < 32 }
    ensures { result ≡ mixed_sample mix_bits mix_res which l r }
{
    if which == 0 {
        return mid_of(l, r, mix_bits, mix_res);
    }
    wrapping_sub_i32(l, r)
}

// Channel `which` of the passage, as it is.
fn copy_lane(passage: &[i16], channels: usize, which: usize, out: &mut [i32])
    requires which_lt_channels { which < channels }
    requires passage_len { length passage.now ≡ length out.old * channels }
    ensures { out.new ≡ lane channels passage.now which }
{
    for (i, sample) in out.iter_mut().enumerate() {
        *sample = passage[i * channels + which] as i32;
    }
}

// Channel `which` of the mixed pair.
fn mix_pairs(passage: &[i16], which: usize, mix_bits: u32, mix_res: i32, out: &mut [i32])
    requires { Mixable 2 which mix_bits (length out.old) passage.now }
    ensures { out.new ≡ get_or (on_pair (mid_of mix_bits mix_res) sub32 (lanes 2 passage.now)) which [] }
{
    for (i, sample) in out.iter_mut().enumerate() {
        let l = passage[i * 2] as i32;
        let r = passage[i * 2 + 1] as i32;
        *sample = mix_pair(l, r, which, mix_bits, mix_res);
    }
}

// Channel `which` of the passage, mixed.
pub fn mix_lane(
    passage: &[i16],
    channels: usize,
    which: usize,
    mix_bits: u32,
    mix_res: i32,
    out: &mut [i32],
)
    requires { Mixable channels which mix_bits (length out.old) passage.now }
    ensures { out.new ≡ get_or (mixed mix_bits mix_res (lanes channels passage.now)) which [] }
{
    if channels == 1 || mix_res == 0 {
        copy_lane(passage, channels, which, out);
        return;
    }
    mix_pairs(passage, which, mix_bits, mix_res, out);
}
