// A whole audio element, compressed or not.
#![tactic(auto)]

ghost use Rattle.std.specs.Prelude.{◌≡◌, ◌+◌, ◌*◌, map};
ghost use Rattle.rules.specs.Answers.{answered, times};
ghost use Rattle.rules.specs.Bits.{field};
ghost use Rattle.rules.specs.Buffers.{lanes};
ghost use Rattle.rules.specs.Words.{signed};
ghost use Rattle.rules.specs.Element.{compressed, uncompressed, audio_element};
ghost use Rattle.buffers.specs.Fills.{Fills};
ghost use Rattle.dec_header.specs.Plan.{plan_of};
ghost use Rattle.dec_element.specs.Raw.{Sample, Storable, Stores, Rawable, Rows};
ghost use Rattle.dec_element.specs.Heard.{Hearable, Hears};
ghost use Rattle.dec_element.specs.Sounds.{Prepared, after_plan, Sounding, Sounds};

use bitcursor::BitCursor;
use buffers::clear;
use dec_channels::decode_channels;
use dec_header::plan::{Plan, read_plan};
use dec_header::{Header, read_header};
use mix::finish;
use rules::{Refusal, StreamInfo};
use words::{number_of, sign_extend};

// ---- The sound of an uncompressed element. Interleaved samples come into scratch, the first channel's from place 0 on, the second's from `half` on.

// One sample: its bits as a signed number of the depth.
fn raw_of(v: u32, depth: u32) -> i32
    requires { Sample depth v }
    ensures { result ≡ signed depth v }
{
    sign_extend(number_of(v), depth)
}

// The next sample comes to place `k`.
fn raw_at(
    bits: &mut BitCursor<'_>,
    depth: u32,
    k: usize,
    scratch: &mut [i32],
) -> Result<(), Refusal>
    requires { Storable depth k scratch.old }
    ensures { Stores depth k bits.old bits.new scratch.old scratch.new result }
{
    let v = bits.read(depth)?;
    scratch[k] = raw_of(v, depth);
    Ok(())
}

// One sample of each channel.
fn raw_row(
    bits: &mut BitCursor<'_>,
    depth: u32,
    channels: u32,
    i: usize,
    half: usize,
    scratch: &mut [i32],
) -> Result<(), Refusal>
    requires { Rawable half (i + 1) channels depth scratch.old }
    ensures { Rows depth channels half i bits.old bits.new scratch.old scratch.new result }
{
    raw_at(bits, depth, i, scratch)?;
    if channels == 1 {
        return Ok(());
    }
    raw_at(bits, depth, half + i, scratch)
}

// The uncompressed half of decode_audio_element.
fn raw_samples(
    bits: &mut BitCursor<'_>,
    s: StreamInfo,
    channels: u32,
    n: usize,
    scratch: &mut [i32],
) -> Result<(), Refusal>
    requires { Rawable s.frame_length n channels s.bit_depth scratch.old }
    ensures { Fills s.frame_length n channels (λ packet p. answered (λ raw. lanes channels (map (signed s.bit_depth) raw)) (times (n * channels) (field packet s.bit_depth) p)) bits.old bits.new scratch.old scratch.new result }
{
    let half = s.frame_length as usize;
    for i in 0..n {
        raw_row(bits, s.bit_depth as u32, channels, i, half, scratch)?;
    }
    Ok(())
}

// ---- An audio element after its tag: decode_audio_element of dec.rs. The answer is how many samples each channel has.

// After the plan. The extra bits lie before the Rice data, and are taken in at the end.
fn decode_planned(
    bits: &mut BitCursor<'_>,
    s: StreamInfo,
    h: Header,
    channels: u32,
    bps: u32,
    plan: Plan,
    scratch: &mut [i32],
) -> Result<u32, Refusal>
    requires { Prepared s channels h bps plan scratch.old }
    ensures { Sounds s.frame_length channels (λ packet. after_plan packet s channels bps (8 * h.code) h.samples (plan_of plan)) bits.old bits.new scratch.old scratch.new result }
{
    let half = s.frame_length as usize;
    let n = h.samples as usize;
    let shift = 8 * h.code;
    let extra = bits.fork();
    bits.skip(shift as u64 * (h.samples as u64 * channels as u64))?;
    decode_channels(bits, s, bps, plan, n, scratch)?;
    finish(
        extra,
        scratch,
        half,
        n,
        channels,
        shift,
        plan.mix_bits,
        plan.mix_res,
    );
    Ok(h.samples)
}

// 9 and 10 before any further bit.
fn decode_compressed(
    bits: &mut BitCursor<'_>,
    s: StreamInfo,
    h: Header,
    channels: u32,
    scratch: &mut [i32],
) -> Result<u32, Refusal>
    requires { Sounding s channels h scratch.old }
    ensures { Sounds s.frame_length channels (λ packet. compressed packet s channels (8 * h.code) h.samples) bits.old bits.new scratch.old scratch.new result }
{
    let bps = s.bit_depth as u32 - 8 * h.code + channels - 1;
    if bps > 32 {
        return Err(Refusal::WideChannel);
    }
    if bps == 0 {
        return Err(Refusal::NoChannelBits);
    }
    let plan = read_plan(bits, s, channels)?;
    decode_planned(bits, s, h, channels, bps, plan, scratch)
}

fn decode_uncompressed(
    bits: &mut BitCursor<'_>,
    s: StreamInfo,
    h: Header,
    channels: u32,
    scratch: &mut [i32],
) -> Result<u32, Refusal>
    requires { Sounding s channels h scratch.old }
    ensures { Sounds s.frame_length channels (λ packet. uncompressed packet s channels h.code h.samples) bits.old bits.new scratch.old scratch.new result }
{
    if h.code != 0 {
        return Err(Refusal::ShiftedRaw);
    }
    raw_samples(bits, s, channels, h.samples as usize, scratch)?;
    Ok(h.samples)
}

// The element, before a refusal's scratch is cleared.
fn decode_element(
    bits: &mut BitCursor<'_>,
    s: StreamInfo,
    channels: u32,
    scratch: &mut [i32],
) -> Result<u32, Refusal>
    requires { Hearable s channels scratch.old }
    ensures { Sounds s.frame_length channels (λ packet. audio_element packet s channels) bits.old bits.new scratch.old scratch.new result }
{
    let h = read_header(bits, s)?;
    if h.raw == 0 {
        decode_compressed(bits, s, h, channels, scratch)
    } else {
        decode_uncompressed(bits, s, h, channels, scratch)
    }
}

// One channel or two, into scratch. A refusal leaves zeros there.
pub fn decode_audio_element(
    bits: &mut BitCursor<'_>,
    s: StreamInfo,
    channels: u32,
    scratch: &mut [i32],
) -> Result<u32, Refusal>
    requires { Hearable s channels scratch.old }
    ensures { Hears s.frame_length channels (λ packet. audio_element packet s channels) bits.old bits.new scratch.old scratch.new result }
{
    let heard = decode_element(bits, s, channels, scratch);
    if heard.is_err() {
        clear(scratch, 2 * s.frame_length as usize);
    }
    heard
}
