// walk pack: samples to packets, a frame at a time.
ghost use Rattle.std.specs.Prelude.{◌≤◌, length};
ghost use Rattle.walk.specs.Held.{Small, Pairs};

use crate::input::read_full;
use crate::packets::{ended, put_packet, sent};
use crate::say::{Counts, Stopped};
use crate::{files, room, say};
use rules::{PackingSettings, Refusal, StreamInfo};
use std::rt::{Env, Files};

pub fn pack<R: Alloc + Env + Eprint + Files + Input + Print>(rt: &R) -> Result<(), Stopped> {
    let s = files::open_stream(rt)?;
    let mut numbers = [0i16; 68];
    let n = files::load_numbers(rt, &mut numbers)?;
    let t = settings::settings_of(&numbers[..n], s.num_channels);
    if stream::accepts::<i32>(s) {
        judge(rt, s, t)?;
        return pack_all(rt, s, t);
    }
    Err(files::refuse_stream(rt))
}

// The writer judges the settings on an empty passage, so that they are refused whatever the input. Its packet fits 256 bytes.
fn judge(rt: &impl Eprint, s: StreamInfo, t: PackingSettings) -> Result<(), Stopped> {
    let passage = [0i16; 1];
    let mut scratch = [0i32; room::SCRATCH];
    let mut places = [0u8; 256];
    match enc::encode_packet_i16(s, t, &passage[..0], &mut places, &mut scratch) {
        Ok(_) => Ok(()),
        Err(refusal) => Err(refuse(rt, 0, refusal)),
    }
}

// The turns are counted, as in reading.
fn pack_all(
    rt: &(impl Eprint + Input + Print),
    s: StreamInfo,
    t: PackingSettings,
) -> Result<(), Stopped>
    requires { Small s }
{
    let mut counts = Counts::default();
    for _ in 0..u64::MAX {
        counts = pack_next(rt, s, t, counts)?;
    }
    Ok(())
}

// Whole samples of all channels are packed before the program stops at a part of one.
fn pack_next(
    rt: &(impl Eprint + Input + Print),
    s: StreamInfo,
    t: PackingSettings,
    so_far: Counts,
) -> Result<Counts, Stopped>
    requires { Small s }
{
    let mut input = rt.reader();
    let mut bytes = [0u8; room::BYTES];
    let channels = s.num_channels as usize;
    let most = 2 * (s.frame_length as usize * channels);
    let got = read_full(&mut input, &mut bytes[..most]);
    if got == 0 {
        return Err(ended(rt, so_far));
    }
    let whole = whole_of(got, channels);
    if whole == 0 {
        return Err(ragged(rt, so_far));
    }
    let counts = packed(rt, s, t, &bytes[..whole], so_far)?;
    if whole < got {
        return Err(ragged(rt, counts));
    }
    Ok(counts)
}

// The bytes of whole samples of all channels.
fn whole_of(got: usize, channels: usize) -> usize
    requires le_channels { 1 ≤ channels }
    requires channels_bound { channels ≤ 8 }
    ensures { Pairs got result }
{
    let samples = got / (2 * channels) * channels;
    2 * samples
}

fn ragged(rt: &impl Eprint, counts: Counts) -> Stopped {
    say::stop(rt, counts.packets, "the input ends inside a sample")
}

fn packed(
    rt: &(impl Eprint + Print),
    s: StreamInfo,
    t: PackingSettings,
    bytes: &[u8],
    so_far: Counts,
) -> Result<Counts, Stopped>
    requires { Pairs 65536 (length bytes.now) }
{
    let mut samples = [0i16; room::SAMPLES];
    let n = bytes.len() / 2;
    wire::samples_of(bytes, &mut samples[..n]);
    written(rt, s, t, &samples[..n], so_far)
}

fn written(
    rt: &(impl Eprint + Print),
    s: StreamInfo,
    t: PackingSettings,
    passage: &[i16],
    so_far: Counts,
) -> Result<Counts, Stopped> {
    let mut scratch = [0i32; room::SCRATCH];
    let mut places = [0u8; room::PACKET];
    match enc::encode_packet_i16(s, t, passage, &mut places, &mut scratch) {
        Ok(n) => sent(rt, put_packet(rt, &places[..n]), so_far, so_far.one_more()),
        Err(refusal) => Err(refuse(rt, so_far.packets, refusal)),
    }
}

fn refuse(rt: &impl Eprint, packets: u64, refusal: Refusal) -> Stopped {
    let number = u32::from(refusal);
    say::stop_with(rt, packets, "the writer refuses: ", number as u64)
}
