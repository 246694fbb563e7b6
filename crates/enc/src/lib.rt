// `encode_packet_i16`: what it takes, how long a packet can be, and a passage into its one packet.
#![tactic(auto)]

ghost use Rattle.std.specs.Prelude.{◌≡◌, ◌+◌, ◌/◌, ◌*◌, ◌≤◌, map};
ghost use Rattle.rules.specs.Element.{all_of};
ghost use Rattle.rules.specs.Writer.{channel_in_range, mix_in_range, settings_used, in_range, bit_limit, joined, param_bits};
ghost use Rattle.enc_bits.specs.Sent.{Sent};
ghost use Rattle.enc.specs.Fits.{Limited, Fits};
ghost use Rattle.enc.specs.Promise.{Promise};
ghost use Rattle.enc.specs.Emitted.{Paramable, Writing, Wrote, Emitting, Emitted, Packing};

use buffers::clear;
use enc_bits::Sink;
use enc_channel::put_channel;
use rules::{ChannelSettings, PackingSettings, Refusal, StreamInfo};
use stream::accepts;

// ---- What the writer takes: refusals 19 and 20, and how long a packet can be.

fn channel_in_range(s: StreamInfo, c: ChannelSettings) -> bool
    ensures { result ≡ channel_in_range s c }
{
    let pb = s.pb as u64;
    let pb_factor = c.pb_factor as u64;
    let factor = pb * pb_factor / 4;
    (c.pb_factor <= 7) & (factor <= 127) & (1 <= c.quant) & (c.quant <= 15) & (c.order <= 30)
}

// Settings of a channel that is not there are not judged.
fn channels_in_range(s: StreamInfo, t: PackingSettings) -> bool
    ensures { result ≡ all_of (channel_in_range s) (settings_used s t) }
{
    let first = channel_in_range(s, t.first);
    let second = channel_in_range(s, t.second);
    ((s.num_channels < 1) | first) & ((s.num_channels < 2) | second)
}

// One channel has nothing to mix.
fn mix_in_range(channels: u32, mix_bits: u32, mix_res: u32) -> bool
    ensures { result ≡ mix_in_range channels mix_bits mix_res }
{
    if mix_bits > 7 {
        return false;
    }
    let whole = 1u32 << mix_bits;
    (mix_res <= 127) & (mix_res <= whole) & ((channels == 2) | ((mix_bits == 0) & (mix_res == 0)))
}

fn in_range(s: StreamInfo, t: PackingSettings) -> bool
    ensures { result ≡ in_range s t }
{
    let channels = channels_in_range(s, t);
    let mix = mix_in_range(s.num_channels as u32, t.mix_bits, t.mix_res);
    (s.bit_depth == 16) & (s.num_channels <= 2) & (8 <= s.kb) & (s.kb <= 31) & channels & mix
}

// At most one frame, and as many samples of each channel.
fn passage_fits(s: StreamInfo, length: usize) -> bool
    requires { 1 ≤ s.num_channels }
    ensures { Fits s length result }
{
    let frame = s.frame_length as usize;
    let channels = s.num_channels as usize;
    (length <= frame * channels) & (length % channels == 0)
}

fn channel_limit(order: u32, n: usize) -> usize
    requires { n ≤ 4096 }
    ensures { result ≡ 16 + 16 * order + 51 * n }
{
    16 + 16 * (order as usize) + 51 * n
}

// No packet of `n` samples a channel has more bytes.
fn byte_limit(s: StreamInfo, t: PackingSettings, n: usize) -> usize
    requires { Limited s n }
    ensures { result ≡ (bit_limit n (settings_used s t) + 7) / 8 }
{
    let one = channel_limit(t.first.order, n);
    if s.num_channels == 1 {
        return (one + 74 + 7) / 8;
    }
    let two = channel_limit(t.second.order, n);
    (one + (two + 74) + 7) / 8
}

// ---- The writer: a passage into the one packet that the rules name for it.

// The parameters of the channels that there are.
fn put_all_params(sink: &mut Sink, bytes: &mut [u8], s: StreamInfo, t: PackingSettings)
    requires { Paramable s t sink.old }
    ensures { Sent bytes.old bytes.new sink.old (joined (map param_bits (settings_used s t))) sink.new }
{
    sink.put_params(bytes, t.first);
    if s.num_channels == 2 {
        sink.put_params(bytes, t.second);
    }
}

// Their Rice data, one channel after the other.
fn put_channels(
    sink: &mut Sink,
    bytes: &mut [u8],
    s: StreamInfo,
    t: PackingSettings,
    passage: &[i16],
    scratch: &mut [i32],
)
    requires { Writing s t passage.now sink.old scratch.old }
    ensures { Wrote s t passage.now bytes.old bytes.new sink.old scratch.old scratch.new sink.new }
{
    put_channel(sink, bytes, s, t, t.first, 0, passage, scratch);
    if s.num_channels == 2 {
        put_channel(sink, bytes, s, t, t.second, 1, passage, scratch);
    }
}

// As many of the packet's bytes as there are places, and how many it has: in no places it is only measured.
fn emit(
    bytes: &mut [u8],
    s: StreamInfo,
    t: PackingSettings,
    passage: &[i16],
    scratch: &mut [i32],
) -> usize
    requires { Emitting s t passage.now scratch.old }
    ensures { Emitted s t passage.now bytes.old bytes.new scratch.old scratch.new result }
{
    let n = passage.len() / s.num_channels as usize;
    let mut sink = Sink::new();
    sink.put_head(
        bytes,
        s.num_channels as u32,
        n as u32,
        s.frame_length,
        t.mix_bits,
        t.mix_res,
    );
    put_all_params(&mut sink, bytes, s, t);
    put_channels(&mut sink, bytes, s, t, passage, scratch);
    sink.put_end(bytes);
    sink.at
}

// 21 leaves every byte as it was, so what may not fit is measured first.
fn pack(
    s: StreamInfo,
    t: PackingSettings,
    passage: &[i16],
    bytes: &mut [u8],
    scratch: &mut [i32],
) -> Result<usize, Refusal>
    requires { Emitting s t passage.now scratch.old }
    ensures { Packing s t passage.now bytes.old bytes.new scratch.old scratch.new result }
{
    let n = passage.len() / s.num_channels as usize;
    if byte_limit(s, t, n) <= bytes.len() {
        return Ok(emit(bytes, s, t, passage, scratch));
    }
    let length = emit(&mut bytes[..0], s, t, passage, scratch);
    if bytes.len() < length {
        return Err(Refusal::Bytes);
    }
    Ok(emit(bytes, s, t, passage, scratch))
}

pub fn encode_packet_i16(
    s: StreamInfo,
    t: PackingSettings,
    passage: &[i16],
    bytes: &mut [u8],
    scratch: &mut [i32],
) -> Result<usize, Refusal>
    ensures { Promise s t passage.now bytes.old bytes.new scratch.old scratch.new result }
{
    if !accepts::<i32>(s) {
        return Err(Refusal::Stream);
    }
    let places = 2 * (s.frame_length as usize);
    if scratch.len() < places {
        return Err(Refusal::Room);
    }
    clear(scratch, places);
    if !in_range(s, t) {
        return Err(Refusal::Settings);
    }
    if !passage_fits(s, passage.len()) {
        return Err(Refusal::Passage);
    }
    pack(s, t, passage, bytes, scratch)
}
