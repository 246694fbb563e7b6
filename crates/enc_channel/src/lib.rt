// One channel of a packet: its samples and their residuals, side by side in scratch, then its Rice data.
#![tactic(auto)]

ghost use Rattle.std.specs.Prelude.{◌≡◌, ◌++◌, reverse, ◌-◌, ◌≤◌, pos, take, replicate};
ghost use Rattle.rules.specs.Stream.{factor};
ghost use Rattle.rules.specs.Writer.{written_bits, rice_code};
ghost use Rattle.laws.specs.Writer.{residuals_of};
ghost use Rattle.enc_bits.specs.Sent.{Sent};
ghost use Rattle.enc_channel.specs.Channel.{Residing, Written, lane_of, Fillable, ChannelAsked, ChannelSent};

use buffers::clear;
use dec_rice::Coding;
use enc_bits::Sink;
use enc_rice::put_rice;
use lpc::lpc_residuals;
use mix::mix_lane;
use rules::{ChannelSettings, PackingSettings, StreamInfo};

// The coefficients in the order of their use, the oldest sample's first; those past the order are zero: there is no heap.
fn oldest_first(newest_first: [i16; 30], order: usize) -> [i16; 30]
    requires { order ≤ 30 }
    ensures { result ≡ reverse (take order newest_first) ++ replicate (30 - order) (pos 0) }
{
    let mut coefs = [0i16; 30];
    for j in 0..order {
        let coef = newest_first[j];
        coefs[order - 1 - j] = coef;
    }
    coefs
}

// The residuals of `n` samples, after them.
fn residuals_of(s: StreamInfo, c: ChannelSettings, bps: u32, n: usize, buf: &mut [i32])
    requires { Residing s c bps n buf.old }
    ensures { buf.new ≡ take n buf.old ++ (residuals_of bps c (take n buf.old)).values }
{
    let order = c.order as usize;
    let mut coefs = oldest_first(c.coefs, order);
    lpc_residuals(buf, n, bps, &mut coefs[..order], c.quant);
}

fn put_codes(
    sink: &mut Sink,
    bytes: &mut [u8],
    s: StreamInfo,
    c: ChannelSettings,
    bps: u32,
    residuals: &[i32],
)
    requires { Written s c bps residuals.now sink.old }
    ensures { Sent bytes.old bytes.new sink.old (rice_code (factor s c.pb_factor) s.kb bps residuals.now 0 s.mb 0).bits sink.new }
{
    let coding = Coding {
        kb: s.kb as u32,
        factor: s.pb as u32 * c.pb_factor / 4,
        bits: bps,
    };
    put_rice(sink, bytes, residuals, coding, s.mb);
}

// The samples of channel `which`, and their residuals after them.
fn fill(
    passage: &[i16],
    s: StreamInfo,
    t: PackingSettings,
    c: ChannelSettings,
    which: usize,
    n: usize,
    buf: &mut [i32],
)
    requires { Fillable s t c which n passage.now buf.old }
    ensures { buf.new ≡ lane_of s t passage.now which ++ (residuals_of (written_bits s t) c (lane_of s t passage.now which)).values }
{
    let channels = s.num_channels as usize;
    let bps = s.bit_depth as u32 + s.num_channels as u32 - 1;
    mix_lane(
        passage,
        channels,
        which,
        t.mix_bits,
        t.mix_res as i32,
        &mut buf[..n],
    );
    residuals_of(s, c, bps, n, buf);
}

// Scratch is used and cleared.
pub fn put_channel(
    sink: &mut Sink,
    bytes: &mut [u8],
    s: StreamInfo,
    t: PackingSettings,
    c: ChannelSettings,
    which: usize,
    passage: &[i16],
    scratch: &mut [i32],
)
    requires { ChannelAsked s t c which passage.now sink.old scratch.old }
    ensures { ChannelSent s t c which passage.now bytes.old bytes.new sink.old scratch.old scratch.new sink.new }
{
    let n = passage.len() / s.num_channels as usize;
    let end = n + n;
    let bps = s.bit_depth as u32 + s.num_channels as u32 - 1;
    fill(passage, s, t, c, which, n, &mut scratch[..end]);
    put_codes(sink, bytes, s, c, bps, &scratch[n..end]);
    clear(scratch, 2 * s.frame_length as usize);
}
