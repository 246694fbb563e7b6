// A packet read whole, for every kind of output.
#![tactic(auto)]

ghost use Rattle.std.specs.Prelude.{◌≡◌, map};
ghost use Rattle.rules.specs.Buffers.{stored};
ghost use Rattle.rules.specs.Reader as reader;
ghost use Rattle.buffers.specs.Halves.{parts};
ghost use Rattle.dec.specs.Promise.{Promise};
ghost use Rattle.dec.specs.Told.{judgement, Readable, Layable, Finished};

use bitcursor::BitCursor;
use buffers::{clear, store};
use dec_packet::{Element, State, next_element};
use rules::{Decoded, Refusal, Refused, StreamInfo};
use stream::{Sample, accepts};

fn roomy(s: StreamInfo, out: usize, scratch: usize) -> bool
    ensures { result ≡ reader.roomy s out scratch }
{
    let frame = s.frame_length as usize;
    let channels = s.num_channels as usize;
    (frame * channels <= out) & (2 * frame <= scratch)
}

// 2, then 3, before any bit is read.
fn judge<S: Sample>(s: StreamInfo, out: usize, scratch: usize) -> Result<(), Refusal>
    ensures { result ≡ judgement S.output s out scratch }
{
    let stream = accepts::<S>(s);
    let room = roomy(s, out, scratch);
    if !stream {
        return Err(Refusal::Stream);
    }
    if !room {
        return Err(Refusal::Room);
    }
    Ok(())
}

// The channels of an element, from `so_far` on, into their places.
fn lay<S: Sample>(scratch: &[i32], out: &mut [S], s: StreamInfo, so_far: u32, w: u32, n: u32)
    requires { Layable s so_far w n scratch.now out.old }
    ensures { out.new ≡ stored s.num_channels so_far (map (map (S.output.keep s.bit_depth)) (parts s.frame_length n w scratch.now)) out.old }
{
    let count = n as usize;
    let half = s.frame_length as usize;
    let first = so_far as usize;
    let channels = s.num_channels as usize;
    store(&scratch[..count], out, first, channels, s.bit_depth);
    if w == 1 {
        return;
    }
    let end = half + count;
    store(&scratch[half..end], out, first + 1, channels, s.bit_depth);
}

// Element by element, until END or a refusal.
fn read_all<S: Sample>(
    bits: &mut BitCursor<'_>,
    s: StreamInfo,
    out: &mut [S],
    scratch: &mut [i32],
) -> Result<usize, Refusal>
    requires start { bits.old.at ≡ 0 }
    requires readable { Readable s out.old scratch.old }
    ensures { Finished S.output s bits.old bits.new out.old out.new scratch.old scratch.new result }
{
    let mut st = State {
        channels: 0,
        samples: None,
    };
    // Until END: no range counts the elements.
    loop {
        let element = next_element(bits, s, st, scratch)?;
        match element {
            Element::End(n) => return Ok(n as usize * s.num_channels as usize),
            Element::Audio { channels, samples } => {
                lay(scratch, out, s, st.channels, channels, samples);
                st = State {
                    channels: st.channels + channels,
                    samples: Some(samples),
                };
            }
            Element::Passed => {}
        }
    }
}

// Past 2 and 3, scratch ends as zeros; after a refusal there the output is silence.
pub fn decode_packet<S: Sample>(
    packet: &[u8],
    s: StreamInfo,
    out: &mut [S],
    scratch: &mut [i32],
) -> Result<Decoded, Refused>
    ensures { Promise S.output s packet.now out.old out.new scratch.old scratch.new result }
{
    let mut bits = BitCursor::new(packet);
    if let Err(refusal) = judge::<S>(s, out.len(), scratch.len()) {
        let at = bits.place();
        return Err(Refused { refusal, at });
    }
    let answer = read_all(&mut bits, s, out, scratch);
    clear(scratch, 2 * s.frame_length as usize);
    let at = bits.place();
    match answer {
        Ok(count) => Ok(Decoded { count, at }),
        Err(refusal) => {
            clear(out, s.frame_length as usize * s.num_channels as usize);
            Err(Refused { refusal, at })
        }
    }
}
