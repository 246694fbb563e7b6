// walk unpack and walk check: packets to samples, or to a line each.
ghost use Rattle.std.specs.Prelude.{◌*◌, ◌≤◌, length};
ghost use Rattle.walk.specs.Held.{Small};

use crate::packets::{ended, next_packet, sent};
use crate::say::{Counts, Stopped};
use crate::{files, room, say};
use rules::{Refusal, StreamInfo};
use std::io;
use std::rt::{Env, Files};

// What goes out for a packet: its samples, or a line in their place.
#[derive(Clone, Copy)]
enum Output {
    Samples,
    Line,
}

pub fn unpack<R: Alloc + Env + Eprint + Files + Input + Print>(rt: &R) -> Result<(), Stopped> {
    read_packets(rt, Output::Samples)
}

pub fn check<R: Alloc + Env + Eprint + Files + Input + Print>(rt: &R) -> Result<(), Stopped> {
    read_packets(rt, Output::Line)
}

fn read_packets<R: Alloc + Env + Eprint + Files + Input + Print>(
    rt: &R,
    output: Output,
) -> Result<(), Stopped> {
    let s = files::open_stream(rt)?;
    if stream::accepts::<i16>(s) {
        return read_all(rt, s, output);
    }
    Err(files::refuse_stream(rt))
}

// A proved loop has to end, and nothing says that the input does: the turns are counted up to a number that no run reaches.
fn read_all(
    rt: &(impl Eprint + Input + Print),
    s: StreamInfo,
    output: Output,
) -> Result<(), Stopped>
    requires { Small s }
{
    let mut counts = Counts::default();
    for _ in 0..u64::MAX {
        counts = read_next(rt, s, output, counts)?;
    }
    Ok(())
}

fn read_next(
    rt: &(impl Eprint + Input + Print),
    s: StreamInfo,
    output: Output,
    so_far: Counts,
) -> Result<Counts, Stopped>
    requires { Small s }
{
    let mut places = [0u8; room::PACKET];
    match next_packet(rt, &mut places, so_far)? {
        Some(n) => read_one(rt, &places[..n], s, output, so_far),
        None => Err(ended(rt, so_far)),
    }
}

// A refused packet leaves silence of a whole frame, and that goes out in its place.
fn read_one(
    rt: &(impl Eprint + Print),
    packet: &[u8],
    s: StreamInfo,
    output: Output,
    so_far: Counts,
) -> Result<Counts, Stopped>
    requires { Small s }
{
    let mut samples = [0i16; room::SAMPLES];
    let mut scratch = [0i32; room::SCRATCH];
    let frame = s.frame_length as usize;
    let places = frame * s.num_channels as usize;
    let halves = 2 * frame;
    match dec::decode_packet(packet, s, &mut samples[..places], &mut scratch[..halves]) {
        Ok(decoded) => sent(
            rt,
            put(rt, output, None, &samples[..decoded.count]),
            so_far,
            so_far.one_more(),
        ),
        Err(refused) => {
            let refusal = refused.refusal;
            let counts = say::refused(rt, so_far, u32::from(refusal));
            sent(
                rt,
                put(rt, output, Some(refusal), &samples[..places]),
                so_far,
                counts,
            )
        }
    }
}

// A refused packet's line counts no samples.
fn put(rt: &impl Print, output: Output, refusal: Option<Refusal>, samples: &[i16]) -> io::Result<()>
    requires { 2 * length samples.now ≤ 65536 }
{
    match output {
        Output::Samples => put_samples(rt, samples),
        Output::Line => {
            let (number, count) = match refusal {
                None => (0, samples.len()),
                Some(refusal) => (u32::from(refusal), 0),
            };
            println!(rt; "{number} {count}")
        }
    }
}

fn put_samples(rt: &impl Print, samples: &[i16]) -> io::Result<()>
    requires { 2 * length samples.now ≤ 65536 }
{
    let mut bytes = [0u8; room::BYTES];
    let n = 2 * samples.len();
    wire::bytes_of(samples, &mut bytes[..n]);
    rt.write_all(&bytes[..n])
}
