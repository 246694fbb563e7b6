// The readings of the writer: its rows, and a whole frame.
use crate::reader::are_samples;
use crate::report::{Counts, number_of};
use crate::row::{gives, number_at, number_up_to, passage_of, settings_of, stream_of};
use rules::Refusal;
use std::io;

// What is looked at behind the number: an enum for the same reason as `Kind`.
#[derive(Clone, Copy)]
pub enum Look {
    Nothing,
    Samples,
    Packet,
    Buffers,
}

pub fn reading(
    rt: &impl Print,
    counts: &mut Counts,
    row: &[u8],
    packet: &[u8],
    look: Look,
) -> io::Result<()> {
    let mut bytes = [7u8; 128];
    let mut scratch = [7i32; 9];
    let answer = packed(row, &mut bytes, &mut scratch);
    gives(rt, counts, row, number_of(answer))?;
    match look {
        Look::Nothing => Ok(()),
        Look::Samples => samples_read(rt, counts, row, &bytes),
        Look::Packet => written(rt, counts, row, packet, answer, &bytes, &scratch),
        Look::Buffers => refused(rt, counts, row, &bytes, &scratch),
    }
}

fn packed(row: &[u8], bytes: &mut [u8], scratch: &mut [i32]) -> Result<usize, Refusal> {
    let passage = passage_of(row);
    let samples = number_up_to(row, 13, 6);
    let lent = number_up_to(row, 20, bytes.len());
    let places = number_up_to(row, 21, scratch.len());
    enc::encode_packet_i16(
        stream_of(row),
        settings_of(row),
        &passage[0..samples],
        &mut bytes[0..lent],
        &mut scratch[0..places],
    )
}

// A packet, byte for byte, with what lies behind it; scratch; and the samples.
fn written(
    rt: &impl Print,
    counts: &mut Counts,
    row: &[u8],
    packet: &[u8],
    answer: Result<usize, Refusal>,
    bytes: &[u8; 128],
    scratch: &[i32; 9],
) -> io::Result<()> {
    let Ok(count) = answer else {
        return Ok(());
    };
    counts.holds(rt, b"its bytes", begins(bytes, count, packet))?;
    counts.holds(rt, b"the bytes behind stay", stays(bytes, count))?;
    scratch_is_clear(rt, counts, row, scratch)?;
    samples_read(rt, counts, row, bytes)
}

fn begins(bytes: &[u8], count: usize, packet: &[u8]) -> bool {
    if count <= bytes.len() {
        return check::same(&bytes[0..count], packet);
    }
    false
}

fn stays(bytes: &[u8], count: usize) -> bool {
    let sevens = [7u8; 128];
    if count <= 128 && count <= bytes.len() {
        return check::same(&bytes[count..], &sevens[count..]);
    }
    false
}

// What the writer takes is read back.
fn samples_read(
    rt: &impl Print,
    counts: &mut Counts,
    row: &[u8],
    bytes: &[u8; 128],
) -> io::Result<()> {
    if number_at(row, 22) > 0 {
        return Ok(());
    }
    let mut out = [7i16; 4];
    let mut scratch = [7i32; 8];
    let answer = dec::decode_packet(bytes, stream_of(row), &mut out, &mut scratch);
    counts.holds(rt, b"its samples", are_samples(row, answer, &out))
}

// 2 and 3 change no buffer. Past 3 scratch is cleared.
fn refused(
    rt: &impl Print,
    counts: &mut Counts,
    row: &[u8],
    bytes: &[u8; 128],
    scratch: &[i32; 9],
) -> io::Result<()> {
    counts.holds(rt, b"every byte stays", stays(bytes, 0))?;
    if number_at(row, 22) > 3 {
        return scratch_is_clear(rt, counts, row, scratch);
    }
    counts.holds(rt, b"all of scratch stays", is_clear(scratch, 0))
}

fn scratch_is_clear(
    rt: &impl Print,
    counts: &mut Counts,
    row: &[u8],
    scratch: &[i32; 9],
) -> io::Result<()> {
    let zeros = number_at(row, 0) as usize * 2;
    counts.holds(
        rt,
        b"scratch is zero, and stays behind",
        is_clear(scratch, zeros),
    )
}

// Zeros, and sevens behind them.
fn is_clear(scratch: &[i32; 9], zeros: usize) -> bool {
    for i in 0..9 {
        let left = if i < zeros { 0 } else { 7 };
        if scratch[i] != left {
            return false;
        }
    }
    true
}

// A passage of zeros: a symbol, then a run of 4095 zeros, which is an escape.
pub fn whole_frame(
    rt: &impl Print,
    counts: &mut Counts,
    row: &[u8],
    packet: &[u8],
) -> io::Result<()> {
    let passage = [0i16; 4096];
    let mut bytes = [7u8; 11];
    let mut scratch = [7i32; 8193];
    let answer = enc::encode_packet_i16(
        stream_of(row),
        settings_of(row),
        &passage,
        &mut bytes,
        &mut scratch,
    );
    gives(rt, counts, row, number_of(answer))?;
    counts.holds(rt, b"its bytes", check::same(&bytes, packet))?;
    counts.holds(
        rt,
        b"the last of 8192 places of scratch is zero, the next stays",
        (scratch[8191] == 0) & (scratch[8192] == 7),
    )
}
