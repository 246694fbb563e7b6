// A row is a line of standard input: 26 numbers of four places, a blank, a text with a packet in it or behind it, and perhaps a note.
// What is left blank is 0. The numbers, as the tables' headings name them:
//  (0) dep cha pb kb         frame length, depth, channels, pb, kb
//  mxb mxr                   mix_bits, mix_res
//  fac qnt ord, twice        pb_factor, quant and order of the first channel, and of the second
//  smp 1 2 3 4 5 6           how many samples the passage has, and the samples, a digit each
//  out scr                   how many bytes or samples of output are lent, and how many places of scratch
//  say                       the number that is wanted
//  txt                       how much of the text is printed
//  at by                     where in the text the packet begins, and its bytes: two hexadecimal digits each, a blank between
ghost use Rattle.std.specs.Prelude.{◌≤◌};

use crate::report::Counts;
use crate::streams::stream;
use rules::{ChannelSettings, PackingSettings, StreamInfo};
use std::io;
use std::io::Read;

const TEXT: usize = 105;

// Fixed places, as everywhere here: there is no heap.
pub fn row_read(rt: &impl Input) -> [u8; 336] {
    let mut row = [0u8; 336];
    for i in 0..336 {
        let c = character_read(rt);
        if c == 10 {
            return row;
        }
        row[i] = c;
    }
    row
}

// Past the end of the input it is 0.
fn character_read(rt: &impl Input) -> u8 {
    let mut c = [0u8; 1];
    let mut input = rt.reader();
    let _ = input.read_exact(&mut c);
    c[0]
}

pub fn stream_of(row: &[u8]) -> StreamInfo {
    let mut s = stream(number_at(row, 0), byte_at(row, 1), byte_at(row, 2));
    s.pb = byte_at(row, 3);
    s.kb = byte_at(row, 4);
    s
}

fn byte_at(row: &[u8], column: u8) -> u8 {
    (number_at(row, column) % 256) as u8
}

pub fn settings_of(row: &[u8]) -> PackingSettings {
    PackingSettings {
        mix_bits: number_at(row, 5),
        mix_res: number_at(row, 6),
        first: channel(number_at(row, 7), number_at(row, 8), number_at(row, 9)),
        second: channel(number_at(row, 10), number_at(row, 11), number_at(row, 12)),
    }
}

// The coefficients are the same in all rows: 4660 weighs the newest sample, -2 the one before it.
fn channel(pb_factor: u32, quant: u32, order: u32) -> ChannelSettings {
    let mut coefs = [7i16; 30];
    coefs[0] = 4660;
    coefs[1] = -2;
    ChannelSettings {
        pb_factor,
        quant,
        order,
        coefs,
    }
}

pub fn passage_of(row: &[u8]) -> [i16; 6] {
    [
        sample_at(row, 14),
        sample_at(row, 15),
        sample_at(row, 16),
        sample_at(row, 17),
        sample_at(row, 18),
        sample_at(row, 19),
    ]
}

const BELOW_ZERO: [i16; 10] = [0, -1, -2, -3, -4, -5, -6, -7, -8, -9];

// A digit, and a sign right before it. A blank is 7, as what lies behind a passage is. `parse` knows neither of the blanks.
pub fn sample_at(row: &[u8], column: u8) -> i16 {
    let at = column as usize * 4;
    let digit = digit_at(row, at + 3) % 10;
    if character_at(row, at + 2) == b'-' {
        return BELOW_ZERO[digit as usize];
    }
    if character_at(row, at + 3) == b' ' {
        return 7;
    }
    digit as i16
}

// The row's text, and the number that it gives beside the one that is wanted.
pub fn gives(rt: &impl Print, counts: &mut Counts, row: &[u8], gave: u32) -> io::Result<()> {
    let end = TEXT + number_at(row, 23) as usize;
    if end <= row.len() {
        return counts.gives(rt, &row[TEXT..end], gave, number_at(row, 22));
    }
    Ok(())
}

// A part that is lent is never longer than what it is a part of.
pub fn number_up_to(row: &[u8], column: u8, most: usize) -> usize
    ensures { result ≤ most }
{
    most.min(number_at(row, column) as usize)
}

pub fn number_at(row: &[u8], column: u8) -> u32 {
    let at = column as usize * 4;
    let hundreds = digit_at(row, at) % 10 * 10 + digit_at(row, at + 1) % 10;
    let rest = digit_at(row, at + 2) % 10 * 10 + digit_at(row, at + 3) % 10;
    hundreds as u32 * 100 + rest as u32
}

// Room for the longest packet of a row.
pub fn packet_of(row: &[u8]) -> [u8; 72] {
    let mut packet = [0u8; 72];
    for i in 0..72 {
        packet[i] = packet_byte(row, i);
    }
    packet
}

fn packet_byte(row: &[u8], i: usize) -> u8 {
    if i > 71 {
        return 0;
    }
    let at = TEXT + number_at(row, 24) as usize + i * 3;
    digit_at(row, at) % 16 * 16 + digit_at(row, at + 1) % 16
}

// 0 to 9, or A to F. A blank and a sign stand for 0, which `to_digit` does not take.
fn digit_at(row: &[u8], at: usize) -> u8 {
    let c = character_at(row, at);
    if c < 48 {
        0
    } else if c < 65 {
        c % 16
    } else {
        c % 16 + 9
    }
}

fn character_at(row: &[u8], at: usize) -> u8 {
    *row.get(at).unwrap_or(&b' ')
}
