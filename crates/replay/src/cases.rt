// A case of the list: a front of 14 bytes and the packet. The front: width (2 or 4), frame length, depth, pb, mb, kb, channels,
// the packet's length, then the original's answer: number, count, and the checksum of the output places (4 bytes).
use crate::answers::{Reply, answer};
use crate::report::Case;
use rules::StreamInfo;
use std::io::Read;

// The list opens with its number of cases.
pub fn number_of_cases(rt: &impl Input) -> u32 {
    let mut bytes = [0u8; 2];
    read_full(rt, &mut bytes);
    u32::from(u16::from_be_bytes(bytes))
}

pub fn replayed(rt: &impl Input) -> Case {
    let mut front = [0u8; 14];
    read_full(rt, &mut front);
    Case {
        original: recorded(&front),
        ours: answered(rt, front[7], front[0], stream(&front)),
    }
}

// The packet follows its front, in an array: there is no heap. Each place holds 7 before the call, so those that should stay count too.
fn answered(rt: &impl Input, length: u8, width: u8, s: StreamInfo) -> Reply {
    let mut bytes = [0u8; 256];
    let n = length as usize;
    answered_in(rt, &mut bytes[..n], width, s)
}

fn answered_in(rt: &impl Input, packet: &mut [u8], width: u8, s: StreamInfo) -> Reply {
    read_full(rt, packet);
    if width == 2 {
        answer(packet, s, [7i16; 128])
    } else {
        answer(packet, s, [7i32; 128])
    }
}

fn stream(front: &[u8; 14]) -> StreamInfo {
    StreamInfo {
        frame_length: u32::from(front[1]),
        compatible_version: 0,
        bit_depth: front[2],
        pb: front[3],
        mb: front[4],
        kb: front[5],
        num_channels: front[6],
        max_run: 255,
        max_frame_bytes: 0,
        avg_bit_rate: 0,
        sample_rate: 44100,
    }
}

fn recorded(front: &[u8; 14]) -> Reply {
    Reply {
        number: u32::from(front[8]),
        count: u64::from(front[9]),
        sum: u32::from_be_bytes([front[10], front[11], front[12], front[13]]),
    }
}

// Where the list ends early, the places that are left stay zero.
fn read_full(rt: &impl Input, places: &mut [u8]) {
    let mut input = rt.reader();
    let _ = input.read_exact(places);
}
