// Which streams are accepted, the kinds of output, the cookie, and the five getters.
#![tactic(auto)]

ghost use Rattle.std.specs.Prelude.{◌≡◌, ◌≤◌, ℕ, true, length};
ghost use Rattle.rules.specs.Stream.{Width, i16_output, i32_output, accepted, max_samples_per_packet};
ghost use Rattle.rules.specs.Cookie.{big_endian, past_atom, info_of, from_cookie};
ghost use Rattle.stream.specs.Accepts.{Accepts};
ghost use Rattle.stream.specs.Depths.{depth_i16, depth_i32};

use rules::{Refusal, StreamInfo};
use words::{low_i16, shift_up};

// ---- The kinds of output: `Sample` of dec.rs.

// What a place of the output can be, by the depths that it takes and what it keeps of a sample.
pub trait Sample: Copy {
    ghost output: { Width Self };

    fn silence() -> Self
        ensures { result ≡ output.silence };

    fn takes(depth: u8) -> bool
        ensures { result ≡ output.takes depth };

    fn keep(sample: i32, depth: u8) -> Self
        requires le_depth { 1 ≤ depth }
        requires depth_bound { depth ≤ 32 }
        ensures { result ≡ output.keep depth sample };

    ghost depths: { (depth : ℕ) → output.takes depth ≡ true → (16 ≤ depth) × (depth ≤ 32) };
}

// The low 16 bits.
impl Sample for i16 {
    ghost output = { i16_output };

    ghost depths = { depth_i16 };

    fn silence() -> i16 {
        0
    }

    fn takes(depth: u8) -> bool {
        depth == 16
    }

    fn keep(sample: i32, _depth: u8) -> i16 {
        low_i16(sample as i64)
    }
}

// Shifted to the top of 32 bits.
impl Sample for i32 {
    ghost output = { i32_output };

    ghost depths = { depth_i32 };

    fn silence() -> i32 {
        0
    }

    fn takes(depth: u8) -> bool {
        matches!(depth, 16 | 20 | 24 | 32)
    }

    fn keep(sample: i32, depth: u8) -> i32 {
        shift_up(sample, 32 - depth as u32)
    }
}

// ---- Which streams are accepted: refusal 2, for the reader and the writer alike.

// Every field but the depth, of which each kind of output has its own say.
pub fn accepted(s: StreamInfo, taken: bool) -> bool
    ensures { Accepts s taken result }
{
    (1 <= s.frame_length)
        & (s.frame_length <= 4096)
        & taken
        & (1 <= s.num_channels)
        & (s.num_channels <= 8)
        & (1 <= s.kb)
        & (s.kb <= 31)
}

pub fn accepts<S: Sample>(s: StreamInfo) -> bool
    ensures { result ≡ accepted S.output s }
{
    accepted(s, S::takes(s.bit_depth))
}

// ---- The cookie and the getters of a stream: lib.rs. Functions, since StreamInfo is a type of `rules`, and an `impl` for a type of another crate is refused.

// `frma` and `alac`, the names of the atoms that older files have before the fields.
const FRMA: u32 = 0x66726D61;

const ALAC: u32 = 0x616C6163;

pub fn from_cookie(cookie: &[u8]) -> Result<StreamInfo, Refusal>
    ensures { result ≡ from_cookie cookie.now }
{
    if cookie.len() < 24 {
        return Err(Refusal::Cookie);
    }
    let inner = past_atom(cookie, FRMA);
    let fields = past_atom(inner, ALAC);
    if fields.len() < 24 {
        return Err(Refusal::Cookie);
    }
    Ok(info_of(fields))
}

pub fn sample_rate(info: StreamInfo) -> u32
    ensures { result ≡ info.sample_rate }
{
    info.sample_rate
}

pub fn bit_depth(info: StreamInfo) -> u8
    ensures { result ≡ info.bit_depth }
{
    info.bit_depth
}

pub fn channels(info: StreamInfo) -> u8
    ensures { result ≡ info.num_channels }
{
    info.num_channels
}

pub fn max_frames_per_packet(info: StreamInfo) -> u32
    ensures { result ≡ info.frame_length }
{
    info.frame_length
}

// Wraps at 32 bits, as the Rust does in release.
pub fn max_samples_per_packet(info: StreamInfo) -> u32
    ensures { result ≡ max_samples_per_packet info }
{
    let samples = (info.frame_length as u64) * (info.num_channels as u64);
    (samples % 0x1_0000_0000) as u32
}

// What follows the atom of this name where one stands first, else all.
fn past_atom(cookie: &[u8], name: u32) -> &[u8]
    requires { 12 ≤ length cookie.now }
    ensures { result.now ≡ past_atom name cookie.now }
{
    if read_be_u32(&cookie[4..8]) == name {
        &cookie[12..]
    } else {
        cookie
    }
}

fn info_of(cookie: &[u8]) -> StreamInfo
    requires { 24 ≤ length cookie.now }
    ensures { result ≡ info_of cookie.now }
{
    StreamInfo {
        frame_length: read_be_u32(&cookie[0..4]),
        compatible_version: cookie[4],
        bit_depth: cookie[5],
        pb: cookie[6],
        mb: cookie[7],
        kb: cookie[8],
        num_channels: cookie[9],
        max_run: read_be_u16(&cookie[10..12]),
        max_frame_bytes: read_be_u32(&cookie[12..16]),
        avg_bit_rate: read_be_u32(&cookie[16..20]),
        sample_rate: read_be_u32(&cookie[20..24]),
    }
}

// Two names for one call each: one over both widths would need a trait of its own.
fn read_be_u16(buf: &[u8]) -> u16
    requires { length buf.now ≡ 2 }
    ensures { result ≡ big_endian buf.now }
{
    u16::from_be_bytes([buf[0], buf[1]])
}

fn read_be_u32(buf: &[u8]) -> u32
    requires { length buf.now ≡ 4 }
    ensures { result ≡ big_endian buf.now }
{
    u32::from_be_bytes([buf[0], buf[1], buf[2], buf[3]])
}
