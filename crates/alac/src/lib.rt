// The boundary: the entries as a program in another language calls them, with the cookie's bytes and flat settings. alac_c exports these.
#![tactic(auto)]

ghost use Rattle.std.specs.Prelude.{◌≡◌};
ghost use Rattle.rules.specs.Refusals.{read_number, read_count, packed_number, packed_count};
ghost use Rattle.alac.specs.Boundary.{Told, Handed, Worded, Written, fields_of};

use dec::decode_packet;
use enc::encode_packet_i16;
use rules::{Decoded, Refusal, Refused, StreamInfo};
use settings::settings_of;
use stream::{Sample, from_cookie};

// The fields in StreamInfo's order, as C takes them: no conversion by a trait, since the order is the interface.
fn fields_of(s: StreamInfo) -> [u64; 11]
    ensures { result ≡ fields_of s }
{
    [
        s.frame_length as u64,
        s.compatible_version as u64,
        s.bit_depth as u64,
        s.pb as u64,
        s.mb as u64,
        s.kb as u64,
        s.num_channels as u64,
        s.max_run as u64,
        s.max_frame_bytes as u64,
        s.avg_bit_rate as u64,
        s.sample_rate as u64,
    ]
}

pub fn alac_stream_info(cookie: &[u8], fields: &mut [u64; 11]) -> u32
    ensures { Told cookie.now fields.old fields.new result }
{
    match from_cookie(cookie) {
        Err(refusal) => u32::from(refusal),
        Ok(s) => {
            *fields = fields_of(s);
            0
        }
    }
}

// The words of an answer, and its number, as C takes them.
fn tell(answer: &mut [u64; 4], number: u32, count: usize) -> u32
    ensures { Worded number count answer.new result }
{
    *answer = [number as u64, count as u64, 0, 0];
    number
}

fn tell_read(answer: &mut [u64; 4], read: Result<Decoded, Refused>) -> u32
    ensures { Worded (read_number read) (read_count read) answer.new result }
{
    match read {
        Ok(decoded) => tell(answer, 0, decoded.count),
        Err(refused) => tell(answer, u32::from(refused.refusal), 0),
    }
}

// A packet for any kind of output.
pub fn alac_decode_packet<S: Sample>(
    cookie: &[u8],
    packet: &[u8],
    out: &mut [S],
    scratch: &mut [i32],
    answer: &mut [u64; 4],
) -> u32
    ensures { Handed S.output cookie.now packet.now out.old out.new scratch.old scratch.new answer.new result }
{
    match from_cookie(cookie) {
        Err(refusal) => tell(answer, u32::from(refusal), 0),
        Ok(s) => tell_read(answer, decode_packet(packet, s, out, scratch)),
    }
}

fn tell_packed(answer: &mut [u64; 4], packed: Result<usize, Refusal>) -> u32
    ensures { Worded (packed_number packed) (packed_count packed) answer.new result }
{
    match packed {
        Ok(count) => tell(answer, 0, count),
        Err(refusal) => tell(answer, u32::from(refusal), 0),
    }
}

pub fn alac_encode_packet_i16(
    cookie: &[u8],
    settings: &[i16],
    passage: &[i16],
    bytes: &mut [u8],
    scratch: &mut [i32],
    answer: &mut [u64; 4],
) -> u32
    ensures { Written cookie.now settings.now passage.now bytes.old bytes.new scratch.old scratch.new answer.new result }
{
    match from_cookie(cookie) {
        Err(refusal) => tell(answer, u32::from(refusal), 0),
        Ok(s) => {
            let t = settings_of(settings, s.num_channels);
            tell_packed(answer, encode_packet_i16(s, t, passage, bytes, scratch))
        }
    }
}
