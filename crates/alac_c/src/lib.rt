// The exported functions of libalac.a, each the one of crate alac. A slice is a pointer and a length; an array is a pointer.
// C has no generics, so each kind of output has a function.
#![tactic(auto)]

ghost use Rattle.rules.specs.Stream.{i16_output, i32_output};
ghost use Rattle.alac.specs.Boundary.{Told, Handed, Written};

#[unsafe(no_mangle)]
pub extern "C" fn alac_stream_info(cookie: &[u8], fields: &mut [u64; 11]) -> u32
    ensures { Told cookie.now fields.old fields.new result }
{
    alac::alac_stream_info(cookie, fields)
}

#[unsafe(no_mangle)]
pub extern "C" fn alac_decode_packet_i16(
    cookie: &[u8],
    packet: &[u8],
    out: &mut [i16],
    scratch: &mut [i32],
    answer: &mut [u64; 4],
) -> u32
    ensures { Handed i16_output cookie.now packet.now out.old out.new scratch.old scratch.new answer.new result }
{
    alac::alac_decode_packet::<i16>(cookie, packet, out, scratch, answer)
}

#[unsafe(no_mangle)]
pub extern "C" fn alac_decode_packet_i32(
    cookie: &[u8],
    packet: &[u8],
    out: &mut [i32],
    scratch: &mut [i32],
    answer: &mut [u64; 4],
) -> u32
    ensures { Handed i32_output cookie.now packet.now out.old out.new scratch.old scratch.new answer.new result }
{
    alac::alac_decode_packet::<i32>(cookie, packet, out, scratch, answer)
}

#[unsafe(no_mangle)]
pub extern "C" fn alac_encode_packet_i16(
    cookie: &[u8],
    settings: &[i16],
    passage: &[i16],
    bytes: &mut [u8],
    scratch: &mut [i32],
    answer: &mut [u64; 4],
) -> u32
    ensures { Written cookie.now settings.now passage.now bytes.old bytes.new scratch.old scratch.new answer.new result }
{
    alac::alac_encode_packet_i16(cookie, settings, passage, bytes, scratch, answer)
}
