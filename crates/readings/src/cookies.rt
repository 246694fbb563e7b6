// The readings of the cookie, which are rows, and of the getters.
use crate::report::Counts;
use crate::row;
use crate::streams::stream;
use rules::StreamInfo;
use std::io;

// Bytes that all differ, so that no field can pass for another.
const BYTES_1_TO_24: StreamInfo = StreamInfo {
    frame_length: 0x01020304,
    compatible_version: 0x05,
    bit_depth: 0x06,
    pb: 0x07,
    mb: 0x08,
    kb: 0x09,
    num_channels: 0x0A,
    max_run: 0x0B0C,
    max_frame_bytes: 0x0D0E0F10,
    avg_bit_rate: 0x11121314,
    sample_rate: 0x15161718,
};

pub fn reading(rt: &impl Print, counts: &mut Counts, row: &[u8], cookie: &[u8]) -> io::Result<()> {
    match stream::from_cookie(cookie) {
        Ok(info) => {
            row::gives(rt, counts, row, 0)?;
            counts.holds(
                rt,
                b"its fields are the bytes 1 to 24",
                info == BYTES_1_TO_24,
            )
        }
        Err(refusal) => row::gives(rt, counts, row, u32::from(refusal)),
    }
}

pub fn fields(rt: &impl Print, counts: &mut Counts) -> io::Result<()> {
    let info = stream(4096, 16, 2);
    counts.gives(rt, b"sample rate", stream::sample_rate(info), 44100)?;
    counts.gives(rt, b"bit depth", u32::from(stream::bit_depth(info)), 16)?;
    counts.gives(rt, b"channels", u32::from(stream::channels(info)), 2)
}

// The number of samples wraps at 32 bits.
pub fn sizes(rt: &impl Print, counts: &mut Counts) -> io::Result<()> {
    counts.gives(
        rt,
        b"frames of a packet at most",
        stream::max_frames_per_packet(stream(4096, 16, 2)),
        4096,
    )?;
    counts.gives(
        rt,
        b"samples of a packet at most",
        stream::max_samples_per_packet(stream(4096, 16, 2)),
        8192,
    )?;
    counts.gives(
        rt,
        b"samples of 4294967295 frames and 8 channels",
        stream::max_samples_per_packet(stream(4294967295, 16, 8)),
        4294967288,
    )?;
    counts.gives(
        rt,
        b"samples of 536870912 frames and 8 channels",
        stream::max_samples_per_packet(stream(536870912, 16, 8)),
        0,
    )
}
