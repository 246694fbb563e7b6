// The stream of the readings: pb 40, mb 10, kb 14.
use rules::StreamInfo;

pub fn stream(frame_length: u32, bit_depth: u8, num_channels: u8) -> StreamInfo {
    StreamInfo {
        frame_length,
        compatible_version: 0,
        bit_depth,
        pb: 40,
        mb: 10,
        kb: 14,
        num_channels,
        max_run: 255,
        max_frame_bytes: 0,
        avg_bit_rate: 0,
        sample_rate: 44100,
    }
}
