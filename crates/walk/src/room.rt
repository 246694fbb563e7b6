// The memory of a run, all of it: arrays of these lengths, fixed before it begins.
// 4,096 samples of 8 channels.
pub const SAMPLES: usize = 32768;

// Scratch for two frames.
pub const SCRATCH: usize = 8192;

// Whole samples of a frame, as bytes; and the text of the settings.
pub const BYTES: usize = 65536;

// More than any packet takes.
pub const PACKET: usize = 262144;
