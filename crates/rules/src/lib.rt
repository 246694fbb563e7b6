// The words of the codec: what its functions take and what they answer. What they mean is document 01, in specs/.
#![tactic(auto)]

ghost use Rattle.std.specs.Prelude.{◌≡◌};
ghost use Rattle.rules.specs.Refusals.{number};

// The fields of a stream, in the cookie's order.
#[derive(Clone, Copy, Debug, PartialEq, Eq)]
pub struct StreamInfo {
    pub frame_length: u32,
    pub compatible_version: u8,
    pub bit_depth: u8,
    pub pb: u8,
    pub mb: u8,
    pub kb: u8,
    pub num_channels: u8,
    pub max_run: u16,
    pub max_frame_bytes: u32,
    pub avg_bit_rate: u32,
    pub sample_rate: u32,
}

// A byte of the packet and a bit in it. Only the last three bits of `bit` count, so every value is a place.
#[derive(Clone, Copy, Debug, PartialEq, Eq)]
pub struct Place {
    pub byte: usize,
    pub bit: u32,
}

// Why a dock is told no: a variant for each number of the table, in its order.
#[derive(Clone, Copy, Debug, PartialEq, Eq)]
pub enum Refusal {
    Cookie,
    Stream,
    Room,
    Short,
    ManyChannels,
    Unused,
    Shift,
    Partial,
    WideChannel,
    NoChannelBits,
    Parameters,
    Mode,
    Run,
    Unsupported,
    Disagree,
    ShiftedRaw,
    FewChannels,
    Fill,
    Settings,
    Passage,
    Bytes,
}

// What an accepted packet holds: how many samples, and the place after its end.
#[derive(Clone, Copy, Debug, PartialEq, Eq)]
pub struct Decoded {
    pub count: usize,
    pub at: Place,
}

// Why a packet is refused, and the place where that was judged.
#[derive(Clone, Copy, Debug, PartialEq, Eq)]
pub struct Refused {
    pub refusal: Refusal,
    pub at: Place,
}

// The writer's settings for one channel; coefficients are newest sample's first, as in the packet. Thirty places, of which `order` count: there is no heap.
#[derive(Clone, Copy)]
pub struct ChannelSettings {
    pub pb_factor: u32,
    pub quant: u32,
    pub order: u32,
    pub coefs: [i16; 30],
}

// With one channel `second` is neither judged nor used. No Option: the entry takes a second channel of a mono stream, and `settings_used` passes it by.
#[derive(Clone, Copy)]
pub struct PackingSettings {
    pub mix_bits: u32,
    pub mix_res: u32,
    pub first: ChannelSettings,
    pub second: ChannelSettings,
}

// The number of a refusal in document 01.
impl From<Refusal> for u32 {
    ghost from_gives = { λ refusal n. n ≡ number refusal };

    fn from(refusal: Refusal) -> u32 {
        match refusal {
            Refusal::Cookie => 1,
            Refusal::Stream => 2,
            Refusal::Room => 3,
            Refusal::Short => 4,
            Refusal::ManyChannels => 5,
            Refusal::Unused => 6,
            Refusal::Shift => 7,
            Refusal::Partial => 8,
            Refusal::WideChannel => 9,
            Refusal::NoChannelBits => 10,
            Refusal::Parameters => 11,
            Refusal::Mode => 12,
            Refusal::Run => 13,
            Refusal::Unsupported => 14,
            Refusal::Disagree => 15,
            Refusal::ShiftedRaw => 16,
            Refusal::FewChannels => 17,
            Refusal::Fill => 18,
            Refusal::Settings => 19,
            Refusal::Passage => 20,
            Refusal::Bytes => 21,
        }
    }
}
