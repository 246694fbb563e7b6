// The raw form in which packets and samples lie in a file: no container, only lengths and plain samples.
#![tactic(auto)]

ghost use Rattle.std.specs.Prelude.{◌≡◌, ◌*◌, length};
ghost use Rattle.wire.specs.Raw.{length_of, front_of, samples_of, bytes_of};

// The length in front of a packet.
pub fn length_of(front: [u8; 4]) -> u32
    ensures { result ≡ length_of front }
{
    u32::from_be_bytes(front)
}

pub fn front_of(n: u32) -> [u8; 4]
    ensures { result ≡ front_of n }
{
    n.to_be_bytes()
}

// Two bytes a sample, the low one first.
pub fn samples_of(bytes: &[u8], samples: &mut [i16])
    requires { length bytes.now ≡ 2 * length samples.old }
    ensures { samples.new ≡ samples_of bytes.now }
{
    for i in 0..samples.len() {
        let at = 2 * i;
        samples[i] = i16::from_le_bytes([bytes[at], bytes[at + 1]]);
    }
}

pub fn bytes_of(samples: &[i16], bytes: &mut [u8])
    requires { length bytes.old ≡ 2 * length samples.now }
    ensures { bytes.new ≡ bytes_of samples.now }
{
    for i in 0..samples.len() {
        let at = 2 * i;
        let [low, high] = samples[i].to_le_bytes();
        bytes[at] = low;
        bytes[at + 1] = high;
    }
}
