// Bits into bytes; the element's head, a channel's parameters, END.
#![tactic(auto)]

ghost use Rattle.std.specs.Prelude.{◌≡◌, ◌/◌, ◌%◌, ◌^◌, ◌<◌, ◌+◌, ◌*◌, set, take, replicate, ◌++◌, map};
ghost use Rattle.rules.specs.Bits.{digits, to_edge};
ghost use Rattle.rules.specs.Words.{mod_z};
ghost use Rattle.rules.specs.Writer.{joined, param_bits, head_bits};
ghost use Rattle.enc_bits.specs.Sent.{start, Takes, Sent};
ghost use Rattle.enc_bits.specs.Around.{Open, Heads, Params, Coefs};

use rules::ChannelSettings;
use words::bits16_of;

// ---- Bits out into lent bytes: whole bytes are stored, fewer than eight bits wait.

// `at` bytes are out, of which those past the buffer's end are lost; the last `count` bits of `pending` wait. The bytes are not a field: each method
// would have to promise that they are still the same reference.
#[derive(Clone, Copy)]
pub struct Sink {
    pub at: usize,
    pub pending: u64,
    pub count: u32,
}

// `one_at` of words gives it as i32: one shift each, so one over both widths would be no plainer.
pub fn pow2(k: u32) -> u64
    requires { k < 64 }
    ensures { result ≡ 2 ^ k }
{
    1u64 << k
}

// Eight bits of `all`, with `from` bits after them.
fn byte_of(all: u64, from: u32) -> u8
    requires { from < 64 }
    ensures { result ≡ all / 2 ^ from % 256 }
{
    ((all >> from) % 256) as u8
}

// A store past the end changes nothing.
fn store(bytes: &mut [u8], at: usize, b: u8)
    ensures { bytes.new ≡ set bytes.old at b }
{
    if at < bytes.len() {
        bytes[at] = b;
    }
}

impl Sink {
    // Nothing is out, and no bit waits.
    pub fn new() -> Sink
        ensures { result ≡ start }
    {
        Sink {
            at: 0,
            pending: 0,
            count: 0,
        }
    }

    // The last `len` bits of `bits`.
    pub fn put(&mut self, bytes: &mut [u8], bits: u64, len: u32)
        requires { Takes self.old bits len }
        ensures { Sent bytes.old bytes.new self.old (digits len bits) self.new }
    {
        let all = self.pending * pow2(len) + bits;
        self.count += len;
        // No index: the bits that wait go out eight at a time.
        while 8 <= self.count {
            self.count -= 8;
            store(bytes, self.at, byte_of(all, self.count));
            self.at += 1;
        }
        self.pending = all % pow2(self.count);
    }

    // ---- What stands around the Rice data: the element's head, a channel's parameters, END.

    // The element's tag, its fields, the count where it is partial, and the mix.
    pub fn put_head(
        &mut self,
        bytes: &mut [u8],
        channels: u32,
        n: u32,
        frame: u32,
        mix_bits: u32,
        mix_res: u32,
    )
        requires { Heads self.old channels mix_bits mix_res }
        ensures { Sent bytes.old bytes.new self.old (head_bits channels n frame mix_bits mix_res) self.new }
    {
        // Behind the tag come 20 bits, of which only the partial bit is ever one.
        let tag = (channels as u64 - 1) * 1048576;
        let mix = mix_bits as u64 * 256 + mix_res as u64;
        if n < frame {
            self.put(bytes, tag + 8, 23);
            self.put(bytes, n as u64 * 65536 + mix, 48);
        } else {
            self.put(bytes, tag, 23);
            self.put(bytes, mix, 16);
        }
    }

    // The first `order` coefficients, 16 bits each.
    fn put_coefs(&mut self, bytes: &mut [u8], coefs: [i16; 30], order: u32)
        requires { Coefs self.old order }
        ensures { Sent bytes.old bytes.new self.old (joined (map (λ x. digits 16 (mod_z (2 ^ 16) x)) (take order coefs))) self.new }
    {
        for j in 0..order {
            self.put(bytes, bits16_of(coefs[j as usize]) as u64, 16);
        }
    }

    // A channel's mode, quant, factor and order, then its coefficients, the newest sample's first.
    pub fn put_params(&mut self, bytes: &mut [u8], c: ChannelSettings)
        requires { Params self.old c }
        ensures { Sent bytes.old bytes.new self.old (param_bits c) self.new }
    {
        // The mode is the four zero bits before quant.
        let fields = (c.quant * 8 + c.pb_factor) * 32 + c.order;
        self.put(bytes, fields as u64, 16);
        self.put_coefs(bytes, c.coefs, c.order);
    }

    // END, and zero bits to the byte edge.
    pub fn put_end(&mut self, bytes: &mut [u8])
        requires { Open self.old }
        ensures { Sent bytes.old bytes.new self.old (digits 3 7 ++ replicate (to_edge (self.old.at * 8 + self.old.count + 3)) 0) self.new }
    {
        self.put(bytes, 7, 3);
        self.put(bytes, 0, (8 - self.count) % 8);
    }
}
