// Lent buffers: the first places are cleared, a channel's samples stored into their places. How channels lie in scratch is said in specs/.
#![tactic(auto)]

ghost use Rattle.std.specs.Prelude.{◌≡◌, map, ◌≤◌, length};
ghost use Rattle.rules.specs.Buffers.{cleared, placed};
ghost use Rattle.buffers.specs.Places.{Places};

use stream::Sample;

pub fn clear<S: Sample>(s: &mut [S], n: usize)
    requires { n ≤ length s.old }
    ensures { s.new ≡ cleared S.output.silence n s.old }
{
    for i in 0..n {
        s[i] = S::silence();
    }
}

// What the output keeps of the samples of channel `first`.
pub fn store<S: Sample>(from: &[i32], out: &mut [S], first: usize, channels: usize, depth: u8)
    requires { Places depth first channels from.now out.old }
    ensures { out.new ≡ placed channels first (map (S.output.keep depth) from.now) out.old }
{
    for i in 0..from.len() {
        let place = first + i * channels;
        prove!(place < out.len());
        out[place] = S::keep(from[i], depth);
    }
}
