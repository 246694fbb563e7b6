// The plan of a compressed element: what stands between its header and its Rice data.
#![tactic(auto)]

ghost use Rattle.std.specs.Prelude.{◌≡◌, ◌<◌, take, IfSome, IfOk};
ghost use Rattle.rules.specs.Answers.{answered, times};
ghost use Rattle.rules.specs.Bits.{field};
ghost use Rattle.rules.specs.Element.{params, params_ok, planned};
ghost use Rattle.bitcursor.specs.Reads.{Reads};
ghost use Rattle.dec_header.specs.Plan.{oldest_first, ZeroPast, Settled, params_of, OneOrTwo, plan_of, plan_ok, AllowedPlan};

use bitcursor::BitCursor;
use rules::{Refusal, StreamInfo};
use words::coef_of;

// A channel's parameters. The first `order` coefficients count, the oldest sample's first; the others are zero: there is no heap.
#[derive(Clone, Copy)]
pub struct Parameters {
    pub mode: u32,
    pub quant: u32,
    pub factor: u32,
    pub order: u32,
    pub coefs: [i16; 32],
}

// What a compressed element says before its Rice data. `mix_res` is its 8 bits; one channel has no second.
#[derive(Clone, Copy)]
pub struct Plan {
    pub mix_bits: u32,
    pub mix_res: u32,
    pub first: Parameters,
    pub second: Option<Parameters>,
}

// Coefficients are used in the other order than they are stored: the newest sample's comes first and goes last.
fn read_coefs(bits: &mut BitCursor<'_>, order: u32) -> Result<[i16; 32], Refusal>
    requires { order < 32 }
    ensures reads { Reads (take order) (λ packet at. answered oldest_first (times order (field packet 16) at)) bits.old bits.new result }
    ensures rest { IfOk result (ZeroPast order) }
{
    let mut coefs = [0i16; 32];
    for j in (0..order as usize).rev() {
        coefs[j] = coef_of(bits.read(16)?);
    }
    Ok(coefs)
}

#[tactic(auto, unfolding(rules::specs::Element::params, rules::specs::Answers::answered, rules::specs::Answers::bind, bitcursor::specs::Reads::told))]
fn read_parameters(bits: &mut BitCursor<'_>, s: StreamInfo) -> Result<Parameters, Refusal>
    ensures reads { Reads params_of (λ packet. params packet s) bits.old bits.new result }
    ensures settled { IfOk result Settled }
{
    let mode = bits.read(4)?;
    let quant = bits.read(4)?;
    let pb_factor = bits.read(3)?;
    let order = bits.read(5)?;
    let coefs = read_coefs(bits, order)?;
    let factor = s.pb as u32 * pb_factor / 4;
    Ok(Parameters {
        mode,
        quant,
        factor,
        order,
        coefs,
    })
}

impl Parameters {
    // Cause 11 of a channel. The Rust asserts that order 31 never comes, and judges no other of these.
    #[tactic(auto, using(crate::proofs::PlanSteps::settled_order), unfolding(rules::specs::Element::params_ok))]
    fn is_allowed(self) -> bool
        requires { Settled self }
        ensures { result ≡ params_ok (params_of self) }
    {
        0 < self.quant && self.order < 31 && self.factor <= 127
    }
}

impl Plan {
    // Cause 11: of its channels; and of a pair, whose mix is shifted by mix_bits unless mix_res is 0.
    #[tactic(auto, using(crate::proofs::PlanSteps::signed_zero), unfolding(rules::specs::Element::mix_ok, rules::specs::Element::all_of))]
    fn is_allowed(self, channels: u32) -> bool
        requires first { Settled self.first }
        requires second { IfSome self.second Settled }
        ensures { result ≡ plan_ok channels (plan_of self) }
    {
        let second = match self.second {
            None => true,
            Some(second) => second.is_allowed(),
        };
        let mix = channels == 1 || self.mix_res == 0 || self.mix_bits <= 31;
        self.first.is_allowed() && second && mix
    }
}

// What stands after a compressed element's header. It is judged once the parameters of all channels are read.
#[tactic(auto, unfolding(rules::specs::Element::planned, rules::specs::Answers::times, rules::specs::Answers::bind, bitcursor::specs::Reads::told))]
pub fn read_plan(bits: &mut BitCursor<'_>, s: StreamInfo, channels: u32) -> Result<Plan, Refusal>
    requires { OneOrTwo channels }
    ensures reads { Reads plan_of (λ packet. planned packet s channels) bits.old bits.new result }
    ensures allowed { IfOk result (AllowedPlan channels) }
{
    let mix_bits = bits.read(8)?;
    let mix_res = bits.read(8)?;
    let first = read_parameters(bits, s)?;
    let second = if channels == 1 {
        None
    } else {
        Some(read_parameters(bits, s)?)
    };
    let plan = Plan {
        mix_bits,
        mix_res,
        first,
        second,
    };
    if !plan.is_allowed(channels) {
        return Err(Refusal::Parameters);
    }
    Ok(plan)
}
