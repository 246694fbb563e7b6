// The channels of a compressed element: the Rice data of each, then its prediction.
#![tactic(auto)]

ghost use Rattle.std.specs.Prelude.{◌≡◌, [], map, length, take};
ghost use Rattle.rules.specs.Answers.{answered, each};
ghost use Rattle.rules.specs.Prediction.{predicted, summed};
ghost use Rattle.rules.specs.Element.{channel};
ghost use Rattle.bitcursor.specs.Reads.{Reads};
ghost use Rattle.dec_header.specs.Plan.{params_of, plan_of};
ghost use Rattle.buffers.specs.Fills.{Fills};
ghost use Rattle.dec_channels.specs.Channels.{width_of, Predictable, Channelled, Planned};

use bitcursor::BitCursor;
use dec_header::plan::{Parameters, Plan};
use dec_rice::{Coding, rice_decompress};
use lpc::{lpc_predict, lpc_predict_order_31};
use rules::{Refusal, StreamInfo};

fn predict(buf: &mut [i32], bps: u32, c: Parameters)
    requires { Predictable bps c }
    ensures { buf.new ≡ (predicted bps c.quant [] (take c.order c.coefs) buf.old).values }
{
    let mut coefs = c.coefs;
    let order = c.order as usize;
    lpc_predict(buf, bps, &mut coefs[..order], c.quant);
}

// Mode 15: sums come first, and are predicted from as if they were the residuals.
fn sum_and_predict(residuals: &mut [i32], bps: u32, c: Parameters)
    requires { Predictable bps c }
    ensures { residuals.new ≡ (predicted bps c.quant [] (take c.order c.coefs) (summed bps residuals.old)).values }
{
    lpc_predict_order_31(residuals, bps);
    predict(residuals, bps, c);
}

// One channel.
fn decode_channel(
    bits: &mut BitCursor<'_>,
    s: StreamInfo,
    bps: u32,
    c: Parameters,
    buf: &mut [i32],
) -> Result<(), Refusal>
    requires { Channelled s bps c }
    ensures { Reads (λ _. buf.new) (λ packet p. answered (λ x. x.values) (channel packet s (length buf.old) bps (params_of c) p)) bits.old bits.new result }
{
    let coding = Coding {
        kb: s.kb as u32,
        factor: c.factor,
        bits: bps,
    };
    rice_decompress(bits, coding, s.mb, buf)?;
    if c.mode == 0 {
        predict(buf, bps, c);
        return Ok(());
    }
    if c.mode == 15 {
        sum_and_predict(buf, bps, c);
        return Ok(());
    }
    Err(Refusal::Mode)
}

// One channel into the first half of scratch; of a pair the second into the other.
pub fn decode_channels(
    bits: &mut BitCursor<'_>,
    s: StreamInfo,
    bps: u32,
    plan: Plan,
    n: usize,
    scratch: &mut [i32],
) -> Result<(), Refusal>
    requires { Planned s bps plan n scratch.old }
    ensures { Fills s.frame_length n (width_of plan) (λ packet p. answered (map (λ x. x.values)) (each (plan_of plan).params (channel packet s n bps) p)) bits.old bits.new scratch.old scratch.new result }
{
    let half = s.frame_length as usize;
    decode_channel(bits, s, bps, plan.first, &mut scratch[..n])?;
    match plan.second {
        None => Ok(()),
        Some(second) => decode_channel(bits, s, bps, second, &mut scratch[half..half + n]),
    }
}
