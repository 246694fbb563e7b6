// Prediction: samples in the place of residuals, and the residuals that it undoes. Samples and coefficients are oldest first.
#![tactic(auto)]

ghost use Rattle.std.specs.Prelude.{◌≡◌, ◌+◌, pos, length, take, get_or};
ghost use Rattle.rules.specs.Words.{mul32, sign};
ghost use Rattle.rules.specs.Prediction.{weighed, guess, error_left, adapted, forecast, coefs_after, summed};
ghost use Rattle.rules.specs.Writer.{residual};
ghost use Rattle.lpc.specs.Predicts.{Width, Window, Loss, Ready, Later, Tuned, Predicts, Leaves};

// Mode 15, which the Rust calls order 31: what was read are differences, each added to the sum before it. Prediction follows all the same.
pub fn lpc_predict_order_31(buf: &mut [i32], bps: u32)
    requires { Width bps }
    ensures { buf.new ≡ summed bps buf.old }
{
    for i in 1..buf.len() {
        let sum = words::wrapping_add_i32(buf[i - 1], buf[i]);
        let summed = words::sign_extend(sum, bps);
        buf[i] = summed;
    }
}

// Each sample less the mean, times its coefficient, summed up.
fn weigh(xs: &[i32], mean: i32, lpc_coefs: &[i16]) -> i32
    requires { length xs.now ≡ length lpc_coefs.now }
    ensures { result ≡ weighed mean (pos 0) xs.now lpc_coefs.now }
{
    let mut predicted = 0;
    for j in 0..lpc_coefs.len() {
        let difference = words::wrapping_sub_i32(xs[j], mean);
        let product = words::wrapping_mul_i16(difference, lpc_coefs[j]);
        predicted = words::wrapping_add_i32(predicted, product);
    }
    predicted
}

// That sum, rounded to the nearest and cut by `lpc_quant` bits.
fn predict_from(xs: &[i32], mean: i32, lpc_coefs: &[i16], lpc_quant: u32) -> i32
    requires { Window lpc_quant xs.now lpc_coefs.now }
    ensures { result ≡ guess lpc_quant mean xs.now lpc_coefs.now }
{
    let sum = weigh(xs, mean, lpc_coefs);
    let half = words::one_at(lpc_quant - 1);
    let rounded = words::wrapping_add_i32(sum, half);
    words::shift_down(rounded, lpc_quant)
}

// What the residual at `i` is added to. Samples 1 to `order` have too few before them, and go by the previous one.
fn forecast_at(buf: &[i32], i: usize, lpc_coefs: &[i16], lpc_quant: u32) -> i32
    requires { Later lpc_quant i buf.now lpc_coefs.now }
    ensures { result ≡ forecast lpc_quant (take i buf.now) lpc_coefs.now }
{
    let lpc_order = lpc_coefs.len();
    if i <= lpc_order {
        return buf[i - 1];
    }
    let start = i - lpc_order;
    // The sample before the window stands for the mean.
    let mean = buf[start - 1];
    let predicted = predict_from(&buf[start..i], mean, lpc_coefs, lpc_quant);
    words::wrapping_add_i32(predicted, mean)
}

// The running error after coefficient `j` gained `t`, where its sample is `d` from the mean.
fn next_error(error: i32, error_sign: i32, d: i32, t: i32, j: usize, lpc_quant: u32) -> i32
    requires { Loss lpc_quant j }
    ensures { result ≡ error_left lpc_quant error_sign j error d t }
{
    let p = words::wrapping_mul_i32(d, t);
    let shifted = words::shift_down(p, lpc_quant);
    let signed = words::wrapping_mul_i32(error_sign, shifted);
    let weight = (j + 1) as i32;
    let loss = words::wrapping_mul_i32(signed, weight);
    words::wrapping_sub_i32(error, loss)
}

// After a residual `e`, moves one coefficient after the other by one, until the running error is used up.
fn adapt(xs: &[i32], mean: i32, e: i32, lpc_quant: u32, lpc_coefs: &mut [i16])
    requires { Window lpc_quant xs.now lpc_coefs.old }
    ensures { lpc_coefs.new ≡ adapted lpc_quant mean (sign e) 0 (mul32 (sign e) e) xs.now lpc_coefs.old }
{
    let error_sign = words::signum(e);
    // The running error starts as the error without its sign.
    let mut error = words::wrapping_mul_i32(error_sign, e);
    for j in 0..lpc_coefs.len() {
        let d = words::wrapping_sub_i32(xs[j], mean);
        let sign = words::signum(d);
        let t = words::wrapping_mul_i32(sign, error_sign);
        let coef = words::add_to_i16(lpc_coefs[j], t);
        lpc_coefs[j] = coef;
        error = next_error(error, error_sign, d, t, j, lpc_quant);
        if error <= 0 {
            return;
        }
    }
}

// The coefficients after the sample at `i`, whose residual is `error`: they stay where the prediction was exact.
fn adapt_at(buf: &[i32], i: usize, error: i32, lpc_quant: u32, lpc_coefs: &mut [i16])
    requires { Ready lpc_quant i buf.now lpc_coefs.old }
    ensures { lpc_coefs.new ≡ coefs_after lpc_quant (take i buf.now) lpc_coefs.old error }
{
    let lpc_order = lpc_coefs.len();
    if i <= lpc_order {
        return;
    }
    if error == 0 {
        return;
    }
    let start = i - lpc_order;
    adapt(&buf[start..i], buf[start - 1], error, lpc_quant, lpc_coefs);
}

// Samples in the place of residuals; sample 0 is as read.
pub fn lpc_predict(buf: &mut [i32], bps: u32, lpc_coefs: &mut [i16], lpc_quant: u32)
    requires { Tuned bps lpc_quant lpc_coefs.old }
    ensures { Predicts bps lpc_quant lpc_coefs.old buf.old lpc_coefs.new buf.new }
{
    let samples = buf.len();
    for i in 1..samples {
        let error = buf[i];
        let predicted = forecast_at(&buf[..], i, &lpc_coefs[..], lpc_quant);
        let sample = words::wrapping_add_i32(predicted, error);
        let extended = words::sign_extend(sample, bps);
        buf[i] = extended;
        adapt_at(&buf[..], i, error, lpc_quant, lpc_coefs);
    }
}

// The residual of the sample at `i`, which the reader's prediction undoes. Sample 0 is its own.
fn residual_at(buf: &[i32], i: usize, bps: u32, lpc_coefs: &[i16], lpc_quant: u32) -> i32
    requires width { Width bps }
    requires ready { Ready lpc_quant i buf.now lpc_coefs.now }
    ensures { result ≡ residual bps lpc_quant (take i buf.now) lpc_coefs.now (get_or buf.now i (pos 0)) }
{
    if i == 0 {
        return buf[0];
    }
    let predicted = forecast_at(buf, i, lpc_coefs, lpc_quant);
    let difference = words::wrapping_sub_i32(buf[i], predicted);
    words::sign_extend(difference, bps)
}

// The residuals of the samples in the first half of `buf`, into its second half.
pub fn lpc_residuals(buf: &mut [i32], n: usize, bps: u32, lpc_coefs: &mut [i16], lpc_quant: u32)
    requires tuned { Tuned bps lpc_quant lpc_coefs.old }
    requires buf_len { length buf.old ≡ n + n }
    ensures { Leaves bps lpc_quant n lpc_coefs.old buf.old lpc_coefs.new buf.new }
{
    for i in 0..n {
        let residual = residual_at(&buf[..], i, bps, &lpc_coefs[..], lpc_quant);
        buf[n + i] = residual;
        adapt_at(&buf[..], i, residual, lpc_quant, lpc_coefs);
    }
}
