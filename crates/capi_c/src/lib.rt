// The archive for C, libcapi.a: each export is crate capi's function of its name, with the same contract. Numbers pass as themselves, records by value.
#![tactic(auto)]

ghost use Rattle.std.specs.Prelude.{◌≡◌, length};
ghost use Rattle.roots.specs.Sqrt.{sqrt_of};
ghost use Rattle.roots.specs.Hypot.{hypot_of};
ghost use Rattle.exponential.specs.Exp.{exp_of};
ghost use Rattle.exponential.specs.Sinh.{sinh_of};
ghost use Rattle.exponential.specs.Cosh.{cosh_of};
ghost use Rattle.logarithm.specs.Ln.{ln_of};
ghost use Rattle.circular.specs.Sin.{sin_of};
ghost use Rattle.circular.specs.Cos.{cos_of};
ghost use Rattle.circular.specs.SinPi.{sin_pi_of};
ghost use Rattle.circular.specs.CosPi.{cos_pi_of};
ghost use Rattle.angle.specs.Angle.{angle_of};
ghost use Rattle.rounding.specs.Round.{round_of};
ghost use Rattle.gamma_ln.specs.LogGamma.{log_gamma_of};
ghost use Rattle.frame.specs.Over.{offered};
ghost use Rattle.sweeping.specs.Sweep.{swept_of, frames_of};
ghost use Rattle.page.specs.Joining.{join_number, join_page, line_number, line_page};
ghost use Rattle.capi.specs.Outcome.{outcome_of, is_scaled, answer_of, request_of, sweep_of};
ghost use Rattle.bessel.specs.I.{i_outcome};
ghost use Rattle.bessel.specs.K.{k_outcome};

use capi::{Answer, LogGamma, Sweep};

#[unsafe(no_mangle)]
pub extern "C" fn lichenoar_sqrt(x: f64) -> f64
    ensures { result ≡ sqrt_of x }
{
    capi::lichenoar_sqrt(x)
}

#[unsafe(no_mangle)]
pub extern "C" fn lichenoar_hypot(x: f64, y: f64) -> f64
    ensures { result ≡ hypot_of x y }
{
    capi::lichenoar_hypot(x, y)
}

#[unsafe(no_mangle)]
pub extern "C" fn lichenoar_exp(x: f64) -> f64
    ensures { result ≡ exp_of x }
{
    capi::lichenoar_exp(x)
}

#[unsafe(no_mangle)]
pub extern "C" fn lichenoar_ln(x: f64) -> f64
    ensures { result ≡ ln_of x }
{
    capi::lichenoar_ln(x)
}

#[unsafe(no_mangle)]
pub extern "C" fn lichenoar_sin(x: f64) -> f64
    ensures { result ≡ sin_of x }
{
    capi::lichenoar_sin(x)
}

#[unsafe(no_mangle)]
pub extern "C" fn lichenoar_cos(x: f64) -> f64
    ensures { result ≡ cos_of x }
{
    capi::lichenoar_cos(x)
}

// The angle of the point (x, y): y comes first, as in atan2.
#[unsafe(no_mangle)]
pub extern "C" fn lichenoar_angle(y: f64, x: f64) -> f64
    ensures { result ≡ angle_of y x }
{
    capi::lichenoar_angle(y, x)
}

#[unsafe(no_mangle)]
pub extern "C" fn lichenoar_sinh(x: f64) -> f64
    ensures { result ≡ sinh_of x }
{
    capi::lichenoar_sinh(x)
}

#[unsafe(no_mangle)]
pub extern "C" fn lichenoar_cosh(x: f64) -> f64
    ensures { result ≡ cosh_of x }
{
    capi::lichenoar_cosh(x)
}

// sin(πx) and cos(πx)
#[unsafe(no_mangle)]
pub extern "C" fn lichenoar_sin_pi(x: f64) -> f64
    ensures { result ≡ sin_pi_of x }
{
    capi::lichenoar_sin_pi(x)
}

#[unsafe(no_mangle)]
pub extern "C" fn lichenoar_cos_pi(x: f64) -> f64
    ensures { result ≡ cos_pi_of x }
{
    capi::lichenoar_cos_pi(x)
}

// Half away from zero.
#[unsafe(no_mangle)]
pub extern "C" fn lichenoar_round(x: f64) -> f64
    ensures { result ≡ round_of x }
{
    capi::lichenoar_round(x)
}

#[unsafe(no_mangle)]
pub extern "C" fn lichenoar_log_gamma(x: f64) -> LogGamma
    ensures { result ≡ outcome_of (log_gamma_of x) }
{
    capi::lichenoar_log_gamma(x)
}

// n orders of I into the 2n lent cells, re before im. scaled: 0 no, any other yes. Refused or not, every cell is written.
#[unsafe(no_mangle)]
pub extern "C" fn lichenoar_i(scaled: u8, v: f64, re: f64, im: f64, out: &mut [f64]) -> Answer
    ensures { (result ≡ answer_of (i_outcome (is_scaled scaled) v re im (length out.old)).answer)
        × (out.new ≡ (i_outcome (is_scaled scaled) v re im (length out.old)).cells) }
{
    capi::lichenoar_i(scaled, v, re, im, out)
}

// n orders of K into the 2n lent cells, as for I.
#[unsafe(no_mangle)]
pub extern "C" fn lichenoar_k(scaled: u8, v: f64, re: f64, im: f64, out: &mut [f64]) -> Answer
    ensures { (result ≡ answer_of (k_outcome (is_scaled scaled) v re im (length out.old)).answer)
        × (out.new ≡ (k_outcome (is_scaled scaled) v re im (length out.old)).cells) }
{
    capi::lichenoar_k(scaled, v, re, im, out)
}

// The frames of an even sweep, a newline behind each, over the first of the lent bytes. Refused, or without room for all of them, it writes nothing.
#[unsafe(no_mangle)]
pub extern "C" fn lichenoar_sweep(
    kind: u8,
    scaling: u8,
    n: u32,
    v: f64,
    first_re: f64,
    first_im: f64,
    last_re: f64,
    last_im: f64,
    steps: u32,
    out: &mut [u8],
) -> Sweep
    ensures { (result ≡ sweep_of (swept_of (request_of kind scaling n v first_re first_im last_re last_im steps)))
        × (out.new ≡ offered (frames_of (request_of kind scaling n v first_re first_im last_re last_im steps)) out.old) }
{
    capi::lichenoar_sweep(
        kind, scaling, n, v, first_re, first_im, last_re, last_im, steps, out,
    )
}

// A page lies as 58 numbers, one behind the other, at the places of crate page's layout.rt: programs in other languages declare it as a record of them. A
// page of zeros is the empty one. An answer line, without its newline, is counted; the answer is 0, or 15 with the page as it was.
#[unsafe(no_mangle)]
pub extern "C" fn lichenoar_page_line(page: &mut [u64; 58], line: &[u8]) -> u32
    ensures { (result ≡ line_number page.old line.now)
        × (page.new ≡ line_page page.old line.now) }
{
    capi::lichenoar_page_line(page, line)
}

// One page added to another, which is another one: 0, or 15 with both as they were.
#[unsafe(no_mangle)]
pub extern "C" fn lichenoar_page_join(into: &mut [u64; 58], from: &[u64; 58]) -> u32
    ensures { (result ≡ join_number into.old from.now)
        × (into.new ≡ join_page into.old from.now) }
{
    capi::lichenoar_page_join(into, from)
}
