// The C boundary, which crate capi_c exports. Numbers pass as themselves, records by value. Each function has the whole contract of the routine behind it:
// its result is that routine's definition, for every argument, not-a-number and infinities included.
#![tactic(auto)]

ghost use Rattle.std.specs.Prelude.{◌≡◌, length};
ghost use Rattle.roots.specs.Sqrt.{sqrt_of};
ghost use Rattle.roots.specs.Hypot.{hypot_of};
ghost use Rattle.exponential.specs.Exp.{exp_of};
ghost use Rattle.exponential.specs.Sinh.{sinh_of};
ghost use Rattle.exponential.specs.Cosh.{cosh_of};
ghost use Rattle.logarithm.specs.Ln.{ln_of};
ghost use Rattle.circular.specs.Sin.{sin_of};
ghost use Rattle.circular.specs.Cos.{cos_of};
ghost use Rattle.circular.specs.SinPi.{sin_pi_of};
ghost use Rattle.circular.specs.CosPi.{cos_pi_of};
ghost use Rattle.angle.specs.Angle.{angle_of};
ghost use Rattle.rounding.specs.Round.{round_of};
ghost use Rattle.gamma_ln.specs.LogGamma.{log_gamma_of};
ghost use Rattle.call.specs.Checks.{number_given};
ghost use Rattle.frame.specs.Over.{offered};
ghost use Rattle.sweeping.specs.Sweep.{swept_in, swept_of, frames_of};
ghost use Rattle.page.specs.Joining.{join_number, join_page, line_number, line_page};
ghost use Rattle.capi.specs.Outcome.{outcome_of, is_scaled, answer_of, request_of, sweep_of};
ghost use Rattle.bessel.specs.I.{i_outcome};
ghost use Rattle.bessel.specs.K.{k_outcome};

use call::answer;
use gamma_ln::log_gamma::log_gamma;
use machine::constants::not_a_number;
use refusal::refusal::Refusal;
use sweeping::request::Request;

pub fn lichenoar_sqrt(x: f64) -> f64
    ensures { result ≡ sqrt_of x }
{
    roots::sqrt::sqrt(x)
}

pub fn lichenoar_hypot(x: f64, y: f64) -> f64
    ensures { result ≡ hypot_of x y }
{
    roots::hypot::hypot(x, y)
}

pub fn lichenoar_exp(x: f64) -> f64
    ensures { result ≡ exp_of x }
{
    exponential::exp::exp(x)
}

pub fn lichenoar_ln(x: f64) -> f64
    ensures { result ≡ ln_of x }
{
    logarithm::ln::ln(x)
}

pub fn lichenoar_sin(x: f64) -> f64
    ensures { result ≡ sin_of x }
{
    circular::sin::sin(x)
}

pub fn lichenoar_cos(x: f64) -> f64
    ensures { result ≡ cos_of x }
{
    circular::cos::cos(x)
}

// The angle of the point (x, y): y comes first, as in atan2.
pub fn lichenoar_angle(y: f64, x: f64) -> f64
    ensures { result ≡ angle_of y x }
{
    angle::angle::angle(y, x)
}

pub fn lichenoar_sinh(x: f64) -> f64
    ensures { result ≡ sinh_of x }
{
    exponential::sinh::sinh(x)
}

pub fn lichenoar_cosh(x: f64) -> f64
    ensures { result ≡ cosh_of x }
{
    exponential::cosh::cosh(x)
}

// sin(πx) and cos(πx)
pub fn lichenoar_sin_pi(x: f64) -> f64
    ensures { result ≡ sin_pi_of x }
{
    circular::sin_pi::sin_pi(x)
}

pub fn lichenoar_cos_pi(x: f64) -> f64
    ensures { result ≡ cos_pi_of x }
{
    circular::cos_pi::cos_pi(x)
}

// Half away from zero.
pub fn lichenoar_round(x: f64) -> f64
    ensures { result ≡ round_of x }
{
    rounding::round::round(x)
}

// An answer has the number 0. A refusal has its own, and the fixed not-a-number in the place of the value.
#[repr(C)]
#[derive(Drop)]
pub struct LogGamma {
    pub value: f64,
    pub number: u32,
}

impl From<Result<f64, Refusal>> for LogGamma {
    ghost from_gives = { λ a r. r ≡ outcome_of a };

    fn from(a: Result<f64, Refusal>) -> LogGamma {
        match a {
            Ok(value) => LogGamma { value, number: 0 },
            Err(refusal) => LogGamma {
                value: not_a_number(),
                number: refusal.number(),
            },
        }
    }
}

pub fn lichenoar_log_gamma(x: f64) -> LogGamma
    ensures { result ≡ outcome_of (log_gamma_of x) }
{
    LogGamma::from(log_gamma(x))
}

// What a call returns, as programs in other languages have its layout: it does not change. The library's own counts may grow.
#[repr(C)]
#[derive(Drop)]
pub struct Answer {
    pub number: u32,
    pub zeros: i32,
    pub longest_sum: u32,
    pub rungs: u32,
    pub backward: u32,
}

impl From<answer::Answer> for Answer {
    ghost from_gives = { λ a r. r ≡ answer_of a };

    fn from(a: answer::Answer) -> Answer {
        match a {
            Ok(counts) => Answer {
                number: 0,
                zeros: counts.zeros,
                longest_sum: counts.longest_sum,
                rungs: counts.rungs,
                backward: counts.backward,
            },
            Err(refusal) => Answer {
                number: refusal.number(),
                zeros: 0,
                longest_sum: 0,
                rungs: 0,
                backward: 0,
            },
        }
    }
}

// n orders of I into the 2n lent cells, re before im. scaled: 0 no, any other yes. Refused or not, every cell is written.
pub fn lichenoar_i(scaled: u8, v: f64, re: f64, im: f64, out: &mut [f64]) -> Answer
    ensures { (result ≡ answer_of (i_outcome (is_scaled scaled) v re im (length out.old)).answer)
        × (out.new ≡ (i_outcome (is_scaled scaled) v re im (length out.old)).cells) }
{
    Answer::from(bessel::i::i(scaled != 0, v, re, im, out))
}

// n orders of K into the 2n lent cells, as for I.
pub fn lichenoar_k(scaled: u8, v: f64, re: f64, im: f64, out: &mut [f64]) -> Answer
    ensures { (result ≡ answer_of (k_outcome (is_scaled scaled) v re im (length out.old)).answer)
        × (out.new ≡ (k_outcome (is_scaled scaled) v re im (length out.old)).cells) }
{
    Answer::from(bessel::k::k(scaled != 0, v, re, im, out))
}

// The refusal's number or 0, and how many bytes the frames are: 57 a step.
#[repr(C)]
#[derive(Drop)]
pub struct Sweep {
    pub number: u32,
    pub needed: u32,
}

impl From<Result<u32, Refusal>> for Sweep {
    ghost from_gives = { λ a r. r ≡ sweep_of (swept_in a) };

    fn from(a: Result<u32, Refusal>) -> Sweep {
        match a {
            Ok(needed) => Sweep { number: 0, needed },
            Err(r) => Sweep {
                number: r.number(),
                needed: 0,
            },
        }
    }
}

// The frames of an even sweep, a newline behind each, over the first of the lent bytes. Refused, or without room for all of them, it writes nothing.
pub fn lichenoar_sweep(
    kind: u8,
    scaling: u8,
    n: u32,
    v: f64,
    first_re: f64,
    first_im: f64,
    last_re: f64,
    last_im: f64,
    steps: u32,
    out: &mut [u8],
) -> Sweep
    ensures { (result ≡ sweep_of (swept_of (request_of kind scaling n v first_re first_im last_re last_im steps)))
        × (out.new ≡ offered (frames_of (request_of kind scaling n v first_re first_im last_re last_im steps)) out.old) }
{
    Sweep::from(sweeping::sweep::sweep(
        Request {
            kind: u64::from(kind),
            scaling: u64::from(scaling),
            count: u64::from(n),
            v,
            first_re,
            first_im,
            last_re,
            last_im,
            steps,
        },
        out,
    ))
}

#[tactic(auto, unfolding(call::specs::Checks::number_given))]
fn number_given(verdict: Result<(), Refusal>) -> u32
    ensures { result ≡ number_given verdict }
{
    match verdict {
        Ok(()) => 0,
        Err(refusal) => refusal.number(),
    }
}

// A page lies as 58 numbers, one behind the other, at the places of crate page's layout.rt: programs in other languages declare it as a record of them. A
// page of zeros is the empty one. An answer line, without its newline, is counted; the answer is 0, or 15 with the page as it was.
pub fn lichenoar_page_line(page: &mut [u64; 58], line: &[u8]) -> u32
    ensures { (result ≡ line_number page.old line.now)
        × (page.new ≡ line_page page.old line.now) }
{
    number_given(page::adding::add_line(page, line))
}

// One page added to another, which is another one: 0, or 15 with both as they were.
pub fn lichenoar_page_join(into: &mut [u64; 58], from: &[u64; 58]) -> u32
    ensures { (result ≡ join_number into.old from.now)
        × (into.new ≡ join_page into.old from.now) }
{
    number_given(page::adding::join(into, from))
}
