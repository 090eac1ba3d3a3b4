// Sine and cosine of hi + lo, |hi| at most about π/4, by the classic polynomials of degree 13 and 14 (fdlibm's k_sin.c and k_cos.c).
// Promised: the bits of the definitions, operation by operation, for every pair.
ghost use Rattle.std.specs.Prelude.{◌≡◌, Float};
ghost use Rattle.std.specs.Float.Ieee.{neg};
ghost use Rattle.circular.specs.Kernel.{sine_kernel, cosine_kernel, turned};
ghost use Rattle.circular.specs.SinPi.{from_zero};

use crate::reduce::Reduced;

const S1: f64 = -0.16666666666666632;

const S2: f64 = 0.00833333333332249;

const S3: f64 = -0.0001984126982985795;

const S4: f64 = 2.7557313707070068e-06;

const S5: f64 = -2.5050760253406863e-08;

const S6: f64 = 1.58969099521155e-10;

const C1: f64 = 0.0416666666666666;

const C2: f64 = -0.001388888888887411;

const C3: f64 = 2.480158728947673e-05;

const C4: f64 = -2.7557314351390663e-07;

const C5: f64 = 2.087572321298175e-09;

const C6: f64 = -1.1359647557788195e-11;

pub fn sine(hi: f64, lo: f64) -> f64
    ensures { result ≡ sine_kernel hi lo }
{
    let z = hi * hi;
    let v = z * hi;
    let r = (S2 + z * (S3 + z * S4)) + z * (z * z) * (S5 + z * S6);
    hi - (z * (0.5 * lo - v * r) - lo - v * S1)
}

pub fn cosine(hi: f64, lo: f64) -> f64
    ensures { result ≡ cosine_kernel hi lo }
{
    let z = hi * hi;
    let w = z * z;
    let r = z * (C1 + z * (C2 + z * C3)) + w * w * (C4 + z * (C5 + z * C6));
    let h = 0.5 * z;
    let t = 1.0 - h;
    t + ((1.0 - t - h) + (z * r - hi * lo))
}

// The sine a number of quarter turns further on, where `minus` takes a value to its negative. Only the kernel that is asked for is worked out.
fn sine_after<F: Fn(f64) -> f64>(angle: Reduced, quarter: u64, minus: F) -> f64
    requires { F.IsAlwaysCallable minus }
    ensures { (m : Float → Float) → ((y z : Float) → F.post minus y z → z ≡ m y)
        → result ≡ turned m quarter (sine_kernel angle.hi angle.lo) (cosine_kernel angle.hi angle.lo) }
{
    let y = if quarter % 2 == 0 {
        sine(angle.hi, angle.lo)
    } else {
        cosine(angle.hi, angle.lo)
    };
    if quarter / 2 % 2 == 0 { y } else { minus(y) }
}

pub fn sine_at(angle: Reduced, quarter: u64) -> f64
    ensures { result ≡ turned neg quarter (sine_kernel angle.hi angle.lo)
        (cosine_kernel angle.hi angle.lo) }
{
    sine_after(angle, quarter, |y| -y)
}

// The same with `0.0 - y` for -y, so that a zero stays +0.
pub fn sine_pi_at(angle: Reduced, quarter: u64) -> f64
    ensures { result ≡ turned from_zero quarter (sine_kernel angle.hi angle.lo)
        (cosine_kernel angle.hi angle.lo) }
{
    sine_after(angle, quarter, |y| 0.0 - y)
}
