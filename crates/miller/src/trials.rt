// The trials of the start search above its threshold: a forward recurrence, until it is large enough. At most 30.
// From src/amos/right_half_plane.rs, determine_miller_starting_k. Promised: specs/Trials.antt; the index is one more than the trials taken.
ghost use Rattle.std.specs.Prelude.{◌≡◌, ◌≤◌};
ghost use Rattle.miller.specs.Trials.{next_trial, is_met, trial_index};

use machine::magnitude::magnitude;

// The last two values of the recurrence.
#[derive(Clone, Copy)]
pub struct Trial {
    pub older: f64,
    pub newer: f64,
}

fn next_trial(modulus: f64, square: f64, i: u32, t: Trial) -> Trial
    requires { i ≤ 30 }
    ensures { result ≡ next_trial modulus square i t }
{
    let n = i as f64;
    let middle = n - 0.5;
    let a = (middle * middle - square) / (n * (n + 1.0));
    let b = (2.0 * modulus + (2 * i) as f64) / (i + 1) as f64;
    Trial {
        older: t.newer,
        newer: b * t.newer - a * t.older,
    }
}

// A value above zero is its own magnitude: compared as it is, it need not pass through its bits, for which the loop would wait.
fn is_met(test: f64, i: u32, p: f64) -> bool
    requires { i ≤ 30 }
    ensures { result ≡ is_met test i p }
{
    if p > 0.0 {
        return test < p * (i + 1) as f64;
    }
    test < magnitude(p) * (i + 1) as f64
}

// One more than the first trial that meets the test. The loop breaks with it: the scope asks for that form (docs/TRACE.md, T3), and a `for` breaks with
// nothing.
pub fn trial_index(modulus: f64, square: f64, test: f64) -> Option<u32>
    ensures { result ≡ trial_index modulus square test }
{
    let mut trial = Trial {
        older: 0.0,
        newer: 1.0,
    };
    let mut i: u32 = 0;
    let index = loop {
        if i == 30 {
            return None;
        }
        i += 1;
        trial = next_trial(modulus, square, i, trial);
        if is_met(test, i, trial.newer) {
            break i + 1;
        }
    };
    Some(index)
}
