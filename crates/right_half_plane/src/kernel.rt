// K for as many consecutive orders as the lent cells hold pairs. From src/amos/right_half_plane.rs, k_right_half_plane (ZBKNU).
// Promised: kernel_of of specs/Kernel.antt, counts and cells; a refusal leaves the cells as they were, for the caller to fill.
// r + n - 2 rungs are climbed in every answer (proofs/Counts.antt).
ghost use Rattle.std.specs.Prelude.{◌≡◌, ◌+◌, ◌-◌, ◌*◌, ◌/◌, ◌%◌, ◌≤◌, ◌<◌, T, length};
ghost use Rattle.std.specs.Float.Ieee.{le};
ghost use Rattle.laws.proofs.Relative.{nonnegative};
ghost use Rattle.complex.specs.Functions.{modulus_of};
ghost use Rattle.call.specs.Limits.{largest_order};
ghost use Rattle.right_half_plane.specs.shapes.Led.{MarkedFew, led_of};
ghost use Rattle.right_half_plane.specs.Kernel.{LeadFits, rest_of, lead_kernel, pair_kernel, finished_kernel, kernel_of, afterwards};

use crate::admitted::Admitted;
use crate::ground::{Ground, prepare};
use crate::lead::{Lead, on_scale_lead};
use crate::reach::Reached;
use crate::seeds::{Seeded, Seeds};
use cells::fill::fill;
use complex::number::Complex;
use recurrence::fill as climb_fill;
use recurrence::state::Climb;
use refusal::refusal::Refusal;

// The orders set to zero, the terms of the sum, the rungs climbed, and Miller's backward steps. Kernel of specs/Kernel.antt, which the theorems
// kernel-answers and start-exactly speak of, ends with these: its zeros are a plain number, where those of crate call's Counts have a sign.
#[derive(Clone, Copy, Debug, PartialEq, Eq)]
pub struct Counts {
    pub zeros: u32,
    pub longest_sum: u32,
    pub rungs: u32,
    pub backward: u32,
}

impl Ground {
    // The cells after the zeros: two entries, where there is room, and the entries of the climb in what remains. How many cells there are is a clause here and
    // in k_right_half_plane: Entries, which knows it, is of crate power_series, on which this one does not stand, and `fill` takes cells (docs/TRACE.md, T6).
    fn rest(self, lead: Lead, part: &mut [f64]) -> u32
        requires { (length part.old % 2 ≡ 0) × (length part.old ≤ 1024) × LeadFits self lead }
        ensures { (result ≡ (rest_of self lead (length part.old / 2)).rungs)
            × (part.new ≡ (rest_of self lead (length part.old / 2)).cells) }
    {
        let c = lead.climb;
        if part.len() == 0 {
            return c.rungs;
        }
        part[0] = lead.first.re;
        part[1] = lead.first.im;
        if part.len() == 2 {
            return c.rungs;
        }
        part[2] = lead.second.re;
        part[3] = lead.second.im;
        let top = climb_fill::fill(
            self.two_over_z,
            self.order - 1.0,
            lead.zeros + 2,
            c,
            &mut part[4..],
        );
        top.rungs
    }
}

impl Admitted {
    // The lead of where the climb stands. It is one record for both ways, so that the compiler keeps it in registers.
    #[tactic(auto, unfolding(crate::specs::shapes::Led::led_of))]
    fn led(self, reached: Reached) -> Lead
        requires { MarkedFew reached }
        ensures { result ≡ led_of self.prepared reached }
    {
        match reached {
            Reached::OnScale(c) => on_scale_lead(c),
            Reached::Marked(c) => self.first_lead(c),
        }
    }

    // The zeros, and then the rest. A function of its own: within K's whole call the registers would not do for the loop of the fill.
    #[inline(never)]
    fn answered(self, s: Seeded, lead: Lead, out: &mut [f64]) -> Counts
        requires { LeadFits self.prepared lead × (length out.old ≡ self.prepared.count * 2) }
        ensures { (Ok result ≡ (lead_kernel self.prepared s lead).ending) × (out.new ≡ (lead_kernel self.prepared s lead).cells) }
    {
        let at = (lead.zeros as usize) * 2;
        fill(&mut out[0..at], 0.0);
        let rungs = self.prepared.rest(lead, &mut out[at..]);
        Counts {
            zeros: lead.zeros,
            longest_sum: s.terms,
            rungs,
            backward: s.backward,
        }
    }

    fn from_pair(
        self,
        s: Seeded,
        first: Complex,
        second: Complex,
        out: &mut [f64],
    ) -> Result<Counts, Refusal>
        requires { length out.old ≡ self.prepared.count * 2 }
        ensures { (result ≡ (pair_kernel self.prepared s first second).ending)
            × (out.new ≡ afterwards (pair_kernel self.prepared s first second) out.old) }
    {
        let start = Climb {
            older: first,
            newer: second,
            state: s.state,
            rungs: 0,
        };
        let reached = self.reach(s.underflow, start)?;
        let lead = self.led(reached);
        Ok(self.answered(s, lead, out))
    }
}

fn finished(s: Seeded, value: Complex, out: &mut [f64]) -> Counts
    requires { length out.old ≡ 2 }
    ensures { (Ok result ≡ (finished_kernel s value).ending) × (out.new ≡ (finished_kernel s value).cells) }
{
    out[0] = value.re;
    out[1] = value.im;
    Counts {
        zeros: 0,
        longest_sum: s.terms,
        rungs: 0,
        backward: s.backward,
    }
}

pub fn k_right_half_plane(
    scaled: bool,
    order: f64,
    z: Complex,
    modulus: f64,
    out: &mut [f64],
) -> Result<Counts, Refusal>
    requires { (0 < length out.old)
        × (length out.old % 2 ≡ 0)
        × (length out.old ≤ 1024)
        × T (nonnegative order)
        × T (le order largest_order)
        × (modulus ≡ modulus_of z) }
    ensures { (result ≡ (kernel_of scaled order z modulus (length out.old / 2)).ending)
        × (out.new ≡ afterwards (kernel_of scaled order z modulus (length out.old / 2)) out.old) }
{
    let call = Admitted {
        prepared: prepare(order, z, modulus, (out.len() / 2) as u32),
    };
    let s = call.prepared.seed(scaled)?;
    match s.seeds {
        Seeds::Finished(value) => Ok(finished(s, value, out)),
        Seeds::Pair(first, second) => call.from_pair(s, first, second, out),
    }
}
