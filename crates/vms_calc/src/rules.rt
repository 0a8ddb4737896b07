ghost use Rattle.std.specs.Prelude.{◌≡◌, ℕ, ◌≤◌};
ghost use Rattle.vms_base.specs.declared.kinds.ZoneSize.{ZoneSize};
ghost use Rattle.vms_base.specs.Common.{IsValidSize, most_threshold, GivesThresholds};
ghost use Rattle.vms_calc.specs.Rules.{AcceptsSize, AnswersThreshold, IsThresholdRule};

use std::marker::Model;
use vms_base::ZoneSize;

/// What tells a threshold, in pages, from a zone's size and the number of online CPUs. Every closure over them is one.
pub trait Rule: Drop {
    // The rule may be asked at this size and number of CPUs.
    ghost accepts: { Self → ZoneSize → ℕ → Type 0 };

    // The last number is one that the rule may answer to them.
    ghost answers: { Self → ZoneSize → ℕ → ℕ → Type 0 };

    fn answer(&self, size: &ZoneSize, online: u32) -> u32
        requires { accepts self.now size.now online }
        ensures { answers self.now size.now online result };
}

impl<F: Fn(&ZoneSize, u32) -> u32> Rule for F {
    ghost accepts = { AcceptsSize F.Fn };

    ghost answers = { AnswersThreshold F.Fn };

    #[inline]
    fn answer(&self, size: &ZoneSize, online: u32) -> u32 {
        self(size, online)
    }
}

/// A normal and a pressure rule by which thresholds are set, kept with the fact that each tells thresholds.
///
/// What takes rules is generic in `N: Rule` and `P: Rule`. Where the closures themselves are in sight, hand them to
/// such a function and make the rules there, since a function that names the type of rules over a known closure gets no
/// proof. Hand over a function of another crate as `|size: &ZoneSize, online: u32| f(size, online)`.
#[derive(Drop)]
pub struct Rules<N: Rule, P: Rule> {
    normal: N,
    pressure: P,
}

impl<N: Rule, P: Rule> Model for Rules<N, P> {
    ghost use Rattle.vms_calc.specs.Rules.{RulePair, IsThresholdRule};

    ghost Value = { RulePair N P };

    ghost view = { λ rules. record { normal = rules.normal; pressure = rules.pressure } };

    ghost invariant = { λ rules. IsThresholdRule (N.accepts rules.normal) (N.answers rules.normal)
        × IsThresholdRule (P.accepts rules.pressure) (P.answers rules.pressure) };
}

impl<N: Rule, P: Rule> Rules<N, P> {
    /// The rules that go by these closures.
    pub fn make(normal: N, pressure: P) -> Rules<N, P>
        requires normal { IsThresholdRule (N.accepts normal) (N.answers normal) }
        requires pressure { IsThresholdRule (P.accepts pressure) (P.answers pressure) }
        ensures { result ≡ record { normal = normal; pressure = pressure } }
    {
        Rules { normal, pressure }
    }

    /// Both rules tell thresholds, 1 to 125 pages, for every valid size and 1 to 128 CPUs: whoever holds rules may rely
    /// on it, however they were made.
    pub fn tells(&self)
        ensures normal { GivesThresholds (N.answers self.now.normal) }
        ensures pressure { GivesThresholds (P.answers self.now.pressure) }
    {
        let _ = &self.normal;
    }

    /// What the normal rule answers.
    #[inline]
    pub fn normal(&self, size: &ZoneSize, online: u32) -> u32
        requires size { IsValidSize size.now }
        requires least_online { 1 ≤ online }
        requires most_online { online ≤ 128 }
        ensures answer { N.answers self.now.normal size.now online result }
        ensures least { 1 ≤ result }
        ensures most { result ≤ most_threshold }
    {
        self.normal.answer(size, online)
    }

    /// What the pressure rule answers.
    #[inline]
    pub fn pressure(&self, size: &ZoneSize, online: u32) -> u32
        requires size { IsValidSize size.now }
        requires least_online { 1 ≤ online }
        requires most_online { online ≤ 128 }
        ensures answer { P.answers self.now.pressure size.now online result }
        ensures least { 1 ≤ result }
        ensures most { result ≤ most_threshold }
    {
        self.pressure.answer(size, online)
    }
}
