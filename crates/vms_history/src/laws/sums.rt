ghost use Rattle.std.specs.Prelude.{◌≡◌, ◌≢◌, ℕ, ◌<◌, List, ◌++◌, ℤ, pos, ◌+ℤ◌, ◌-ℤ◌};
ghost use Rattle.vms_history.specs.declared.events.Event.{Event};
ghost use Rattle.vms_history.specs.Events.{own, total};
ghost use Rattle.vms_history.specs.Legal.{IsLegal};
ghost use Rattle.vms_history.specs.Passes.{begun_in};
ghost use Rattle.vms_history.specs.Sums.{sum_below};

use crate::laws::Table;

/// A total over events adds up over lists, and over measures.
pub fn total_adds_up<T: Table>()
    ensures lists { (measure : T.Step → ℤ) (m h : List (Event T.Step)) →
        total measure (m ++ h) ≡ total measure m +ℤ total measure h }
    ensures measures { (first second : T.Step → ℤ) (h : List (Event T.Step)) →
        total (λ k. first k +ℤ second k) h ≡ total first h +ℤ total second h }
{}

/// A sum below a bound goes by what is summed below it: equal values give equal sums, zeros give 0, a sum of two
/// values gives the two sums, and one value that differs moves the sum by the difference.
pub fn sum_goes_by_values()
    ensures same { (f g : ℕ → ℤ) (n : ℕ) → ((k : ℕ) → k < n → f k ≡ g k) →
        sum_below f n ≡ sum_below g n }
    ensures zeros { (f : ℕ → ℤ) (n : ℕ) → ((k : ℕ) → k < n → f k ≡ pos 0) →
        sum_below f n ≡ pos 0 }
    ensures two { (f g : ℕ → ℤ) (n : ℕ) →
        sum_below (λ k. f k +ℤ g k) n ≡ sum_below f n +ℤ sum_below g n }
    ensures changed { (f g : ℕ → ℤ) (k n : ℕ) → k < n → ((i : ℕ) → i < n → i ≢ k → g i ≡ f i) →
        sum_below g n ≡ sum_below f n +ℤ (g k -ℤ f k) }
{}

/// A total over a legal history is the sum of its callers' own totals: of the main pass and of every pass begun.
pub fn total_by_caller<T: Table>()
    ensures { (facts : T.Facts) (measure : T.Step → ℤ) (h : List (Event T.Step)) (n : ℕ) →
        IsLegal T.machine facts h → begun_in T.machine.role h < n →
        total measure h ≡ sum_below (λ p. total measure (own h p)) n }
{}
