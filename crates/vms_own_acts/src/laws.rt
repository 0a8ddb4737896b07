ghost use Rattle.std.specs.Prelude.{◌≡◌, ◌↔◌, ℕ, List, [], ◌++◌, Some};
ghost use Rattle.vms_core.specs.Pages.{History};
ghost use Rattle.vms_calls.specs.declared.page_calls.PageCall.{PageCall};
ghost use Rattle.vms_world.specs.Common.{Act, Header, IsLayout, Lane, MakesActs, PageSteps, State, Step, own};
ghost use Rattle.vms_world.specs.Common.{page_call};
ghost use Rattle.vms_own_acts.specs.Histories.{IsHistoryFor};
ghost use Rattle.vms_own_acts.specs.InRow.{MakesInRow};
ghost use Rattle.vms_own_acts.specs.Rules.{IsFunction};

use vms_calls::ThresholdRules;

/// Which acts a pass has made goes by its own events alone, whatever others did between them: it has made them one
/// after another.
pub fn acts_go_by_own_events<R: ThresholdRules>()
    ensures own { (header : Header) (base : State) (lane : Lane) (p : ℕ) (acts : List Act) (h : History) →
        IsHistoryFor header base lane p h → MakesActs (PageSteps header base R.pressure R.normal lane p) p acts h
        ↔ MakesActs (PageSteps header base R.pressure R.normal lane p) p acts (own h p) }
    ensures row { (header : Header) (base : State) (lane : Lane) (p : ℕ) (acts : List Act) (h : History) →
        IsHistoryFor header base lane p h → MakesActs (PageSteps header base R.pressure R.normal lane p) p acts h
        ↔ MakesInRow (PageSteps header base R.pressure R.normal lane p) p acts [] (own h p) }
{}

/// Where the rules of thresholds are functions, the steps of an act begin no other steps of it, and an act that makes a
/// call on the page counters makes a step. So no events are cut into the same acts in two ways.
pub fn acts_are_cut_one_way<R: ThresholdRules>()
    ensures one { (header : Header) (base : State) (lane : Lane) (p : ℕ) (act : Act) (h : History)
        (first more : List Step) → IsFunction R.pressure → IsFunction R.normal →
        PageSteps header base R.pressure R.normal lane p act h first →
        PageSteps header base R.pressure R.normal lane p act h (first ++ more) → more ≡ [] }
    ensures some { (header : Header) (base : State) (lane : Lane) (p : ℕ) (act : Act) (call : PageCall)
        (h : History) → IsLayout header.layout → page_call lane act ≡ Some call →
        ¬ PageSteps header base R.pressure R.normal lane p act h [] }
{
    vms_plans::plans_are_the_calls::<R>();
}
