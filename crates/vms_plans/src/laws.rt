ghost use Rattle.vms_plans.specs.OpenPlans.{PlansAreOpen, SomeStepFits};
ghost use Rattle.vms_plans.specs.PagePlans.{PlansAreCalls};

use vms_calls::ThresholdRules;

/// The steps of a call on the page counters, with its answer, are those that run through its plan.
pub fn plans_are_the_calls<R: ThresholdRules>()
    ensures { PlansAreCalls R.pressure R.normal }
{}

/// Whatever the steps of a call told, its plan doesn't come to a refusal before it ends, where the pass may make the
/// call at all. For each step that is due there is one that fits.
pub fn plans_stay_open<R: ThresholdRules>()
    ensures stays_open { PlansAreOpen R.pressure R.normal }
    ensures fits { SomeStepFits }
{}
