ghost use Rattle.vms_history.specs.Common.{GivesThresholds};
ghost use Rattle.vms_calls.specs.MayCall.{MakesPlaceValue, MakesSystemValue, MakesSnapshot, MakesTest, MakesOrderTest};
ghost use Rattle.vms_calls.specs.MayCall.{MakesBalanceTest, MakesTurn, MakesRating, MakesNodeRating, MakesRefresh};
ghost use Rattle.vms_calls.specs.MayCall.{MakesFold, MakesBurial, MakesChange};
ghost use Rattle.vms_calls.specs.Ratings.{ByNormal, ByPressure};

use crate::ThresholdRules;

/// The steps of the calls that look at values or test them may be made by every live pass, whatever others do between
/// them, and whatever the later ones will tell.
pub fn looks_may_be_made()
    ensures place_value { MakesPlaceValue }
    ensures system_value { MakesSystemValue }
    ensures snapshot { MakesSnapshot }
    ensures test { MakesTest }
    ensures order { MakesOrderTest }
    ensures balance { MakesBalanceTest }
{}

/// The control pass may make the steps that set thresholds and marks, whatever others do between them, where its rules
/// give thresholds of 1 to 125.
pub fn thresholds_may_be_set<R: ThresholdRules>()
    ensures pressure_zone { GivesThresholds R.pressure → GivesThresholds R.normal →
        MakesRating (ByPressure R.pressure R.normal) }
    ensures normal_zone { GivesThresholds R.normal → MakesRating (ByNormal R.normal) }
    ensures pressure { GivesThresholds R.pressure → GivesThresholds R.normal →
        MakesNodeRating (ByPressure R.pressure R.normal) }
    ensures normal { GivesThresholds R.normal → MakesNodeRating (ByNormal R.normal) }
    ensures refresh { GivesThresholds R.normal → MakesRefresh R.normal }
    ensures burial { GivesThresholds R.normal → MakesBurial R.normal }
    ensures turn { GivesThresholds R.pressure → GivesThresholds R.normal →
        MakesTurn R.pressure R.normal }
{}

/// Every live pass that carries nothing may make the steps of a fold, whatever others do between them. If it owns the
/// CPU, it may acknowledge the thresholds too.
pub fn folds_may_be_made()
    ensures { MakesFold }
{}

/// The owner of a CPU may make the steps of a change, whatever others do between them, where it carries nothing and the
/// CPU has volume left.
pub fn changes_may_be_made()
    ensures { MakesChange }
{}
