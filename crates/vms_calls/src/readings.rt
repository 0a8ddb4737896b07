ghost use Rattle.vms_calls.specs.ChangeReadings.{TellsChange};
ghost use Rattle.vms_calls.specs.FoldReadings.{TellsFold};
ghost use Rattle.vms_calls.specs.LookReadings.{TellsPlaceValue, TellsSystemValue, TellsSnapshot, TellsTest};
ghost use Rattle.vms_calls.specs.RatingReadings.{TellsNodeRating, TellsRefresh, TellsBurial, NodeFindsOnline};
ghost use Rattle.vms_calls.specs.RatingReadings.{RefreshFindsOnline, BurialFindsOnline};
ghost use Rattle.vms_calls.specs.Ratings.{ByNormal, ByPressure};
ghost use Rattle.vms_calls.specs.TurnLaws.{TurnFindsOnline};
ghost use Rattle.vms_calls.specs.TurnReadings.{TellsOrderTest, TellsBalance, TellsTurn};

use crate::ThresholdRules;

/// The steps of a call that looks at values or tests them tell its answer, and where they end: so a history determines
/// every answer.
pub fn answers_are_told()
    ensures place_value { TellsPlaceValue }
    ensures system_value { TellsSystemValue }
    ensures snapshot { TellsSnapshot }
    ensures test { TellsTest }
    ensures order { TellsOrderTest }
    ensures balance { TellsBalance }
{}

/// The steps of a change and of a fold tell where they end.
pub fn changes_and_folds_are_told()
    ensures change { TellsChange }
    ensures fold { TellsFold }
{}

/// Where each call found a CPU online, the steps of a call that sets thresholds, of a burial and of a turn of kswapd
/// tell where they end. Those of a turn tell its answer too.
pub fn ratings_are_told<R: ThresholdRules>()
    ensures pressure { TellsNodeRating (ByPressure R.pressure R.normal) }
    ensures normal { TellsNodeRating (ByNormal R.normal) }
    ensures refresh { TellsRefresh R.normal }
    ensures burial { TellsBurial R.normal }
    ensures turn { TellsTurn R.pressure R.normal }
{}

/// Each call that asks a rule finds a CPU online, in a legal history in which it was made.
pub fn ratings_find_a_cpu<R: ThresholdRules>()
    ensures pressure { NodeFindsOnline (ByPressure R.pressure R.normal) }
    ensures normal { NodeFindsOnline (ByNormal R.normal) }
    ensures refresh { RefreshFindsOnline R.normal }
    ensures burial { BurialFindsOnline R.normal }
    ensures turn { TurnFindsOnline R.pressure R.normal }
{}
