ghost use Rattle.vms_groups.specs.Laws.{TextsLeadOn};

use vms_group_phase::group_phases_keep_laws;

/// The law that phases which lead through the lines of a text are phases of its body, one after another from the world
/// in which nothing was changed. Each is a phase of its lines, at each of whose moments all laws of a tree of groups
/// hold.
pub fn phases_lead_through_texts()
    ensures { TextsLeadOn }
{
    group_phases_keep_laws();
}
