ghost use Rattle.vms_plain_lines.specs.CallLaws.{EventLaws};

/// The laws of the calls on event counters.
pub(crate) fn event_laws()
    ensures { EventLaws }
{
    vms_event_core::calls_may_be_made();
    vms_event_core::calls_carry_nothing();
    vms_event_core::answers_are_read();
}
