use vms_base::Row;

/// The words of the event counters (`vm_event_states` of mm/vmstat.c), by CPU and then event.
#[derive(Debug, Drop)]
pub struct EventState {
    pub words: Row<u64>,
}
