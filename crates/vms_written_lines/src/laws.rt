ghost use Rattle.vms_written_lines.specs.Laws.{EventsReadBack, PhasesReadBack};

/// The law that what is written of an event and of a phase is one line of a text, and is read back.
pub fn lines_read_back()
    ensures events { EventsReadBack }
    ensures phases { PhasesReadBack }
{}
