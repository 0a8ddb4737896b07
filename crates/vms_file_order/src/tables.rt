ghost use Rattle.std.specs.Prelude.{ℕ, List, [], refl};
ghost use Rattle.vms_world.specs.Common.{Header, State, pages, quiet_pages, EventState, EventFacts, events};
ghost use Rattle.vms_world.specs.Common.{quiet_events, Event, Machine, IsQuiet, PcpuFacts, percpu, quiet_percpu};
ghost use Rattle.vms_world.specs.Common.{LockedState, HasWon, Act, Lane, PageSteps};
ghost use Rattle.vms_file_order.specs.LanePasses.{PassSteps};
ghost use Rattle.vms_file_order.specs.Tables.{page_passes, event_passes, pcpu_passes, event_makes, pcpu_makes};
ghost use Rattle.vms_file_order.specs.Tables.{FindsLockFree, MeetsNobody};

use std::marker::PhantomData;
use vms_calls::ThresholdRules;
use vms_core::{Facts, Step};
use vms_event_core::{EventFacts, EventStep};
use vms_pcpu_core::{PcpuFacts, PcpuStep};

/// A table in which the lines of a phase follow one another.
pub trait LineTable {
    /// What is known of the table from the start.
    type Facts;

    /// One atomic operation.
    type Step;

    ghost State: { Type 0 };

    // What the acts of a phase go by, as its header and the state that it begins with.
    ghost Setting: { Type 0 };

    ghost machine: { Machine Self.Facts Self.Step State };

    ghost quiet: { IsQuiet machine };

    // The steps that begin and end a pass.
    ghost passes: { PassSteps Self.Step machine.role };

    // A pass that has made nothing may end.
    ghost fresh: { (facts : Self.Facts) → machine.MayEnd facts [] };

    // The steps that an act may make, by a lane's pass of this number, where it begins in a history.
    ghost makes: { Setting → Lane → ℕ → Act → List (Event Self.Step) → List Self.Step → Type 0 };

    // What each step of a caller is that meets no other.
    ghost IsAlone: { Self.Step → Type 0 };
}

/// The lines of a phase on the page counters, with rules of thresholds.
#[derive(Debug, Drop)]
pub struct PageLines<R: ThresholdRules> {
    rules: PhantomData<R>,
}

impl<R: ThresholdRules> LineTable for PageLines<R> {
    type Facts = Facts;

    type Step = Step;

    ghost State = { State };

    ghost Setting = { Header × State };

    ghost machine = { pages };

    ghost quiet = { quiet_pages };

    ghost passes = { page_passes };

    ghost fresh = { λ facts. record { counters = λ k. refl; items = λ i. refl } };

    ghost makes = { λ setting. PageSteps setting.0 setting.1 R.pressure R.normal };

    ghost IsAlone = { HasWon };
}

/// The lines of a phase on the event counters.
#[derive(Debug, Drop)]
pub struct EventLines;

impl LineTable for EventLines {
    type Facts = EventFacts;

    type Step = EventStep;

    ghost State = { EventState };

    ghost Setting = { EventFacts };

    ghost machine = { events };

    ghost quiet = { quiet_events };

    ghost passes = { event_passes };

    ghost fresh = { λ facts k known. refl };

    ghost makes = { event_makes };

    ghost IsAlone = { MeetsNobody };
}

/// The lines of a phase on the percpu counters.
#[derive(Debug, Drop)]
pub struct PcpuLines;

impl LineTable for PcpuLines {
    type Facts = PcpuFacts;

    type Step = PcpuStep;

    ghost State = { LockedState };

    ghost Setting = { PcpuFacts };

    ghost machine = { percpu };

    ghost quiet = { quiet_percpu };

    ghost passes = { pcpu_passes };

    ghost fresh = { λ facts j known. refl };

    ghost makes = { pcpu_makes };

    ghost IsAlone = { FindsLockFree };
}
