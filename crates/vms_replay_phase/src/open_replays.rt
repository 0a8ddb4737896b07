use crate::lines::make_line;
use crate::volumes::spend;
use std::alloc::Global;
use std::marker::Model;
use vms_answers::Answer;
use vms_base::{Header, Memory, Row};
use vms_calc::{Rule, Rules};
use vms_plain_control::Peaks;
use vms_plain_lines::PlainTables;
use vms_text::Item;
use vms_world::{Volumes, World};

/// A phase whose lines are made one after another.
#[derive(Debug, Drop)]
pub(crate) struct OpenReplay {
    tables: PlainTables,
    volumes: Volumes,
}

impl Model for OpenReplay {
    ghost use Rattle.vms_replay_phase.specs.OpenReplays.{ReplayState};

    ghost Value = { ReplayState };

    ghost view = { λ replay. record { tables = replay.tables; volumes = replay.volumes } };
}

impl OpenReplay {
    ghost use Rattle.std.specs.Prelude.{◌≡◌, IfOk};
    ghost use Rattle.vms_world.specs.Common.{IsHeader, settled, IsWorldOf};
    ghost use Rattle.vms_replay_phase.specs.Lines.{MayMakeLine};
    ghost use Rattle.vms_replay_phase.specs.OpenReplays.{BeginsReplay, ReplaysLine};
    ghost use Rattle.vms_replay_phase.specs.Spending.{AreVolumesOf};

    /// The replay of a phase from this world, before its first line.
    pub(crate) fn open(alloc: Global, world: World, header: &Header) -> Result<OpenReplay, Memory>
        requires { IsWorldOf header.now world }
        ensures { IfOk result (λ replay. BeginsReplay header.now world replay) }
    {
        let World {
            pages,
            events,
            counters,
            volumes,
        } = world;
        let peaks = Peaks::make(alloc, &header.layout, &pages)?;
        let opening = Row::from_slice(alloc, pages.cpu.as_slice())?;
        Ok(OpenReplay {
            tables: PlainTables::make(pages, events, counters, peaks, opening),
            volumes,
        })
    }

    /// Makes the next line. Returns what it answers, if it asks something.
    #[inline]
    pub(crate) fn take<N: Rule, P: Rule>(
        &mut self,
        header: &Header,
        rules: &Rules<N, P>,
        item: &Item,
    ) -> Option<Answer>
        requires header { IsHeader header.now }
        requires may { MayMakeLine header.now item.now.lane item.now.act self.old.tables }
        requires volumes { AreVolumesOf header.now self.old.volumes }
        ensures { ReplaysLine header.now (P.answers rules.now.pressure)
            (N.answers rules.now.normal) item.now
            result self.old self.new }
    {
        let lane = item.lane.lane();
        // Last, so that a line without an answer leads straight on to the next one.
        spend(&mut self.volumes, header, lane, item.act);
        make_line(&mut self.tables, rules, header, lane, item.act)
    }

    /// Ends the phase. The next one begins with nothing acknowledged and nothing set.
    pub(crate) fn close(self) -> World
        ensures pages { result.pages ≡ settled self.tables.pages }
        ensures events { result.events ≡ self.tables.events }
        ensures counters { result.counters ≡ self.tables.counters }
        ensures volumes { result.volumes ≡ self.volumes }
    {
        let OpenReplay { tables, volumes } = self;
        let (pages, events, counters) = tables.into_parts();
        World {
            pages: pages.settle(),
            events,
            counters,
            volumes,
        }
    }
}
