use crate::cpus::CpuStates;
use crate::effects::Effect;
use crate::volumes::VolumeTable;
use std::alloc::Global;
use vms_base::{CounterId, CpuId, CpuState, EventId, Header, Memory, PcpuId};
use vms_line::{Act, Boundary, Lane, Line, LineCause, parse_line, parse_spelled};

/// What was judged of a line.
#[derive(Clone, Copy, Debug)]
pub struct JudgedLine<'a> {
    /// What the line says, or the first cause why it doesn't count.
    pub said: Result<Line, LineCause>,
    /// The bytes of the line, where they are known to be its one spelling.
    pub spelled: Option<&'a [u8]>,
}

/// Decides the lines of a body by the lines above them. It keeps the CPUs' states and volumes, and no line.
#[derive(Drop)]
pub struct LineJudge {
    pub(crate) cpus: CpuStates,
    pub(crate) counters: VolumeTable,
    pub(crate) events: VolumeTable,
    pub(crate) pcpu: VolumeTable,
}

impl LineJudge {
    ghost use Rattle.std.specs.Prelude.{◌≡◌, ◌+◌, [], List, Err, IfOk, Ok, if◌then◌else◌, nat_lt, slice_index_or};
    ghost use Rattle.vms_base.specs.Common.{IsHeader, most_volume};
    ghost use Rattle.vms_text.specs.declared.acts.Line.{Line};
    ghost use Rattle.vms_script.specs.Judging.{with_counted, judged};
    ghost use Rattle.vms_script.specs.JudgeStates.{CanApply, FindsEffect, HasCell, HasEffect, IsInOneSpelling};
    ghost use Rattle.vms_script.specs.JudgeStates.{JudgeStands, JudgesLine, MayJudge, SomeJudge, new_volume, volume_at};

    /// A judge before the first line of a body with this header.
    pub fn make(alloc: Global, header: &Header) -> Result<LineJudge, Memory>
        requires { IsHeader header.now }
        ensures { IfOk result (λ judge. JudgeStands header.now [] judge) }
    {
        let cpus = header.layout.cpus();
        let width = header.layout.counters() as usize;
        Ok(LineJudge {
            cpus: CpuStates::make(alloc, cpus)?,
            counters: VolumeTable::make(alloc, cpus as usize, width)?,
            events: VolumeTable::make(alloc, cpus as usize, 8)?,
            pcpu: VolumeTable::make(alloc, cpus as usize, header.counters.len())?,
        })
    }

    /// Decides a line of the body by the lines above that count: what it says, or the first cause why it doesn't count.
    #[inline(always)]
    pub fn judge<'a>(&mut self, header: &Header, line: &'a [u8]) -> JudgedLine<'a>
        requires header { IsHeader header.now }
        requires judge { SomeJudge header.now self.old }
        ensures said { (lines : List Line) → JudgeStands header.now lines self.old
            → (result.said ≡ judged header.now lines line.now)
            × JudgeStands header.now (with_counted result.said lines) self.new }
        ensures spelled { IsInOneSpelling header.now result }
    {
        match parse_spelled(header, line) {
            Some(said) => JudgedLine {
                said: self.decide(said),
                spelled: Some(line),
            },
            None => JudgedLine {
                said: self.judge_any(header, line),
                spelled: None,
            },
        }
    }

    /// Decides a line of the body, in any spelling.
    #[cold]
    fn judge_any(&mut self, header: &Header, line: &[u8]) -> Result<Line, LineCause>
        requires header { IsHeader header.now }
        requires judge { SomeJudge header.now self.old }
        ensures { (lines : List Line) → JudgeStands header.now lines self.old →
            (result ≡ judged header.now lines line.now)
            × JudgeStands header.now (with_counted result lines) self.new }
    {
        let said = parse_line(header, line)?;
        self.decide(said)
    }

    /// Decides a line that was read, and gives it back where it counts.
    #[inline(always)]
    pub(crate) fn decide(&mut self, line: Line) -> Result<Line, LineCause>
        requires { MayJudge self.old line }
        ensures answers { JudgesLine line self.old self.new result }
        ensures same { IfOk result (λ said. said ≡ line) }
    {
        let effect = self.effect(line)?;
        self.apply(effect);
        Ok(line)
    }

    /// Does what a line does that counts.
    #[inline(always)]
    pub(crate) fn apply(&mut self, effect: Effect)
        requires { CanApply effect self.old }
        ensures { HasEffect effect self.old self.new }
    {
        match effect {
            Effect::Nothing => {}
            Effect::State(cpu, state) => self.cpus.set(cpu, state),
            Effect::Counter(new) => self.counters.put(new),
            Effect::Event(new) => self.events.put(new),
            Effect::Pcpu(new) => self.pcpu.put(new),
        }
    }

    /// What a line that was read does, or the first cause why it doesn't count. Nothing changes.
    #[inline(always)]
    pub(crate) fn effect(&self, line: Line) -> Result<Effect, LineCause>
        requires { MayJudge self.now line }
        ensures { FindsEffect line self.now result }
    {
        match line {
            Line::Blank => Ok(Effect::Nothing),
            Line::Lane(lane, act) => self.lane_effect(lane, act),
            Line::Boundary(boundary) => self.boundary_effect(boundary),
        }
    }

    /// What a line of a lane does.
    #[inline(always)]
    fn lane_effect(&self, lane: Lane, act: Act) -> Result<Effect, LineCause>
        requires { MayJudge self.now (Line.Lane lane act) }
        ensures { FindsEffect (Line.Lane lane act) self.now result }
    {
        match lane {
            Lane::Cpu(cpu) => self.act_effect(cpu, act),
            Lane::Control => self.control_effect(act),
        }
    }

    /// What an act of the control lane does.
    fn control_effect(&self, act: Act) -> Result<Effect, LineCause>
        requires { MayJudge self.now (Line.Lane Lane.Control act) }
        ensures { FindsEffect (Line.Lane Lane.Control act) self.now result }
    {
        match act {
            Act::Dead(cpu) => self.burial_effect(cpu),
            _ => Ok(Effect::Nothing),
        }
    }

    /// What a boundary line does.
    fn boundary_effect(&self, boundary: Boundary) -> Result<Effect, LineCause>
        requires { MayJudge self.now (Line.Boundary boundary) }
        ensures { FindsEffect (Line.Boundary boundary) self.now result }
    {
        match boundary {
            Boundary::Offline(cpu) => self.offline_effect(cpu),
            Boundary::Online(cpu) => self.online_effect(cpu),
            _ => Ok(Effect::Nothing),
        }
    }

    /// What an act of a CPU's lane does.
    #[inline(always)]
    fn act_effect(&self, cpu: CpuId, act: Act) -> Result<Effect, LineCause>
        requires { MayJudge self.now (Line.Lane (Lane.Cpu cpu) act) }
        ensures { FindsEffect (Line.Lane (Lane.Cpu cpu) act) self.now result }
    {
        if self.cpus.is_online(cpu) {
            self.spending_effect(cpu, act)
        } else {
            Err(LineCause::NotOnline)
        }
    }

    /// What an act of a CPU adds to its volumes, which is online, unless one would exceed its most.
    #[inline(always)]
    fn spending_effect(&self, cpu: CpuId, act: Act) -> Result<Effect, LineCause>
        requires knows { MayJudge self.now (Line.Lane (Lane.Cpu cpu) act) }
        requires online { slice_index_or self.now.cpus.states cpu.number CpuState.Online ≡ CpuState.Online }
        ensures { FindsEffect (Line.Lane (Lane.Cpu cpu) act) self.now result }
    {
        match act {
            Act::Mod(counter, pages) => self.spend_on_counter(cpu, counter, pages.unsigned_abs()),
            Act::Inc(counter) => self.spend_on_counter(cpu, counter, 1),
            Act::Dec(counter) => self.spend_on_counter(cpu, counter, 1),
            Act::Ev(event, n) => self.spend_on_event(cpu, event, n),
            Act::Cnt(counter, amount) => self.spend_on_pcpu(cpu, counter, amount.unsigned_abs()),
            Act::Lim(counter, _, amount) => {
                self.spend_on_pcpu(cpu, counter, amount.unsigned_abs())
            }
            _ => Ok(Effect::Nothing),
        }
    }

    /// What it does to add a size to a CPU's volume on a page counter.
    #[inline(always)]
    fn spend_on_counter(
        &self,
        cpu: CpuId,
        counter: CounterId,
        size: u64,
    ) -> Result<Effect, LineCause>
        requires { HasCell self.now.counters cpu.number counter.number }
        ensures { result ≡ if nat_lt most_volume (volume_at self.now.counters cpu.number counter.number + size)
            then Err LineCause.Overflow
            else Ok (Effect.Counter (new_volume self.now.counters cpu.number counter.number size)) }
    {
        let new = self.counters.with_size(cpu, counter.number, size)?;
        Ok(Effect::Counter(new))
    }

    /// The same on an event.
    #[inline(always)]
    fn spend_on_event(&self, cpu: CpuId, event: EventId, size: u64) -> Result<Effect, LineCause>
        requires { HasCell self.now.events cpu.number event.number }
        ensures { result ≡ if nat_lt most_volume (volume_at self.now.events cpu.number event.number + size)
            then Err LineCause.Overflow
            else Ok (Effect.Event (new_volume self.now.events cpu.number event.number size)) }
    {
        let new = self.events.with_size(cpu, event.number, size)?;
        Ok(Effect::Event(new))
    }

    /// The same on a percpu counter.
    #[inline(always)]
    fn spend_on_pcpu(&self, cpu: CpuId, counter: PcpuId, size: u64) -> Result<Effect, LineCause>
        requires { HasCell self.now.pcpu cpu.number counter.number }
        ensures { result ≡ if nat_lt most_volume (volume_at self.now.pcpu cpu.number counter.number + size)
            then Err LineCause.Overflow
            else Ok (Effect.Pcpu (new_volume self.now.pcpu cpu.number counter.number size)) }
    {
        let new = self.pcpu.with_size(cpu, counter.number, size)?;
        Ok(Effect::Pcpu(new))
    }

    /// A dead CPU becomes absent.
    fn burial_effect(&self, cpu: CpuId) -> Result<Effect, LineCause>
        requires { MayJudge self.now (Line.Lane Lane.Control (Act.Dead cpu)) }
        ensures { FindsEffect (Line.Lane Lane.Control (Act.Dead cpu)) self.now result }
    {
        match self.cpus.get(cpu) {
            CpuState::Dead => Ok(Effect::State(cpu, CpuState::Absent)),
            CpuState::Online | CpuState::Absent => Err(LineCause::NotDead),
        }
    }

    /// An online CPU becomes dead, unless it is the only one.
    fn offline_effect(&self, cpu: CpuId) -> Result<Effect, LineCause>
        requires { MayJudge self.now (Line.Boundary (Boundary.Offline cpu)) }
        ensures { FindsEffect (Line.Boundary (Boundary.Offline cpu)) self.now result }
    {
        if !self.cpus.is_online(cpu) {
            return Err(LineCause::NotOnline);
        }
        if self.cpus.online == 1 {
            return Err(LineCause::LastCpu);
        }
        Ok(Effect::State(cpu, CpuState::Dead))
    }

    /// An absent CPU becomes online.
    fn online_effect(&self, cpu: CpuId) -> Result<Effect, LineCause>
        requires { MayJudge self.now (Line.Boundary (Boundary.Online cpu)) }
        ensures { FindsEffect (Line.Boundary (Boundary.Online cpu)) self.now result }
    {
        match self.cpus.get(cpu) {
            CpuState::Online => Err(LineCause::NotDead),
            CpuState::Dead => Err(LineCause::NotFolded),
            CpuState::Absent => Ok(Effect::State(cpu, CpuState::Online)),
        }
    }
}
