use std::alloc::Global;
use vms_base::{CpuId, CpuState, Memory, PlaceId};
use vms_core::{Facts, State, Step};
use vms_page_passes::PagePasses;
use vms_page_peaks::{Newest, PagePeaks};
use vms_page_words::PageWords;

/// What stands after a history of page counters.
#[derive(Debug, Drop)]
pub struct PageRegisters {
    /// The numbers that stand.
    pub(crate) words: PageWords,
    /// What the pass in each slot found, loaded and carries.
    pub(crate) passes: PagePasses,
    /// What each CPU has spent and may hide.
    pub(crate) peaks: PagePeaks,
}

impl PageRegisters {
    ghost use Rattle.std.specs.Prelude.{◌≡◌, ℕ, [], IfOk};
    ghost use Rattle.vms_history.specs.Common.{IsCpu, IsLegal, IsZone};
    ghost use Rattle.vms_core.specs.Common.{History, IsBase, cpu_in, pages, peak, settled, state_after};
    ghost use Rattle.vms_core.specs.declared.steps.Facts.{Facts as FactsOf};
    ghost use Rattle.vms_registers.specs.Slots.{MayWork};
    ghost use Rattle.vms_page_peaks.specs.Keeps.{TellsNewest};
    ghost use Rattle.vms_page_registers.specs.Keeps.{KeepsPages};

    /// The registers of a history without events.
    pub(crate) fn opened(alloc: Global, facts: &Facts) -> Result<PageRegisters, Memory>
        requires { IsBase facts.now }
        ensures { IfOk result (λ r. (held : ℕ → ℕ) → KeepsPages facts.now [] held r) }
    {
        let words = PageWords::open(alloc, facts)?;
        let passes = PagePasses::open(alloc, facts)?;
        let peaks = PagePeaks::open(alloc, facts)?;
        Ok(PageRegisters {
            words,
            passes,
            peaks,
        })
    }

    /// The page counters as the next phase begins with them: nothing acknowledged, and nothing set.
    pub fn settled(&self, alloc: Global) -> Result<State, Memory>
        ensures { (facts : FactsOf) (h : History) (held : ℕ → ℕ) → KeepsPages facts h held self.now →
            IfOk result (λ s. s ≡ settled (state_after facts h)) }
    {
        self.words.settled(alloc)
    }

    /// The numbers that stand.
    #[inline]
    pub fn words(&self) -> &PageWords
        ensures { result.now ≡ self.now.words }
    {
        &self.words
    }

    /// Whether a CPU is online, dead or absent.
    pub fn cpu(&self, cpu: CpuId) -> CpuState
        requires { (facts : FactsOf) × (h : History) × (held : ℕ → ℕ) × IsLegal pages facts h
            × KeepsPages facts h held self.now × IsCpu facts.layout cpu.number }
        ensures { (facts : FactsOf) (h : History) (held : ℕ → ℕ) → IsLegal pages facts h →
            KeepsPages facts h held self.now → IsCpu facts.layout cpu.number → result ≡ cpu_in facts cpu.number h }
    {
        self.words.state(cpu)
    }

    /// The largest threshold or differential that a CPU may hide by in a zone, in pages.
    pub fn peak(&self, cpu: CpuId, zone: PlaceId) -> u64
        requires { (facts : FactsOf) × (h : History) × (held : ℕ → ℕ) × KeepsPages facts h held self.now
            × IsCpu facts.layout cpu.number × IsZone facts.layout zone.number }
        ensures { (facts : FactsOf) (h : History) (held : ℕ → ℕ) → KeepsPages facts h held self.now →
            IsCpu facts.layout cpu.number → IsZone facts.layout zone.number →
            result ≡ peak facts cpu.number zone.number h }
    {
        self.peaks.peak(cpu, zone)
    }

    /// What the peaks have to know of a step: beside a load of an acknowledgement, what stands of its CPU and its zone.
    pub(crate) fn newest(&self, facts: &Facts, slot: u32, step: &Step) -> Newest
        requires { (h : History) × (held : ℕ → ℕ) × (p : ℕ)
            × MayWork pages facts.now facts.now.layout.cpus h held slot p step.now
            × KeepsPages facts.now h held self.now }
        ensures { (h : History) (held : ℕ → ℕ) (p : ℕ) →
            MayWork pages facts.now facts.now.layout.cpus h held slot p step.now →
            KeepsPages facts.now h held self.now → TellsNewest facts.now h step.now result }
    {
        match *step {
            Step::LoadA(cpu, zone, _) => Newest {
                cpu: self.words.cpu(facts, cpu),
                t: self.words.threshold(facts, cpu, zone),
                number: self.words.threshold_sets(facts, cpu, zone),
            },
            _ => Newest {
                cpu: CpuState::Absent,
                t: 0,
                number: 0,
            },
        }
    }
}
