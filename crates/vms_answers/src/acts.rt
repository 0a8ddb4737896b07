ghost use Rattle.std.specs.Prelude.{◌≡◌, ◌≢◌, ℕ, true, ℤ, List, ◌++◌, Some, None};
ghost use Rattle.vms_calls.specs.PageCalls.{IsPageCall, asks_rules};
ghost use Rattle.vms_calls.specs.declared.page_calls.PageAnswer.{PageAnswer};
ghost use Rattle.vms_calls.specs.declared.page_calls.PageCall.{PageCall};
ghost use Rattle.vms_calls.specs.declared.page_calls.PageCall.TheVariants.{Bury, Change};
ghost use Rattle.vms_core.specs.Pages as pages;
ghost use Rattle.vms_world.specs.Common.{Header, CounterId, CpuId, Mode, State, Step, IsChange, HasMade, facts_of};
ghost use Rattle.vms_world.specs.Common.{EventAnswer, EventCall, EventStep, IsEventCall, PcpuAnswer, PcpuCall};
ghost use Rattle.vms_world.specs.Common.{PcpuFacts, PcpuStep, IsPcpuCall, read_pcpu_call, Act, Lane, Cpu, event_call};
ghost use Rattle.vms_world.specs.Common.{page_call, pcpu_call, event_facts, pcpu_facts, owner_of};
ghost use Rattle.vms_text.specs.declared.acts.Act.TheVariants.{Dead};
ghost use Rattle.vms_world.specs.declared.worlds.World.{World};
ghost use Rattle.vms_answers.specs.Answers.{Tell, event_told, on_counters, on_events, on_pages, page_told, pcpu_told};

use vms_calls::ThresholdRules;

/// The steps of the call that a line makes on the page counters tell what it answers, unless it buries a CPU and so
/// makes calls on the other tables too. Those of a call that asks a rule do so where a pass has made them.
pub fn page_acts_tell_answers<R: ThresholdRules>()
    ensures { (header : Header) (w : World) (base : State) (p : ℕ) (later h : pages.History) (lane : Lane)
        (act : Act) (call : PageCall) (steps : List Step) (answer : PageAnswer) → page_call lane act ≡ Some call →
        ((c : CpuId) → call ≢ Bury c) →
        IsPageCall header base R.pressure R.normal call (owner_of lane) p h steps answer →
        (asks_rules call ≡ true → HasMade (facts_of header base) later h p steps) →
        Tell header w lane act (on_pages steps) (page_told answer) }
{}

/// A line that changes a page counter answers nothing, and the steps of any change tell where they end: whichever
/// counter they change, by whatever amount and in whatever mode.
pub fn changes_answer_nothing()
    ensures { (header : Header) (w : World) (c : CpuId) (act : Act) (k other : CounterId) (delta amount : ℤ)
        (how mode : Mode) (steps : List Step) → page_call (Cpu c) act ≡ Some (Change k delta how) →
        IsChange header.layout c other amount mode steps → Tell header w (Cpu c) act (on_pages steps) None }
{
    vms_calls::changes_and_folds_are_told();
}

/// The steps of the call that a line makes on the event counters tell what it answers, unless it buries a CPU and so
/// makes calls on the other tables too.
pub fn event_acts_tell_answers()
    ensures { (header : Header) (w : World) (lane : Lane) (act : Act) (call : EventCall) (steps : List EventStep)
        (answer : EventAnswer) → event_call lane act ≡ Some call → ((c : CpuId) → act ≢ Dead c) →
        IsEventCall (event_facts header w) call steps answer →
        Tell header w lane act (on_events steps) (event_told answer) }
{
    vms_event_core::answers_are_read();
}

/// The steps of the call that a line makes on the percpu counters tell what it answers. They do so whichever facts the
/// call went by and whichever CPU its pass owned, where an answer is read by these facts as it is by those of the
/// world: of the calls of a CPU's lane, a comparison alone is read by facts at all. So do any steps off which the
/// call's answer is read, whatever follows them.
pub fn pcpu_acts_tell_answers()
    ensures call { (header : Header) (w : World) (c own : CpuId) (call : PcpuCall) (act : Act) →
        pcpu_call (Cpu c) act ≡ Some call → (facts : PcpuFacts) (steps : List PcpuStep) (answer : PcpuAnswer) →
        ((more : List PcpuStep) → read_pcpu_call (pcpu_facts header w) call more ≡ read_pcpu_call facts call more) →
        IsPcpuCall facts (Some own) call steps answer →
        Tell header w (Cpu c) act (on_counters steps) (pcpu_told answer) }
    ensures read { (header : Header) (w : World) (c : CpuId) (call : PcpuCall) (act : Act) →
        pcpu_call (Cpu c) act ≡ Some call → (steps : List PcpuStep) (answer : PcpuAnswer) →
        ((more : List PcpuStep) →
        read_pcpu_call (pcpu_facts header w) call (steps ++ more) ≡ (answer, more)) →
        Tell header w (Cpu c) act (on_counters steps) (pcpu_told answer) }
{}
