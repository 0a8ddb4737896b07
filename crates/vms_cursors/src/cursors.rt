ghost use Rattle.std.specs.Prelude.{◌≡◌, ℕ, [], ◌∷◌, IfSome, IsNone, is_some, pos};
ghost use Rattle.vms_calls.specs.Common.{Header, History, IsHeader, IsLayout, Shape, State, after};
ghost use Rattle.vms_calls.specs.PageCalls.{asks_rules, owns_cpu};
ghost use Rattle.vms_plans.specs.Common.{plan_of};
ghost use Rattle.vms_cursors.specs.Cursors.{GoesOn, IsDue, IsSame, HasEnded, Stops};
ghost use Rattle.vms_cursors.specs.Calls.{AnswersCursor, IsAffordable, IsCallWithin, IsCursorAsked, IsReady, IsWithin};
ghost use Rattle.vms_cursors.specs.Calls.{answer_of, cursor_at, has_cursor, may_ask, owns_none};
ghost use Rattle.vms_cursors.specs.declared.cursors.Cursor.TheVariants.{Bury, Rates};
ghost use Rattle.vms_cursors.specs.declared.cursors.Cursor.TheVariants as variant;
ghost use Rattle.vms_cursors.specs.Totals.{total_at};
ghost use Rattle.vms_cursors.specs.declared.burial_positions.BurialPosition.TheVariants.{Folds};
ghost use Rattle.vms_cursors.specs.declared.fold_positions.FoldPosition.TheVariants.{Places};
ghost use Rattle.vms_cursors.specs.declared.taken.Taken.{Taken};
ghost use Rattle.vms_cursors.specs.declared.online_cpus.OnlineCpus.{OnlineCpus};
ghost use Rattle.vms_cursors.specs.declared.rating_positions.RatingPosition.TheVariants.{States};
ghost use Rattle.vms_cursors.specs.declared.turn_positions.TurnPosition.TheVariants.{Presses};

use crate::{
    Asked, BurialPosition, Change, ChangePosition, Fold, FoldPosition, LoadPosition, OnlineCpus,
    RatingCall, RatingPosition, SnapshotPosition, Taken, TestPosition, Turn, TurnPosition,
};
use vms_base::{CounterId, CpuId, Header, ItemId, Layout, PlaceId, WaterMark};
use vms_calls::{Chosen, PageCall, ThresholdRules};
use vms_core::Step;
use vms_plans::DueStep;

/// A call that is under way: which call it is, and where it stands.
#[derive(Clone, Copy, Debug, PartialEq, Eq)]
pub enum Cursor {
    Change(Change, ChangePosition),
    Value(CounterId, LoadPosition),
    System(ItemId, LoadPosition),
    Snapshot(CounterId, SnapshotPosition),
    /// With the watermark and the highest zone index, by which the test answers.
    Test(PlaceId, WaterMark, u32, TestPosition),
    Fold(Fold, FoldPosition),
    /// A call that gives thresholds to the zones of a node.
    Rates(RatingCall, RatingPosition),
    Bury(CpuId, BurialPosition),
    Turn(Turn, TurnPosition),
}

impl Cursor {
    /// A cursor at the beginning of a call by a pass that owns a CPU or none: none where such a pass doesn't make it.
    pub fn begin<R: ThresholdRules>(call: PageCall, owner: Option<CpuId>) -> Option<Cursor>
        requires { IsAffordable call }
        ensures begins { (header : Header) (base : State) (p : ℕ) (h : History) → IfSome result
            (λ cursor. IsSame (plan_of header base R.pressure R.normal call owner p h)
            (cursor_at header base p R.pressure R.normal h cursor)) }
        ensures known { is_some result ≡ has_cursor owner call }
        ensures kind { IfSome result (λ cursor. may_ask cursor ≡ asks_rules call) }
        ensures within { (shape : Shape) → IsCallWithin shape call → IfSome result (λ cursor. IsWithin shape cursor) }
    {
        match call {
            PageCall::Change(counter, delta, mode) => match owner {
                Some(cpu) => Some(Cursor::Change(
                    Change {
                        cpu,
                        counter,
                        delta,
                        mode,
                    },
                    ChangePosition::Begun,
                )),
                None => None,
            },
            PageCall::Value(counter) => Some(Cursor::Value(counter, LoadPosition::Begun)),
            PageCall::System(item) => Some(Cursor::System(item, LoadPosition::Begun)),
            PageCall::Snapshot(counter) => {
                Some(Cursor::Snapshot(counter, SnapshotPosition::Begun))
            }
            PageCall::Test(zone, mark, most) => {
                Some(Cursor::Test(zone, mark, most, TestPosition::Begun))
            }
            PageCall::Fold(cpu) => Some(Cursor::Fold(
                Fold {
                    cpu,
                    is_own: owns_cpu(owner, cpu),
                },
                FoldPosition::Places(Taken::nothing(), 0),
            )),
            PageCall::SetPressure(node) => begin_rating(RatingCall::Pressure(node), owner),
            PageCall::SetNormal(node) => begin_rating(RatingCall::Normal(node), owner),
            PageCall::Bury(cpu) => begin_burial(cpu, owner),
            PageCall::Turn(node, order, most) => begin_turn(Turn { node, order, most }, owner),
        }
    }

    /// What the rules of thresholds are asked for: none where no rule is asked.
    pub fn asks(self, layout: &Layout) -> Option<Asked>
        requires { IsLayout layout.now }
        ensures asked { IfSome result (λ asked. IsCursorAsked layout.now self asked) }
        ensures none { IsNone result → IsReady self }
    {
        match self {
            Cursor::Rates(_, at) => at.asks(layout),
            Cursor::Bury(_, at) => at.asks(layout),
            Cursor::Turn(_, at) => at.asks(layout),
            _ => None,
        }
    }

    /// The cursor after the rules chose these thresholds, with the mark that covers the zone then: the same cursor
    /// where no rule is asked.
    pub fn answer<R: ThresholdRules>(self, chosen: Chosen, mark: u64) -> Cursor
        ensures same { (header : Header) (base : State) (p : ℕ) (h : History) →
            AnswersCursor header base p R.pressure R.normal h self chosen mark →
            IsSame (cursor_at header base p R.pressure R.normal h self)
            (cursor_at header base p R.pressure R.normal h result) }
        ensures ready { IsReady result }
        ensures kind { may_ask result ≡ may_ask self }
        ensures within { (shape : Shape) → IsWithin shape self → IsWithin shape result }
    {
        match self {
            Cursor::Rates(call, at) => Cursor::Rates(call, at.answer::<R>(chosen, mark)),
            Cursor::Bury(cpu, at) => Cursor::Bury(cpu, at.answer::<R>(chosen, mark)),
            Cursor::Turn(turn, at) => Cursor::Turn(turn, at.answer::<R>(chosen, mark)),
            Cursor::Change(_, _) => self,
            Cursor::Value(_, _) => self,
            Cursor::System(_, _) => self,
            Cursor::Snapshot(_, _) => self,
            Cursor::Test(_, _, _, _) => self,
            Cursor::Fold(_, _) => self,
        }
    }

    /// The step that is due: none where the call has ended.
    pub fn due<R: ThresholdRules>(self, header: &Header) -> Option<DueStep>
        requires header { IsHeader header.now }
        requires within { IsWithin header.now.layout self }
        requires ready { IsReady self }
        ensures due { (base : State) (p : ℕ) (h : History) →
            IfSome result (λ due. IsDue (cursor_at header.now base p R.pressure R.normal h self) due) }
        ensures ended { (base : State) (p : ℕ) (h : History) → IsNone result →
            HasEnded (cursor_at header.now base p R.pressure R.normal h self) (answer_of header.now self) }
    {
        match self {
            Cursor::Change(change, at) => at.due(&change, &header.layout),
            Cursor::Value(counter, at) => at.due_value(counter),
            Cursor::System(item, at) => at.due_system(item),
            Cursor::Snapshot(counter, at) => at.due(counter, &header.layout),
            Cursor::Test(zone, _, _, at) => at.due(&header.layout, zone),
            Cursor::Fold(fold, at) => at.due(fold, &header.layout),
            Cursor::Rates(call, at) => at.due::<R>(call, &header.layout),
            Cursor::Bury(cpu, at) => at.due::<R>(cpu, &header.layout),
            Cursor::Turn(turn, at) => at.due::<R>(turn, header),
        }
    }

    /// The cursor after a step: none where the step isn't the one that is due.
    pub fn next<R: ThresholdRules>(self, header: &Header, step: Step) -> Option<Cursor>
        requires header { IsHeader header.now }
        requires within { IsWithin header.now.layout self }
        requires ready { IsReady self }
        ensures goes { (base : State) (p : ℕ) (h : History) →
            IfSome result (λ later. GoesOn (cursor_at header.now base p R.pressure R.normal h self) step
            (cursor_at header.now base p R.pressure R.normal (after p (step ∷ []) h) later)) }
        ensures stops { (base : State) (p : ℕ) (h : History) → IsNone result →
            Stops (cursor_at header.now base p R.pressure R.normal h self) step }
        ensures kind { IfSome result (λ later. may_ask later ≡ may_ask self) }
        ensures within { IfSome result (λ later. IsWithin header.now.layout later) }
    {
        match self {
            Cursor::Change(change, at) => match at.next(&change, &header.layout, step) {
                Some(later) => Some(Cursor::Change(change, later)),
                None => None,
            },
            Cursor::Value(counter, at) => match at.next_value(counter, step) {
                Some(later) => Some(Cursor::Value(counter, later)),
                None => None,
            },
            Cursor::System(item, at) => match at.next_system(item, step) {
                Some(later) => Some(Cursor::System(item, later)),
                None => None,
            },
            Cursor::Snapshot(counter, at) => match at.next(counter, &header.layout, step) {
                Some(later) => Some(Cursor::Snapshot(counter, later)),
                None => None,
            },
            Cursor::Test(zone, mark, most, at) => match at.next(&header.layout, zone, step) {
                Some(later) => Some(Cursor::Test(zone, mark, most, later)),
                None => None,
            },
            Cursor::Fold(fold, at) => match at.next(fold, &header.layout, step) {
                Some(later) => Some(Cursor::Fold(fold, later)),
                None => None,
            },
            Cursor::Rates(call, at) => match at.next::<R>(call, &header.layout, step) {
                Some(later) => Some(Cursor::Rates(call, later)),
                None => None,
            },
            Cursor::Bury(cpu, at) => match at.next::<R>(cpu, &header.layout, step) {
                Some(later) => Some(Cursor::Bury(cpu, later)),
                None => None,
            },
            Cursor::Turn(turn, at) => match at.next::<R>(turn, header, step) {
                Some(later) => Some(Cursor::Turn(turn, later)),
                None => None,
            },
        }
    }
}

/// The cursor at the beginning of a call that gives thresholds, which a pass makes that owns no CPU.
fn begin_rating(call: RatingCall, owner: Option<CpuId>) -> Option<Cursor>
    ensures known { is_some result ≡ owns_none owner }
    ensures begins { IfSome result (λ cursor. (online : OnlineCpus) × (cursor ≡ Rates call (States online 0))) }
{
    match owner {
        Some(_) => None,
        None => Some(Cursor::Rates(call, RatingPosition::States(OnlineCpus::none(), 0))),
    }
}

/// The cursor at the beginning of a burial, which a pass makes that owns no CPU.
fn begin_burial(cpu: CpuId, owner: Option<CpuId>) -> Option<Cursor>
    ensures known { is_some result ≡ owns_none owner }
    ensures begins { IfSome result (λ cursor. (taken : Taken) × (taken.groups ≡ 0)
        × ((i : ℕ) → total_at taken.totals i ≡ pos 0) × (cursor ≡ Bury cpu (Folds (Places taken 0)))) }
{
    match owner {
        Some(_) => None,
        None => Some(Cursor::Bury(
            cpu,
            BurialPosition::Folds(FoldPosition::Places(Taken::nothing(), 0)),
        )),
    }
}

/// The cursor at the beginning of a turn of kswapd, which a pass makes that owns no CPU.
fn begin_turn(turn: Turn, owner: Option<CpuId>) -> Option<Cursor>
    ensures known { is_some result ≡ owns_none owner }
    ensures begins { IfSome result
        (λ cursor. (online : OnlineCpus) × (cursor ≡ variant.Turn turn (Presses (States online 0)))) }
{
    match owner {
        Some(_) => None,
        None => Some(Cursor::Turn(
            turn,
            TurnPosition::Presses(RatingPosition::States(OnlineCpus::none(), 0)),
        )),
    }
}

/// Whether a pass that owns a CPU, or none, owns this one.
fn owns_cpu(owner: Option<CpuId>, cpu: CpuId) -> bool
    ensures { result ≡ owns_cpu owner cpu }
{
    match owner {
        Some(own) => own.number == cpu.number,
        None => false,
    }
}
