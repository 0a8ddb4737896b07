ghost use Rattle.std.specs.Prelude.{◌≡◌, ℕ, ◌+◌, ◌-◌, ◌<◌, ◌≤◌, false, true, length, take, drop, slice_index_or};
ghost use Rattle.std.specs.Prelude.{IfSome, IsNone};
ghost use Rattle.vms_calls.specs.Common.{Facts, History, IsLayout, Shape, is_online as tells_online, largest_on};
ghost use Rattle.vms_cursors.specs.Cursors.{IsSame};
ghost use Rattle.vms_cursors.specs.OnlineCpus.{is_flagged};
ghost use Rattle.vms_cursors.specs.RatingCalls.{IsRatingWithin, visits, visited_from};
ghost use Rattle.vms_cursors.specs.RatingClauses.{Answers, IsAsked, RatingDue, RatingEnded, RatingGoes, RatingSame};
ghost use Rattle.vms_cursors.specs.RatingClauses.{RatingStops};
ghost use Rattle.vms_cursors.specs.Ratings.{IsAnswered, IsPositionWithin, IsSettled, rating_at};
ghost use Rattle.vms_cursors.specs.declared.rating_calls.RatingCall.{RatingCall};
ghost use Rattle.vms_cursors.specs.declared.rating_positions.RatingPosition.TheVariants.{Asks, Mark, Nodes, Numbers};
ghost use Rattle.vms_cursors.specs.declared.rating_positions.RatingPosition.TheVariants.{States, Thresholds, Zones};

use crate::readings::{mark_in, number_told_in, set_mark_in, set_threshold_in, state_in};
use crate::{Asked, OnlineCpus, Rated, RatingCall};
use vms_base::{CpuId, CpuState, Layout, PlaceId};
use vms_calls::{Chosen, ThresholdRules};
use vms_core::Step;
use vms_plans::DueStep;

/// Where a call that gives thresholds stands. CPUs, zones and nodes come in order.
#[derive(Clone, Copy, Debug, PartialEq, Eq)]
pub enum RatingPosition {
    /// The states of the CPUs before this one are loaded.
    States(OnlineCpus, u32),
    /// The zones before this one are visited.
    Zones(Rated, u32),
    /// The zone is visited, and what the online CPUs before this one acknowledged last of it is loaded.
    Numbers(Rated, u32, u32),
    /// The mark of the zone is loaded, and the rules are asked for its thresholds.
    Asks(Rated, u32, u64),
    /// The zone is to get this threshold, in pages, and this mark before it.
    Mark(Rated, u32, u32, u64),
    /// The online CPUs before this one have got this threshold of the zone, in pages.
    Thresholds(Rated, u32, u32, u32),
    /// The nodes before this one have got their thresholds, and of it the online CPUs before this one.
    Nodes(Rated, u32, u32),
}

impl RatingPosition {
    /// The step that is due: none where the call has ended.
    pub fn due<R: ThresholdRules>(self, call: RatingCall, layout: &Layout) -> Option<DueStep>
        requires layout { IsLayout layout.now }
        requires call { IsRatingWithin layout.now call }
        requires within { IsPositionWithin layout.now self }
        requires answered { IsAnswered self }
        ensures due { IfSome result (λ due. RatingDue layout.now R.pressure R.normal call self due) }
        ensures ended { IsNone result → RatingEnded layout.now R.pressure R.normal call self }
    {
        settled_due::<R>(self.settled::<R>(call, layout), call, layout)
    }

    /// The position after a step: none where the step isn't the one that is due.
    pub fn next<R: ThresholdRules>(
        self,
        call: RatingCall,
        layout: &Layout,
        step: Step,
    ) -> Option<RatingPosition>
        requires layout { IsLayout layout.now }
        requires call { IsRatingWithin layout.now call }
        requires within { IsPositionWithin layout.now self }
        requires answered { IsAnswered self }
        ensures goes { IfSome result
            (λ later. RatingGoes layout.now R.pressure R.normal call self step later) }
        ensures stops { IsNone result → RatingStops layout.now R.pressure R.normal call self step }
        ensures within { IfSome result (λ later. IsPositionWithin layout.now later) }
    {
        settled_next::<R>(self.settled::<R>(call, layout), call, layout, step)
    }

    /// What the rules are asked for: none where no rule is asked.
    pub fn asks(self, layout: &Layout) -> Option<Asked>
        requires layout { IsLayout layout.now }
        ensures asked { IfSome result (λ asked. IsAsked layout.now self asked) }
        ensures none { IsNone result → IsAnswered self }
    {
        match self {
            RatingPosition::Asks(seen, zone, mark) => Some(Asked {
                zone: PlaceId { number: zone },
                mark,
                online: seen.online.count(layout.cpus()),
            }),
            _ => None,
        }
    }

    /// The position after the rules chose these thresholds, with the mark that covers the zone then: the same position
    /// where no rule is asked.
    pub fn answer<R: ThresholdRules>(self, chosen: Chosen, mark: u64) -> RatingPosition
        ensures same { (facts : Facts) (p : ℕ) (call : RatingCall) (h : History) →
            Answers facts p R.pressure R.normal call h self chosen mark →
            IsSame (rating_at facts p R.pressure R.normal call h self)
            (rating_at facts p R.pressure R.normal call h result) }
        ensures answered { IsAnswered result }
        ensures within { (shape : Shape) → IsPositionWithin shape self → IsPositionWithin shape result }
    {
        match self {
            RatingPosition::Asks(seen, zone, found) => {
                answered::<R>(seen, zone, found, chosen, mark)
            }
            RatingPosition::States(_, _) => self,
            RatingPosition::Zones(_, _) => self,
            RatingPosition::Numbers(_, _, _) => self,
            RatingPosition::Mark(_, _, _, _) => self,
            RatingPosition::Thresholds(_, _, _, _) => self,
            RatingPosition::Nodes(_, _, _) => self,
        }
    }

    /// The position of the same plan at which a step is due, or the end.
    fn settled<R: ThresholdRules>(self, call: RatingCall, layout: &Layout) -> RatingPosition
        requires layout { IsLayout layout.now }
        requires call { IsRatingWithin layout.now call }
        requires within { IsPositionWithin layout.now self }
        requires answered { IsAnswered self }
        ensures same { RatingSame layout.now R.pressure R.normal call self result }
        ensures settled { IsSettled layout.now call result }
        ensures within { IsPositionWithin layout.now result }
    {
        match self {
            RatingPosition::States(online, cpu) => settled_state::<R>(online, cpu, call, layout),
            RatingPosition::Zones(seen, zone) => settled_zone::<R>(seen, zone, call, layout),
            RatingPosition::Numbers(seen, zone, cpu) => {
                settled_number::<R>(seen, zone, cpu, call, layout)
            }
            RatingPosition::Asks(_, _, _) | RatingPosition::Mark(_, _, _, _) => self,
            RatingPosition::Thresholds(seen, zone, threshold, cpu) => {
                settled_threshold::<R>(seen, zone, threshold, cpu, call, layout)
            }
            RatingPosition::Nodes(seen, node, cpu) => {
                settled_node::<R>(seen, node, cpu, call, layout)
            }
        }
    }
}

/// The position after the rules chose: a mark that stands is not set.
fn answered<R: ThresholdRules>(
    seen: Rated,
    zone: u32,
    found: u64,
    chosen: Chosen,
    mark: u64,
) -> RatingPosition
    ensures same { (facts : Facts) (p : ℕ) (call : RatingCall) (h : History) →
        Answers facts p R.pressure R.normal call h (Asks seen zone found) chosen mark →
        IsSame (rating_at facts p R.pressure R.normal call h (Asks seen zone found))
        (rating_at facts p R.pressure R.normal call h result) }
    ensures answered { IsAnswered result }
    ensures within { (shape : Shape) → IsPositionWithin shape (Asks seen zone found) →
        IsPositionWithin shape result }
{
    if mark == found {
        return RatingPosition::Thresholds(seen, zone, chosen.threshold, 0);
    }
    RatingPosition::Mark(seen, zone, chosen.threshold, mark)
}

fn settled_state<R: ThresholdRules>(
    online: OnlineCpus,
    cpu: u32,
    call: RatingCall,
    layout: &Layout,
) -> RatingPosition
    requires layout { IsLayout layout.now }
    requires call { IsRatingWithin layout.now call }
    requires within { IsPositionWithin layout.now (States online cpu) }
    ensures same { RatingSame layout.now R.pressure R.normal call (States online cpu) result }
    ensures settled { IsSettled layout.now call result }
    ensures within { IsPositionWithin layout.now result }
{
    let cpus = layout.cpus();
    if cpu < cpus {
        return RatingPosition::States(online, cpu);
    }
    settled_zone::<R>(Rated::begin(online), 0, call, layout)
}

fn settled_zone<R: ThresholdRules>(
    seen: Rated,
    from: u32,
    call: RatingCall,
    layout: &Layout,
) -> RatingPosition
    requires layout { IsLayout layout.now }
    requires call { IsRatingWithin layout.now call }
    requires within { IsPositionWithin layout.now (Zones seen from) }
    ensures same { RatingSame layout.now R.pressure R.normal call (Zones seen from) result }
    ensures settled { IsSettled layout.now call result }
    ensures within { IsPositionWithin layout.now result }
{
    let zone = next_zone(call, layout, from);
    let zones = layout.zones().len() as u32;
    if zone < zones {
        return settled_number::<R>(seen, zone, 0, call, layout);
    }
    settled_end::<R>(seen, zone, call, layout)
}

fn settled_end<R: ThresholdRules>(
    seen: Rated,
    zone: u32,
    call: RatingCall,
    layout: &Layout,
) -> RatingPosition
    requires layout { IsLayout layout.now }
    requires zone { zone ≡ length layout.now.zones }
    ensures same { RatingSame layout.now R.pressure R.normal call (Zones seen zone) result }
    ensures settled { IsSettled layout.now call result }
    ensures within { IsPositionWithin layout.now result }
{
    match call {
        RatingCall::Refresh => settled_node::<R>(seen, 0, 0, call, layout),
        RatingCall::Pressure(_) => RatingPosition::Zones(seen, zone),
        RatingCall::Normal(_) => RatingPosition::Zones(seen, zone),
    }
}

/// The first zone from this one on that the call visits: the number of zones where there is none.
fn next_zone(call: RatingCall, layout: &Layout, from: u32) -> u32
    requires layout { IsLayout layout.now }
    requires call { IsRatingWithin layout.now call }
    requires from { from ≤ length layout.now.zones }
    ensures same { visited_from layout.now call from (length layout.now.zones - from)
        ≡ visited_from layout.now call result (length layout.now.zones - result) }
    ensures some { result < length layout.now.zones → visits layout.now call result ≡ true }
    ensures none { (g : ℕ) → from ≤ g → g < result → visits layout.now call g ≡ false }
    ensures least { from ≤ result }
    ensures most { result ≤ length layout.now.zones }
{
    for zone in from..layout.zones().len() as u32 {
        if call.visits(layout, zone) {
            return zone;
        }
    }
    layout.zones().len() as u32
}

fn settled_number<R: ThresholdRules>(
    seen: Rated,
    zone: u32,
    from: u32,
    call: RatingCall,
    layout: &Layout,
) -> RatingPosition
    requires layout { IsLayout layout.now }
    requires within { IsPositionWithin layout.now (Numbers seen zone from) }
    ensures same { RatingSame layout.now R.pressure R.normal call (Numbers seen zone from) result }
    ensures settled { IsSettled layout.now call result }
    ensures within { IsPositionWithin layout.now result }
{
    let cpu = seen.online.next(from, layout.cpus());
    RatingPosition::Numbers(seen, zone, cpu)
}

fn settled_threshold<R: ThresholdRules>(
    seen: Rated,
    zone: u32,
    threshold: u32,
    from: u32,
    call: RatingCall,
    layout: &Layout,
) -> RatingPosition
    requires layout { IsLayout layout.now }
    requires call { IsRatingWithin layout.now call }
    requires within { IsPositionWithin layout.now (Thresholds seen zone threshold from) }
    ensures same { RatingSame layout.now R.pressure R.normal call (Thresholds seen zone threshold from) result }
    ensures settled { IsSettled layout.now call result }
    ensures within { IsPositionWithin layout.now result }
{
    let cpus = layout.cpus();
    let cpu = seen.online.next(from, cpus);
    if cpu < cpus {
        return RatingPosition::Thresholds(seen, zone, threshold, cpu);
    }
    settled_zone::<R>(seen.with(zone, threshold), zone + 1, call, layout)
}

fn settled_node<R: ThresholdRules>(
    seen: Rated,
    node: u32,
    from: u32,
    call: RatingCall,
    layout: &Layout,
) -> RatingPosition
    requires layout { IsLayout layout.now }
    requires within { IsPositionWithin layout.now (Nodes seen node from) }
    ensures same { RatingSame layout.now R.pressure R.normal call (Nodes seen node from) result }
    ensures settled { IsSettled layout.now call result }
    ensures within { IsPositionWithin layout.now result }
{
    let nodes = layout.nodes().len() as u32;
    let cpus = layout.cpus();
    let cpu = seen.online.next(from, cpus);
    if cpu < cpus {
        return RatingPosition::Nodes(seen, node, cpu);
    }
    if node >= nodes {
        return RatingPosition::Nodes(seen, node, cpu);
    }
    let first = seen.online.next(0, cpus);
    if first < cpus {
        return RatingPosition::Nodes(seen, node + 1, first);
    }
    RatingPosition::Nodes(seen, nodes, 0)
}

/// The step that is due at a position that is settled.
fn settled_due<R: ThresholdRules>(
    position: RatingPosition,
    call: RatingCall,
    layout: &Layout,
) -> Option<DueStep>
    requires layout { IsLayout layout.now }
    requires settled { IsSettled layout.now call position }
    requires within { IsPositionWithin layout.now position }
    ensures due { IfSome result (λ due. RatingDue layout.now R.pressure R.normal call position due) }
    ensures ended { IsNone result → RatingEnded layout.now R.pressure R.normal call position }
{
    match position {
        RatingPosition::States(_, cpu) => Some(DueStep::LoadsState(CpuId { number: cpu })),
        RatingPosition::Numbers(seen, zone, cpu) => {
            Some(due_number::<R>(&seen, zone, cpu, call, layout))
        }
        RatingPosition::Mark(_, zone, _, mark) => Some(DueStep::Makes(Step::SetM(
            PlaceId { number: zone },
            mark,
        ))),
        RatingPosition::Thresholds(_, zone, threshold, cpu) => Some(DueStep::Makes(Step::SetT(
            CpuId { number: cpu },
            PlaceId { number: zone },
            threshold,
        ))),
        RatingPosition::Nodes(seen, node, cpu) => due_node::<R>(&seen, node, cpu, call, layout),
        RatingPosition::Zones(_, _) => None,
        RatingPosition::Asks(_, _, _) => None,
    }
}

fn due_number<R: ThresholdRules>(
    seen: &Rated,
    zone: u32,
    cpu: u32,
    call: RatingCall,
    layout: &Layout,
) -> DueStep
    requires settled { IsSettled layout.now call (Numbers seen.now zone cpu) }
    ensures { RatingDue layout.now R.pressure R.normal call (Numbers seen.now zone cpu) result }
{
    let zone = PlaceId { number: zone };
    if cpu < layout.cpus() {
        return DueStep::LoadsAcknowledged(CpuId { number: cpu }, zone);
    }
    DueStep::LoadsMark(zone)
}

fn due_node<R: ThresholdRules>(
    seen: &Rated,
    node: u32,
    cpu: u32,
    call: RatingCall,
    layout: &Layout,
) -> Option<DueStep>
    requires layout { IsLayout layout.now }
    requires settled { IsSettled layout.now call (Nodes seen.now node cpu) }
    ensures due { IfSome result
        (λ due. RatingDue layout.now R.pressure R.normal call (Nodes seen.now node cpu) due) }
    ensures ended { IsNone result →
        RatingEnded layout.now R.pressure R.normal call (Nodes seen.now node cpu) }
{
    let nodes = layout.nodes().len() as u32;
    if node >= nodes {
        return None;
    }
    Some(DueStep::Makes(Step::SetT(
        CpuId { number: cpu },
        node_place(layout, node),
        node_threshold(seen, layout, node),
    )))
}

/// The place of a node.
fn node_place(layout: &Layout, node: u32) -> PlaceId
    requires layout { IsLayout layout.now }
    requires node { node < length layout.now.nodes }
    ensures { result.number ≡ length layout.now.zones + node }
{
    PlaceId {
        number: layout.zones().len() as u32 + node,
    }
}

/// The largest threshold that zones of a node got, in pages.
fn node_threshold(seen: &Rated, layout: &Layout, node: u32) -> u32
    requires layout { IsLayout layout.now }
    requires node { node < length layout.now.nodes }
    ensures { result ≡ largest_on layout.now (take (length layout.now.zones) seen.now.thresholds)
        (slice_index_or layout.now.nodes node 0) }
{
    let number = layout.nodes()[node as usize];
    let mut largest = 0;
    for zone in 0..layout.zones().len() {
        if layout.zones()[zone].node == number {
            largest = largest.max(seen.thresholds[zone]);
        }
    }
    largest
}

/// The position after a step, from one that is settled.
fn settled_next<R: ThresholdRules>(
    position: RatingPosition,
    call: RatingCall,
    layout: &Layout,
    step: Step,
) -> Option<RatingPosition>
    requires layout { IsLayout layout.now }
    requires settled { IsSettled layout.now call position }
    requires within { IsPositionWithin layout.now position }
    ensures goes { IfSome result
        (λ later. RatingGoes layout.now R.pressure R.normal call position step later) }
    ensures stops { IsNone result → RatingStops layout.now R.pressure R.normal call position step }
    ensures within { IfSome result (λ later. IsPositionWithin layout.now later) }
{
    match position {
        RatingPosition::States(online, cpu) => { after_state::<R>(online, cpu, call, layout, step) }
        RatingPosition::Numbers(seen, zone, cpu) => {
            after_number::<R>(seen, zone, cpu, call, layout, step)
        }
        RatingPosition::Mark(seen, zone, threshold, mark) => {
            after_set_mark::<R>(seen, zone, threshold, mark, call, layout, step)
        }
        RatingPosition::Thresholds(seen, zone, threshold, cpu) => {
            after_threshold::<R>(seen, zone, threshold, cpu, call, layout, step)
        }
        RatingPosition::Nodes(seen, node, cpu) => {
            after_node::<R>(seen, node, cpu, call, layout, step)
        }
        RatingPosition::Zones(_, _) => None,
        RatingPosition::Asks(_, _, _) => None,
    }
}

fn after_set_mark<R: ThresholdRules>(
    seen: Rated,
    zone: u32,
    threshold: u32,
    mark: u64,
    call: RatingCall,
    layout: &Layout,
    step: Step,
) -> Option<RatingPosition>
    requires within { zone < length layout.now.zones }
    ensures goes { IfSome result
        (λ later. RatingGoes layout.now R.pressure R.normal call (Mark seen zone threshold mark) step later) }
    ensures stops { IsNone result →
        RatingStops layout.now R.pressure R.normal call (Mark seen zone threshold mark) step }
    ensures within { IfSome result (λ later. IsPositionWithin layout.now later) }
{
    match set_mark_in(PlaceId { number: zone }, step) {
        Some(set) if set == mark => Some(RatingPosition::Thresholds(seen, zone, threshold, 0)),
        _ => None,
    }
}

fn after_state<R: ThresholdRules>(
    online: OnlineCpus,
    cpu: u32,
    call: RatingCall,
    layout: &Layout,
    step: Step,
) -> Option<RatingPosition>
    requires layout { IsLayout layout.now }
    requires cpu { cpu < layout.now.cpus }
    ensures goes { IfSome result
        (λ later. RatingGoes layout.now R.pressure R.normal call (States online cpu) step later) }
    ensures stops { IsNone result → RatingStops layout.now R.pressure R.normal call (States online cpu) step }
    ensures within { IfSome result (λ later. IsPositionWithin layout.now later) }
{
    match state_in(CpuId { number: cpu }, step) {
        Some(state) => Some(RatingPosition::States(online.with(cpu, is_online(state)), cpu + 1)),
        None => None,
    }
}

fn is_online(state: CpuState) -> bool
    ensures { result ≡ tells_online state }
{
    match state {
        CpuState::Online => true,
        CpuState::Dead | CpuState::Absent => false,
    }
}

fn after_number<R: ThresholdRules>(
    seen: Rated,
    zone: u32,
    cpu: u32,
    call: RatingCall,
    layout: &Layout,
    step: Step,
) -> Option<RatingPosition>
    requires layout { IsLayout layout.now }
    requires within { zone < length layout.now.zones }
    requires settled { IsSettled layout.now call (Numbers seen zone cpu) }
    ensures goes { IfSome result
        (λ later. RatingGoes layout.now R.pressure R.normal call (Numbers seen zone cpu) step later) }
    ensures stops { IsNone result → RatingStops layout.now R.pressure R.normal call (Numbers seen zone cpu) step }
    ensures within { IfSome result (λ later. IsPositionWithin layout.now later) }
{
    let cpus = layout.cpus();
    if cpu >= cpus {
        return after_mark::<R>(seen, zone, cpu, call, layout, step);
    }
    match number_told_in(CpuId { number: cpu }, PlaceId { number: zone }, step) {
        Some(_) => Some(RatingPosition::Numbers(seen, zone, cpu + 1)),
        None => None,
    }
}

fn after_mark<R: ThresholdRules>(
    seen: Rated,
    zone: u32,
    cpu: u32,
    call: RatingCall,
    layout: &Layout,
    step: Step,
) -> Option<RatingPosition>
    requires layout { IsLayout layout.now }
    requires within { zone < length layout.now.zones }
    requires cpu { layout.now.cpus ≤ cpu }
    ensures goes { IfSome result
        (λ later. RatingGoes layout.now R.pressure R.normal call (Numbers seen zone cpu) step later) }
    ensures stops { IsNone result → RatingStops layout.now R.pressure R.normal call (Numbers seen zone cpu) step }
    ensures within { IfSome result (λ later. IsPositionWithin layout.now later) }
{
    match mark_in(PlaceId { number: zone }, step) {
        Some(read) => {
            if call.spares(read.mark) {
                return Some(RatingPosition::Zones(seen.with(zone, 0), zone + 1));
            }
            Some(RatingPosition::Asks(seen, zone, read.mark))
        }
        None => None,
    }
}

fn after_threshold<R: ThresholdRules>(
    seen: Rated,
    zone: u32,
    threshold: u32,
    cpu: u32,
    call: RatingCall,
    layout: &Layout,
    step: Step,
) -> Option<RatingPosition>
    requires layout { IsLayout layout.now }
    requires within { zone < length layout.now.zones }
    requires cpu { cpu < layout.now.cpus }
    requires online { is_flagged seen.online.flags cpu ≡ true }
    ensures goes { IfSome result
        (λ later. RatingGoes layout.now R.pressure R.normal call (Thresholds seen zone threshold cpu) step later) }
    ensures stops { IsNone result →
        RatingStops layout.now R.pressure R.normal call (Thresholds seen zone threshold cpu) step }
    ensures within { IfSome result (λ later. IsPositionWithin layout.now later) }
{
    match set_threshold_in(CpuId { number: cpu }, PlaceId { number: zone }, step) {
        Some(set) if set == threshold => {
            Some(RatingPosition::Thresholds(seen, zone, threshold, cpu + 1))
        }
        _ => None,
    }
}

fn after_node<R: ThresholdRules>(
    seen: Rated,
    node: u32,
    cpu: u32,
    call: RatingCall,
    layout: &Layout,
    step: Step,
) -> Option<RatingPosition>
    requires layout { IsLayout layout.now }
    requires settled { IsSettled layout.now call (Nodes seen node cpu) }
    ensures goes { IfSome result
        (λ later. RatingGoes layout.now R.pressure R.normal call (Nodes seen node cpu) step later) }
    ensures stops { IsNone result → RatingStops layout.now R.pressure R.normal call (Nodes seen node cpu) step }
    ensures within { IfSome result (λ later. IsPositionWithin layout.now later) }
{
    let nodes = layout.nodes().len() as u32;
    if node >= nodes {
        return None;
    }
    let threshold = node_threshold(&seen, layout, node);
    match set_threshold_in(CpuId { number: cpu }, node_place(layout, node), step) {
        Some(set) if set == threshold => Some(RatingPosition::Nodes(seen, node, cpu + 1)),
        _ => None,
    }
}
