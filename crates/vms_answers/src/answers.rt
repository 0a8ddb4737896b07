ghost use Rattle.std.specs.Prelude.{◌≡◌};
ghost use Rattle.vms_answers.specs.Answers.{event_told as told_by_events, page_told as told_by_pages};
ghost use Rattle.vms_answers.specs.Answers.{pcpu_told as told_by_pcpu};
ghost use Rattle.vms_answers.specs.declared.answers.Answer.TheVariants.{Balanced};
ghost use Rattle.vms_answers.specs.ToldAnswers.{IsKeepableAnswer, balanced_by, answer_of_kept};
ghost use Rattle.vms_world.specs.Common.{Yes};

use vms_base::PlaceId;
use vms_calls::{Balance, OrderVerdict, PageAnswer, Verdict};
use vms_event_core::EventAnswer;
use vms_pcpu_core::{Compare, PcpuAnswer};

/// What a line answers.
#[derive(Clone, Copy, Debug, PartialEq, Eq)]
pub enum Answer {
    /// Whether a zone has free pages enough.
    Tested(Verdict),
    /// A counter in pages, as a reader sees it.
    Value(u64),
    /// A counter in pages with all differentials.
    Snapshot(u64),
    /// A system-wide value in pages.
    System(u64),
    /// What the online CPUs have counted of an event.
    Events(u64),
    /// The shared part of a percpu counter.
    Count(i64),
    /// The sum of a percpu counter over all CPUs.
    Total(i64),
    /// How a percpu counter compares with a number.
    Compared(Compare),
    /// Whether an amount was added to a percpu counter within its limit.
    Limited(bool),
    /// Whether a node is balanced.
    Balanced(Balance),
}

/// What a call on page counters answers to the line that makes it, if that asks something.
#[inline]
pub fn page_told(answer: PageAnswer) -> Option<Answer>
    ensures { result ≡ told_by_pages answer }
{
    match answer {
        PageAnswer::Done => None,
        PageAnswer::Tested(verdict) => Some(Answer::Tested(verdict)),
        PageAnswer::Value(pages) => Some(Answer::Value(pages)),
        PageAnswer::Snapshot(pages) => Some(Answer::Snapshot(pages)),
        PageAnswer::System(pages) => Some(Answer::System(pages)),
        PageAnswer::Balanced(balance) => Some(Answer::Balanced(balance)),
    }
}

/// What a call on event counters answers to the line that makes it, if that asks something.
#[inline]
pub fn event_told(answer: EventAnswer) -> Option<Answer>
    ensures { result ≡ told_by_events answer }
{
    match answer {
        EventAnswer::Done => None,
        EventAnswer::Total(sum) => Some(Answer::Events(sum)),
    }
}

/// What a call on percpu counters answers to the line that makes it, if that asks something.
#[inline]
pub fn pcpu_told(answer: PcpuAnswer) -> Option<Answer>
    ensures { result ≡ told_by_pcpu answer }
{
    match answer {
        PcpuAnswer::Done => None,
        PcpuAnswer::Limited(made) => Some(Answer::Limited(made)),
        PcpuAnswer::Compared(compare) => Some(Answer::Compared(compare)),
        PcpuAnswer::Total(sum) => Some(Answer::Total(sum)),
        PcpuAnswer::Count(count) => Some(Answer::Count(count)),
    }
}

/// The answer of a line, with the number of the line in the trace, counted from 1. It takes 16 bytes, where a number
/// beside an `Answer` takes 48: a phase keeps many. Where fields have no names, the number of the line is the first.
#[derive(Clone, Copy, Debug, PartialEq, Eq)]
pub enum NumberedAnswer {
    /// Whether a zone has free pages enough, whether no snapshot of them was made, and how many there are.
    Tested {
        yes: bool,
        fast: bool,
        number: u32,
        free: u64,
    },
    /// A counter in pages, as a reader sees it.
    Value(u32, u64),
    /// A counter in pages with all differentials.
    Snapshot(u32, u64),
    /// A system-wide value in pages.
    System(u32, u64),
    /// What the online CPUs have counted of an event.
    Events(u32, u64),
    /// The shared part of a percpu counter.
    Count(u32, i64),
    /// The sum of a percpu counter over all CPUs.
    Total(u32, i64),
    /// How a percpu counter compares with a number.
    Compared(u32, Compare),
    /// Whether an amount was added to a percpu counter within its limit.
    Limited(u32, bool),
    /// A node is balanced by this zone, whose test made no snapshot: the order of the free block that was found, if one
    /// was looked for, and the free pages.
    BalancedFast {
        zone: u8,
        area: Option<u8>,
        number: u32,
        free: u64,
    },
    /// The same where the test made a snapshot of the free pages.
    BalancedBySnapshot {
        zone: u8,
        area: Option<u8>,
        number: u32,
        free: u64,
    },
    /// No zone of a node passed.
    Unbalanced(u32),
}

const _: () = prove!(size_of::<NumberedAnswer>() == 16);

impl NumberedAnswer {
    ghost use Rattle.std.specs.Prelude.{◌≡◌};
    ghost use Rattle.vms_answers.specs.ToldAnswers.{IsKeepableAnswer, answer_of_kept};

    /// Keeps the answer of the line of this number. A zone that passed has a number of at most 8 bits, and so has the
    /// order of its free block.
    #[inline]
    pub fn of(number: u32, answer: Answer) -> NumberedAnswer
        requires { IsKeepableAnswer answer }
        ensures { answer_of_kept result ≡ record { number = number; answer = answer } }
    {
        match answer {
            Answer::Tested(verdict) => NumberedAnswer::Tested {
                yes: verdict.yes,
                fast: verdict.fast,
                number,
                free: verdict.free,
            },
            Answer::Value(pages) => NumberedAnswer::Value(number, pages),
            Answer::Snapshot(pages) => NumberedAnswer::Snapshot(number, pages),
            Answer::System(pages) => NumberedAnswer::System(number, pages),
            Answer::Events(sum) => NumberedAnswer::Events(number, sum),
            Answer::Count(count) => NumberedAnswer::Count(number, count),
            Answer::Total(sum) => NumberedAnswer::Total(number, sum),
            Answer::Compared(compare) => NumberedAnswer::Compared(number, compare),
            Answer::Limited(made) => NumberedAnswer::Limited(number, made),
            Answer::Balanced(Balance::Yes(zone, verdict)) => balanced(number, zone, verdict),
            Answer::Balanced(Balance::No) => NumberedAnswer::Unbalanced(number),
        }
    }

    /// The number of the line.
    #[inline]
    pub fn number(&self) -> u32
        ensures { result ≡ (answer_of_kept self.now).number }
    {
        match *self {
            NumberedAnswer::Tested { number, .. } => number,
            NumberedAnswer::Value(number, _) => number,
            NumberedAnswer::Snapshot(number, _) => number,
            NumberedAnswer::System(number, _) => number,
            NumberedAnswer::Events(number, _) => number,
            NumberedAnswer::Count(number, _) => number,
            NumberedAnswer::Total(number, _) => number,
            NumberedAnswer::Compared(number, _) => number,
            NumberedAnswer::Limited(number, _) => number,
            NumberedAnswer::BalancedFast { number, .. } => number,
            NumberedAnswer::BalancedBySnapshot { number, .. } => number,
            NumberedAnswer::Unbalanced(number) => number,
        }
    }

    /// What the line answers.
    #[inline]
    pub fn answer(&self) -> Answer
        ensures { result ≡ (answer_of_kept self.now).answer }
    {
        match *self {
            NumberedAnswer::Tested {
                yes,
                fast,
                free,
                ..
            } => Answer::Tested(Verdict { free, yes, fast }),
            NumberedAnswer::Value(_, pages) => Answer::Value(pages),
            NumberedAnswer::Snapshot(_, pages) => Answer::Snapshot(pages),
            NumberedAnswer::System(_, pages) => Answer::System(pages),
            NumberedAnswer::Events(_, sum) => Answer::Events(sum),
            NumberedAnswer::Count(_, count) => Answer::Count(count),
            NumberedAnswer::Total(_, sum) => Answer::Total(sum),
            NumberedAnswer::Compared(_, compare) => Answer::Compared(compare),
            NumberedAnswer::Limited(_, made) => Answer::Limited(made),
            NumberedAnswer::BalancedFast {
                zone,
                area,
                free,
                ..
            } => balance(zone, area, free, true),
            NumberedAnswer::BalancedBySnapshot {
                zone,
                area,
                free,
                ..
            } => balance(zone, area, free, false),
            NumberedAnswer::Unbalanced(_) => Answer::Balanced(Balance::No),
        }
    }
}

/// Keeps the answer that a node is balanced by this zone.
fn balanced(number: u32, zone: PlaceId, verdict: OrderVerdict) -> NumberedAnswer
    requires { IsKeepableAnswer (Balanced (Yes zone verdict)) }
    ensures { answer_of_kept result
        ≡ record { number = number; answer = Balanced (Yes zone verdict) } }
{
    let zone = zone.number as u8;
    let area = match verdict.area {
        Some(order) => Some(order as u8),
        None => None,
    };
    let free = verdict.free;
    if verdict.fast {
        NumberedAnswer::BalancedFast {
            zone,
            area,
            number,
            free,
        }
    } else {
        NumberedAnswer::BalancedBySnapshot {
            zone,
            area,
            number,
            free,
        }
    }
}

/// The answer that a node is balanced by this zone.
fn balance(zone: u8, area: Option<u8>, free: u64, fast: bool) -> Answer
    ensures { result ≡ balanced_by zone area free fast }
{
    let verdict = OrderVerdict {
        free,
        area: match area {
            Some(order) => Some(order as u32),
            None => None,
        },
        yes: true,
        fast,
    };
    let zone = PlaceId {
        number: zone as u32,
    };
    Answer::Balanced(Balance::Yes(zone, verdict))
}
