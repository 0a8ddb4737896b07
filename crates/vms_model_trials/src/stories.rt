use vms_base::{CounterId, CpuId, CpuState, GroupId, ItemId, Mode};

/// A step of a story. It names the free pages of the first zone where it names no counter, and a group's list by its
/// first entry, the other seven being 0.
#[derive(Clone, Copy)]
pub(crate) enum Act {
    Begin(u32, Option<CpuId>),
    End(u32),
    LoadT(u32, u32),
    LoadD(CpuId, i8),
    Put(i8, u32, i64, Mode),
    Take(CpuId, GroupId, i8),
    AddG(CounterId, i64),
    AddS(ItemId, i64),
    LoadG(i64),
    LoadM(u64, u32),
    LoadO(CpuId, CpuState),
    LoadA(CpuId, Option<u32>),
    SetT(CpuId, u32),
    SetM(u64),
    SetO(CpuId),
    SetA(u32),
}

/// A step with the number of its pass.
#[derive(Clone, Copy)]
pub(crate) struct Line {
    pub caller: u32,
    pub act: Act,
}

pub(crate) const FREE: CounterId = CounterId { number: 0 };

/// The free pages of the second zone.
pub(crate) const FREE_OF_SECOND: CounterId = CounterId { number: 8 };

pub(crate) const FREE_ITEM: ItemId = ItemId { number: 0 };

const GROUP: GroupId = GroupId { number: 0 };

const SECOND_GROUP: GroupId = GroupId { number: 1 };

const LAST_GROUP: GroupId = GroupId { number: 2 };

const CPU_0: CpuId = CpuId { number: 0 };

const CPU_1: CpuId = CpuId { number: 1 };

const CPU_2: CpuId = CpuId { number: 2 };

const CPU_3: CpuId = CpuId { number: 3 };

/// A line of the main pass.
macro_rules! main {
    ($act:expr) => {
        Line { caller: 0, act: $act }
    };
}

/// Lines of the passes 1 to 4.
macro_rules! first {
    ($act:expr) => {
        Line { caller: 1, act: $act }
    };
}

macro_rules! second {
    ($act:expr) => {
        Line { caller: 2, act: $act }
    };
}

macro_rules! third {
    ($act:expr) => {
        Line { caller: 3, act: $act }
    };
}

macro_rules! fourth {
    ($act:expr) => {
        Line { caller: 4, act: $act }
    };
}

/// A line of pass 5.
macro_rules! control {
    ($act:expr) => {
        Line { caller: 5, act: $act }
    };
}

/// A change of the free pages: the differential found, the threshold loaded, and the pages.
macro_rules! put {
    ($found:expr, $t:expr, $delta:expr) => {
        Act::Put($found, $t, $delta, Mode::Mod)
    };
}

macro_rules! online {
    ($cpu:expr) => {
        Act::LoadO($cpu, CpuState::Online)
    };
}

/// Four CPUs are online, the thresholds are 125, and the mark is 650. Nothing is hidden.
pub(crate) const FOUR_ONLINE: [Line; 126] = [
    main!(Act::Begin(1, Some(CPU_0))),
    main!(Act::Begin(2, Some(CPU_1))),
    main!(Act::Begin(3, Some(CPU_2))),
    main!(Act::Begin(4, Some(CPU_3))),
    main!(Act::Begin(5, None)),
    // After 5 lines. Each CPU hides 125 pages.
    first!(Act::LoadT(125, 0)),
    first!(Act::LoadD(CPU_0, 0)),
    first!(put!(0, 125, 125)),
    second!(Act::LoadT(125, 0)),
    second!(Act::LoadD(CPU_1, 0)),
    second!(put!(0, 125, 125)),
    third!(Act::LoadT(125, 0)),
    third!(Act::LoadD(CPU_2, 0)),
    third!(put!(0, 125, 125)),
    fourth!(Act::LoadT(125, 0)),
    fourth!(Act::LoadD(CPU_3, 0)),
    fourth!(put!(0, 125, 125)),
    // After 17 lines. A test by the value.
    control!(Act::LoadM(650, 0)),
    control!(Act::LoadG(1000)),
    control!(Act::LoadM(650, 0)),
    // After 20 lines. 125 pages are carried while CPU 0 hides as many again.
    control!(Act::Take(CPU_0, GROUP, 125)),
    first!(Act::LoadD(CPU_0, 0)),
    first!(put!(0, 125, 125)),
    control!(Act::AddG(FREE, 125)),
    control!(Act::AddS(FREE_ITEM, 125)),
    // After 25 lines. A snapshot, with a change of 250 pages before each look.
    control!(Act::LoadG(1125)),
    first!(put!(125, 125, -250)),
    control!(online!(CPU_0)),
    control!(Act::LoadD(CPU_0, -125)),
    second!(put!(125, 125, -250)),
    control!(online!(CPU_1)),
    control!(Act::LoadD(CPU_1, -125)),
    third!(put!(125, 125, -250)),
    control!(online!(CPU_2)),
    control!(Act::LoadD(CPU_2, -125)),
    fourth!(put!(125, 125, -250)),
    control!(online!(CPU_3)),
    control!(Act::LoadD(CPU_3, -125)),
    // After 38 lines. A test by the value, and a snapshot beside which nobody changes anything.
    control!(Act::LoadM(650, 0)),
    control!(Act::LoadG(1125)),
    control!(Act::LoadM(650, 0)),
    control!(Act::LoadG(1125)),
    control!(online!(CPU_0)),
    control!(Act::LoadD(CPU_0, -125)),
    control!(online!(CPU_1)),
    control!(Act::LoadD(CPU_1, -125)),
    control!(online!(CPU_2)),
    control!(Act::LoadD(CPU_2, -125)),
    control!(online!(CPU_3)),
    control!(Act::LoadD(CPU_3, -125)),
    // After 50 lines. A page less is past the threshold, and the change goes half a threshold further.
    first!(Act::Put(-125, 125, -1, Mode::Dec)),
    first!(Act::AddG(FREE, -188)),
    first!(Act::AddS(FREE_ITEM, -188)),
    // After 53 lines. The thresholds for pressure, which each CPU acknowledges and then uses up.
    control!(Act::SetT(CPU_0, 6)),
    control!(Act::SetT(CPU_1, 6)),
    control!(Act::SetT(CPU_2, 6)),
    control!(Act::SetT(CPU_3, 6)),
    first!(Act::LoadT(6, 1)),
    first!(Act::Take(CPU_0, GROUP, 62)),
    first!(Act::AddG(FREE, 62)),
    first!(Act::AddS(FREE_ITEM, 62)),
    first!(Act::SetA(1)),
    second!(Act::LoadT(6, 1)),
    second!(Act::Take(CPU_1, GROUP, -125)),
    second!(Act::AddG(FREE, -125)),
    second!(Act::AddS(FREE_ITEM, -125)),
    second!(Act::SetA(1)),
    third!(Act::LoadT(6, 1)),
    third!(Act::Take(CPU_2, GROUP, -125)),
    third!(Act::AddG(FREE, -125)),
    third!(Act::AddS(FREE_ITEM, -125)),
    third!(Act::SetA(1)),
    fourth!(Act::LoadT(6, 1)),
    fourth!(Act::Take(CPU_3, GROUP, -125)),
    fourth!(Act::AddG(FREE, -125)),
    fourth!(Act::AddS(FREE_ITEM, -125)),
    fourth!(Act::SetA(1)),
    first!(put!(0, 6, 6)),
    second!(put!(0, 6, 6)),
    third!(put!(0, 6, 6)),
    fourth!(put!(0, 6, 6)),
    // After 81 lines. A visit by the rule for pressure, and then no mark.
    control!(Act::LoadA(CPU_0, Some(1))),
    control!(Act::LoadA(CPU_1, Some(1))),
    control!(Act::LoadA(CPU_2, Some(1))),
    control!(Act::LoadA(CPU_3, Some(1))),
    control!(Act::LoadM(650, 0)),
    control!(Act::SetM(270)),
    control!(Act::SetT(CPU_0, 6)),
    control!(Act::SetT(CPU_1, 6)),
    control!(Act::SetT(CPU_2, 6)),
    control!(Act::SetT(CPU_3, 6)),
    control!(Act::SetM(0)),
    // After 92 lines. A test by the value, and one after each CPU took 12 pages.
    control!(Act::LoadM(0, 2)),
    control!(Act::LoadG(624)),
    control!(Act::LoadM(0, 2)),
    first!(put!(6, 6, -12)),
    second!(put!(6, 6, -12)),
    third!(put!(6, 6, -12)),
    fourth!(put!(6, 6, -12)),
    control!(Act::LoadM(0, 2)),
    control!(Act::LoadG(624)),
    control!(Act::LoadM(0, 2)),
    // After 102 lines. CPU 0 takes 514 pages. All give some back, and a test of `low` fails.
    first!(put!(-6, 6, -514)),
    first!(Act::AddG(FREE, -520)),
    first!(Act::AddS(FREE_ITEM, -520)),
    first!(put!(0, 6, 6)),
    second!(put!(-6, 6, 12)),
    third!(put!(-6, 6, 12)),
    fourth!(put!(-6, 6, 12)),
    control!(Act::LoadM(0, 2)),
    control!(Act::LoadG(104)),
    control!(Act::LoadM(0, 2)),
    // After 112 lines. 6 pages less are carried while CPU 0 hides as many again.
    first!(put!(6, 6, -12)),
    second!(put!(6, 6, -12)),
    third!(put!(6, 6, -12)),
    fourth!(put!(6, 6, -12)),
    control!(Act::Take(CPU_0, GROUP, -6)),
    first!(Act::LoadD(CPU_0, 0)),
    first!(put!(0, 6, -6)),
    control!(Act::AddG(FREE, -6)),
    control!(Act::AddS(FREE_ITEM, -6)),
    // After 121 lines. All passes end.
    main!(Act::End(1)),
    main!(Act::End(2)),
    main!(Act::End(3)),
    main!(Act::End(4)),
    main!(Act::End(5)),
];

/// CPU 3 is dead, the thresholds are 20, and the mark is 230. Each CPU hides 20 pages.
pub(crate) const ONE_DEAD: [Line; 15] = [
    main!(Act::Begin(1, None)),
    // After 1 lines. A snapshot.
    first!(Act::LoadG(1000)),
    first!(online!(CPU_0)),
    first!(Act::LoadD(CPU_0, 20)),
    first!(online!(CPU_1)),
    first!(Act::LoadD(CPU_1, 20)),
    first!(online!(CPU_2)),
    first!(Act::LoadD(CPU_2, 20)),
    first!(Act::LoadO(CPU_3, CpuState::Dead)),
    // After 9 lines. The dead CPU is buried, and the mark comes down.
    first!(Act::Take(CPU_3, GROUP, 20)),
    first!(Act::AddG(FREE, 20)),
    first!(Act::AddS(FREE_ITEM, 20)),
    first!(Act::SetO(CPU_3)),
    first!(Act::SetM(210)),
    main!(Act::End(1)),
];

/// Two zones, where each CPU hides 125 pages of each. The thresholds are 125 and the marks 650.
pub(crate) const TWO_ZONES: [Line; 8] = [
    main!(Act::Begin(1, None)),
    // After 1 lines. A fold of CPU 0.
    first!(Act::Take(CPU_0, GROUP, 125)),
    first!(Act::AddG(FREE, 125)),
    first!(Act::Take(CPU_0, SECOND_GROUP, 125)),
    first!(Act::AddG(FREE_OF_SECOND, 125)),
    first!(Act::Take(CPU_0, LAST_GROUP, 0)),
    first!(Act::AddS(FREE_ITEM, 250)),
    main!(Act::End(1)),
];

/// Two pages are between `min` and `low`, fewer than CPUs. The thresholds are 1 and the mark is 154.
pub(crate) const NARROW_GAP: [Line; 24] = [
    main!(Act::Begin(1, Some(CPU_0))),
    main!(Act::Begin(2, Some(CPU_1))),
    main!(Act::Begin(3, Some(CPU_2))),
    main!(Act::Begin(4, Some(CPU_3))),
    // After 4 lines. Each CPU acknowledges its threshold and uses it up.
    first!(Act::LoadT(1, 0)),
    first!(Act::Take(CPU_0, GROUP, 0)),
    first!(Act::SetA(0)),
    first!(put!(0, 1, 1)),
    second!(Act::LoadT(1, 0)),
    second!(Act::Take(CPU_1, GROUP, 0)),
    second!(Act::SetA(0)),
    second!(put!(0, 1, 1)),
    third!(Act::LoadT(1, 0)),
    third!(Act::Take(CPU_2, GROUP, 0)),
    third!(Act::SetA(0)),
    third!(put!(0, 1, 1)),
    fourth!(Act::LoadT(1, 0)),
    fourth!(Act::Take(CPU_3, GROUP, 0)),
    fourth!(Act::SetA(0)),
    fourth!(put!(0, 1, 1)),
    main!(Act::End(1)),
    main!(Act::End(2)),
    main!(Act::End(3)),
    main!(Act::End(4)),
];
