ghost use Rattle.std.specs.Prelude.{◌≡◌, ℕ, List, All, map};
ghost use Rattle.vms_world.specs.Common.{Header, IsCpu, cpu_at, IsLineOf, Start, start_at_end, line_of, Item, Lane};
ghost use Rattle.vms_world.specs.Common.{TableHistories, left_by};
ghost use Rattle.vms_world.specs.declared.worlds.World.{World};
ghost use Rattle.vms_file_order.specs.Burials.{HasStates};
ghost use Rattle.vms_file_order.specs.LanePasses.{StandOnce};
ghost use Rattle.vms_file_order.specs.MadePhases.{MakeInAnyOrder};
ghost use Rattle.vms_file_order.specs.OpenPhases.{IsOpenPhase, TableStates};

use vms_calls::ThresholdRules;

/// After a phase each CPU is in the state that its lines make of the one before it, whoever made them, and so it is in
/// file order after the lines so far: a burial alone changes the state of a CPU, and each line that buries one has.
pub fn cpu_states_follow_lines<R: ThresholdRules>()
    ensures ended { (header : Header) (w : World) (items : List Item) (hs : TableHistories)
        (start : Start) →
        MakeInAnyOrder header R.pressure R.normal w items hs →
        All (λ item. IsLineOf header (line_of item)) items → HasStates header start w →
        HasStates header (start_at_end start (map line_of items)) (left_by header w items hs) }
    ensures so_far { (header : Header) (w : World) (lanes : List Lane) (items : List Item)
        (hs : TableHistories)
        (now : TableStates) (start : Start) → StandOnce lanes →
        IsOpenPhase header R.pressure R.normal w lanes items hs now →
        All (λ item. IsLineOf header (line_of item)) items → HasStates header start w →
        (c : ℕ) → IsCpu header.layout c →
        cpu_at now.pages c ≡ (start_at_end start (map line_of items)).state c }
{}
