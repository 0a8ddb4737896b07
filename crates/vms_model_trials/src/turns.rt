ghost use Rattle.std.specs.Prelude.{◌≡◌, true, pos, [], ◌∷◌, ◌++◌, codes, Some, None};
ghost use Rattle.vms_calls.specs.Common.{areas_of, areas_from, SetT, one_zone, both_begun, cpu, zone, MayMake};
ghost use Rattle.vms_calls.specs.Common.{header_with, with_area, zone_item, node, one_visit, one_look, one_block};
ghost use Rattle.vms_calls.specs.Common.{read_turn};
ghost use Rattle.vms_calls.specs.declared.answers.Balance.TheVariants.{Yes, No};

/// Of a zone without a mark, with 30 pages between `min` and `low`, the control pass may set the threshold of 20 to 5
/// and not to 31.
pub fn covered_threshold_may_be_set()
    ensures covered { MayMake one_zone 2 both_begun (SetT cpu zone 5 ∷ []) }
    ensures uncovered { MayMake one_zone 2 both_begun (SetT cpu zone 31 ∷ []) → ⊥ }
{}

/// A zone with 190 free pages and a high watermark of 160 is balanced for single pages. For blocks of 8 it is so where
/// one of 16 is free, and for blocks of 64 it isn't, since 127 pages are left beside one.
pub fn turns_are_read()
    ensures single { read_turn (header_with []) node 0 2 (one_visit ++ (one_look ++ one_visit)) ≡
        (Yes zone (record { yes = true; free = 190; fast = true; area = None }), []) }
    ensures no_block { read_turn (header_with []) node 3 2 (one_visit ++ one_look) ≡ (No, []) }
    ensures block { read_turn with_area node 3 2 (one_visit ++ (one_look ++ (one_block ++ one_visit))) ≡
        (Yes zone (record { yes = true; free = 190; fast = true; area = Some 4 }), []) }
    ensures no_room { read_turn with_area node 6 2 (one_visit ++ one_look) ≡ (No, []) }
{}

/// Blocks of 8 pages are looked for before those of 32, though the item of those of 32 is declared first.
pub fn smaller_area_comes_first()
    ensures { areas_from 3 (areas_of (zone_item (codes "area5") ∷ zone_item (codes "area3") ∷ [])) ≡
        record { order = 3; position = 9 } ∷ record { order = 5; position = 8 } ∷ [] }
{}
