ghost use Rattle.std.specs.Prelude.{◌≡◌, ℕ, ◌<◌, List, [], ◌∷◌, ◌++◌, All, Ok, map, reverse};
ghost use Rattle.vms_world.specs.Common.{Header, IsHeader, IsLineOf, Fits, allowed_from, judged, IsOpenScript, Script};
ghost use Rattle.vms_world.specs.Common.{phase_start, first_start, start_after, start_at_end, start_past, line_of, Act};
ghost use Rattle.vms_world.specs.Common.{Item, Lane as LaneOf, Line};
ghost use Rattle.vms_text.specs.declared.acts.Boundary.{Boundary as BoundaryOf};
ghost use Rattle.vms_text.specs.declared.acts.Line.TheVariants.{Lane, Boundary};

/// What the lines of a phase make of what it began with is what they and all lines above make of the first start, and
/// so it is with a boundary line after them.
pub fn starts_go_by_all_lines()
    ensures phase { (above : List Line) (items : List Item) →
        start_at_end (start_after first_start above) (map line_of items)
        ≡ start_after first_start (reverse (map line_of items) ++ above) }
    ensures boundary { (above : List Line) (items : List Item) (boundary : BoundaryOf) →
        start_past (Boundary boundary) (start_at_end (start_after first_start above) (map line_of items))
        ≡ start_after first_start (Boundary boundary ∷ (reverse (map line_of items) ++ above)) }
    ensures script { (script : Script) → IsOpenScript script →
        start_at_end (phase_start script) (map line_of script.items) ≡ start_after first_start script.lines }
{}

/// A judge decides a line of a body by all lines above that count. Where a phase began after some of them, and the
/// others are its lines, a line of a lane that counts fits after these, and a boundary line that counts does so after
/// the phase.
pub fn judged_lines_fit()
    ensures line { (header : Header) (above : List Line) (items : List Item) (text : List ℕ) (number : ℕ)
        (lane : LaneOf) (act : Act) → IsHeader header →
        judged header (reverse (map line_of items) ++ above) text ≡ Ok (Lane lane act) →
        Fits header (start_after first_start above) items → All (λ item. item.number < number) items →
        Fits header (start_after first_start above)
        (items ++ record { number = number; lane = lane; act = act } ∷ []) }
    ensures boundary { (header : Header) (above : List Line) (items : List Item) (text : List ℕ)
        (boundary : BoundaryOf) → IsHeader header →
        judged header (reverse (map line_of items) ++ above) text ≡ Ok (Boundary boundary) →
        IsLineOf header (Boundary boundary)
        × (allowed_from header (start_at_end (start_after first_start above) (map line_of items)) (Boundary boundary)
        ≡ Ok (Boundary boundary)) }
{}
