ghost use Rattle.std.specs.Prelude.{◌≡◌, true, List, All};
ghost use Rattle.vms_world.specs.Common.{Header, Shape, IsLaneOf, Item, Lane, has_line, is_among, lanes_of};
ghost use Rattle.vms_file_order.specs.LanePasses.{StandOnce};

/// The lanes that have lines stand once each. Each has a line, and the lane of each line is among them.
pub fn lanes_stand_once()
    ensures once { (shape : Shape) (items : List Item) → StandOnce (lanes_of shape items) }
    ensures lines { (shape : Shape) (items : List Item) →
        All (λ lane. has_line lane items ≡ true) (lanes_of shape items) }
    ensures among { (header : Header) (items : List Item) → All (λ item. IsLaneOf header item.lane) items →
        All (λ item. is_among item.lane (lanes_of header.layout items) ≡ true) items }
{}
