ghost use Rattle.std.specs.Prelude.{◌≡◌};
ghost use Rattle.vms_calls.specs.Common.{AddsToPlace, AddsToSystem, AddG, AddS, pages};
ghost use Rattle.vms_seats.specs.Common.{IsFrom, MadeOne};

use crate::passes::Caller;
use crate::spots::Spot;
use crate::tables::PageTable;
use vms_base::{CounterId, ItemId, encode};
use vms_core::Step;

impl PageTable {
    /// Adds to a global value all that the pass carries there, in pages.
    #[inline]
    pub fn add_place<P: Caller>(&self, pass: &mut P, counter: CounterId, amount: i64)
        requires table { IsFrom (P.pass pass.old) self.now }
        requires adds { AddsToPlace self.now.facts (P.pass pass.old).seen (P.pass pass.old).number counter amount }
        ensures made { MadeOne pages (P.pass pass.new) (P.pass pass.old) (AddG counter amount) }
        ensures volume { P.volume pass.new ≡ P.volume pass.old }
    {
        let place = self.blocks.place_of(&self.layout, Spot::Value(counter));
        let plan = Step::AddG(counter, amount);
        pass.add_at(&self.words, place, encode(amount), &plan);
    }

    /// Adds to a system-wide value all that the pass carries there, in pages.
    #[inline]
    pub fn add_system<P: Caller>(&self, pass: &mut P, item: ItemId, amount: i64)
        requires table { IsFrom (P.pass pass.old) self.now }
        requires adds { AddsToSystem self.now.facts (P.pass pass.old).seen (P.pass pass.old).number item amount }
        ensures made { MadeOne pages (P.pass pass.new) (P.pass pass.old) (AddS item amount) }
        ensures volume { P.volume pass.new ≡ P.volume pass.old }
    {
        let place = self.blocks.place_of(&self.layout, Spot::System(item));
        let plan = Step::AddS(item, amount);
        pass.add_at(&self.words, place, encode(amount), &plan);
    }
}
