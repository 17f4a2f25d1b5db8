// Reads a whole line: nothing, the four sizes, or a step.
ghost use Rattle.std.specs.Prelude.{◌≡◌};
ghost use Rattle.script.specs.Lines.{sizes_line, step_line, line_of};

use crate::reading::Fields;
use crate::{Fault, Place};
use records::{Record, SizesRecord, StepRecord};
use words::fields::{byte_or_zero, operation_of, slot_of, tag_of};
use words::finding::word_at;
use words::numbers::byte;

impl Fields<'_> {
    // A line of four sizes.
    #[tactic(auto, unfolding(crate::specs::Lines::sizes_line, crate::specs::Reading::byte_at))]
    fn sizes(mut self) -> Result<SizesRecord, Fault>
        ensures { result ≡ sizes_line self.entry.text.now self.entry.at }
    {
        let threads = self.field(Place::Threads, byte)?;
        let slots = self.field(Place::Slots, byte)?;
        let links = self.field(Place::Links, byte)?;
        let objects = self.field(Place::Objects, byte)?;
        self.end(Place::AfterSizes)?;
        Ok(SizesRecord {
            threads,
            slots,
            links,
            objects,
        })
    }

    // A line of a step: thread, operation and, where not 0, slot, link and tag.
    #[tactic(auto, unfolding(crate::specs::Lines::step_line, crate::specs::Reading::byte_at, crate::specs::Reading::operation_at, crate::specs::Reading::slot_at, crate::specs::Reading::link_at, crate::specs::Reading::tag_at))]
    fn step(mut self) -> Result<StepRecord, Fault>
        ensures { result ≡ step_line self.entry.text.now self.entry.at }
    {
        let thread = self.field(Place::Thread, byte)?;
        let operation = self.field(Place::Operation, operation_of)?;
        let slot = self.field(Place::Slot, |word| slot_of(operation, word))?;
        let link = self.field(Place::Link, byte_or_zero)?;
        let tag = self.field(Place::Tag, tag_of)?;
        self.end(Place::AfterStep)?;
        Ok(StepRecord {
            thread,
            operation,
            slot,
            link,
            tag,
        })
    }

    // What a line says, if it says something; the first that does has the sizes. The flag is the definition's (`line_of text at sizes`).
    #[tactic(auto, unfolding(crate::specs::Lines::line_of, crate::specs::Lines::lined))]
    pub(crate) fn record(self, sizes: bool) -> Result<Option<Record>, Fault>
        ensures { result ≡ line_of self.entry.text.now self.entry.at sizes }
    {
        let word = word_at(self.text, self.at);
        Ok(if word.from == word.to {
            None
        } else if sizes {
            Some(Record::Sizes(self.sizes()?))
        } else {
            Some(Record::Step(self.step()?))
        })
    }
}
