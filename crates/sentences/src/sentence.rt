// Writes the sentence that says why an object is still here.
ghost use Rattle.std.specs.Prelude.{◌≡◌};
ghost use Rattle.text.specs.Paged.{HasRoom, WroteWithin};
ghost use Rattle.reasons.specs.Reasons.{why_of};
ghost use Rattle.sentences.specs.Lent.{guard_room, reason_room, hazard_room, line_room};
ghost use Rattle.sentences.specs.Sentence.{thread_of, slot_of, guard_words, reason_words, hazard_words, line_of};

use machine::State;
use reasons::{Guard, Reason, why};
use text::page::Page;

// The thread whose slot is at a position, and which of its slots it is.
#[tactic(auto, unfolding(crate::specs::Sentence::thread_of))]
fn thread_of(slots: u8, position: u8) -> u8
    ensures { result ≡ thread_of slots position }
{
    position.checked_div(slots).unwrap_or(0)
}

#[tactic(auto, unfolding(crate::specs::Sentence::slot_of))]
fn slot_of(slots: u8, position: u8) -> u8
    ensures { result ≡ slot_of slots position }
{
    position.checked_rem(slots).unwrap_or(0)
}

// "whether that slot's hazard is the object and protected, is the object and only published, or is something else"
fn put_guard(page: &mut Page<'_>, guard: Guard)
    requires { HasRoom guard_room page.old }
    ensures { WroteWithin guard_room page.old (guard_words guard) page.new }
{
    match guard {
        Guard::Protected => page.put_bytes(b"whose hazard is this object, protected"),
        Guard::Published => page.put_bytes(b"whose hazard is this object, only published"),
        Guard::Otherwise => page.put_bytes(b"whose hazard is something else"),
    }
}

// Where the object was left, and how that slot stands to it.
fn put_handover(page: &mut Page<'_>, slots: u8, object: u8, position: u8, guard: Guard)
    requires { HasRoom reason_room page.old }
    ensures { WroteWithin reason_room page.old (reason_words slots object (Reason.Handover position guard)) page.new }
{
    let thread = thread_of(slots, position);
    let slot = slot_of(slots, position);
    page.put_filled(
        b"object % was left in the handover of position % (thread %, slot %), ",
        &[object, position, thread, slot],
    );
    put_guard(page, guard);
}

// The one place that the object is in.
fn put_reason(page: &mut Page<'_>, slots: u8, object: u8, reason: Reason)
    requires { HasRoom reason_room page.old }
    ensures { WroteWithin reason_room page.old (reason_words slots object reason) page.new }
{
    match reason {
        Reason::Link { link } => page.put_filled(b"object % is in link %", &[object, link]),
        Reason::Hand { thread } => page.put_filled(
            b"object % is in the hand of thread %",
            &[object, thread],
        ),
        Reason::Carried { thread, position } => page.put_filled(
            b"object % is carried by thread %, its scan at position %",
            &[object, thread, position],
        ),
        Reason::Handover { position, guard } => put_handover(page, slots, object, position, guard),
    }
}

// "the first position in scan order that holds it as a hazard, or none", and the end of the line
fn put_hazard(page: &mut Page<'_>, slots: u8, hazard: Option<u8>)
    requires { HasRoom hazard_room page.old }
    ensures { WroteWithin hazard_room page.old (hazard_words slots hazard) page.new }
{
    match hazard {
        Some(position) => {
            let thread = thread_of(slots, position);
            let slot = slot_of(slots, position);
            page.put_filled(
                b"; first hazard: position % (thread %, slot %)\n",
                &[position, thread, slot],
            );
        }
        None => page.put_bytes(b"; no hazard\n"),
    }
}

// The line of an object; nothing where it is free.
pub(crate) fn put_line(page: &mut Page<'_>, state: State, object: u8)
    requires { HasRoom line_room page.old }
    ensures { WroteWithin line_room page.old (line_of state.sizes.slots object (why_of state object)) page.new }
{
    if let Ok(kept) = why(state, object) {
        put_reason(page, state.sizes.slots, object, kept.reason);
        put_hazard(page, state.sizes.slots, kept.hazard);
    }
}
