// One schedule through both machines and the plain store, compared after every call.
use crate::plan::Plan;
use crate::totals::{Compared, Totals};
use crate::{change, draw};
use compare::Five;
use machine::State;
use plain::Operation;
use store::Store;
use twin::{Counts, Refusal, Twin};

// The five places sum to N; those that wait are as many as the history says, and at most T × (H + 1).
fn sums(counts: Counts, twin: &Twin, waiting: usize) -> bool {
    let Counts {
        free,
        links,
        hands,
        handovers,
        carried,
    } = counts;
    let places = [free, links, hands, handovers, carried];
    places.into_iter().fold(0, usize::saturating_add) == twin.sizes.objects
        && handovers.saturating_add(carried) == waiting
        && waiting <= twin.bound()
}

// The states of both machines after a call, and what the store has to say of them.
fn compared(s: State, w: &Twin, store: &Store, totals: &mut Totals) {
    let raw = compare::raw(s);
    totals.compare(Compared::State, raw == w.raw());
    totals.compare(Compared::Holding, store.holds(&raw));
    let theirs = Five::of_first(s);
    let same = theirs == Five::of_twin(w) && sums(theirs.counts, w, store.waiting);
    totals.compare(Compared::Count, same);
}

// One schedule. Now and then a changed state is judged too.
pub fn schedule(plan: Plan, totals: &mut Totals) {
    let began = plan.machine();
    let ours = plan.twin();
    let mut state = began.state;
    let mut w = ours.twin;
    let mut store = Store::bare(plan.sizes);
    let refused = compare::refused(began.verdict);
    totals.start(refused);
    totals.compare(
        Compared::Answer,
        refused == ours.refused.map(Refusal::number),
    );
    totals.compare(Compared::State, compare::raw(state) == w.raw());
    for i in 0..plan.length {
        let order = draw::order(plan, i, &w);
        let before = w.task_of(order.thread);
        let out = state.step(compare::call(order));
        let mine = w.step(order);
        state = out.state;
        w = mine.twin;

        // The machines answer the same, and a 3 says what was done.
        let said = compare::said(out.answer);
        let after = w.task_of(order.thread);
        let fits = compare::fits(said, before, after, order.thread, w.sizes);
        totals.answer(said);
        totals.compare(Compared::Answer, said == mine.said && fits);
        if order.known() == Some(Operation::GoOn) && !said.is_refusal() {
            totals.go_on(before, said);
        }
        if let Some(agrees) = store.hear(order, said) {
            totals.compare(Compared::Listed, agrees);
        }
        compared(state, &w, &store, totals);
        if i % 24 == 23 {
            change::judged(plan, i, state, totals);
        }
    }
}
